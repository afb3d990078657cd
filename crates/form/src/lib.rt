// form: the reader of application/x-www-form-urlencoded.
//
// The coding of one name or value is the crate form_coding; here is the reader of a whole form: a cursor that goes
// from piece to piece, and the places of the known names. What is asked of a place is the module values.
#![tactic(auto)]

mod values;

ghost use Rattle.std.specs.Prelude.{◌≡◌, ◌-◌, ◌≤◌, length};
ghost use Rattle.octets.specs.Lists.{part};
ghost use Rattle.form_coding.specs.Coding.{decode};
ghost use Rattle.form.specs.Content.{pieces};
ghost use Rattle.form.specs.Places.{step_of, rank, one_more, seen_again, enter, read_of, Says};

pub use values::{any_repeated, is_missing, is_once, is_repeated, value_into};

// How many known names a form has places for: as many as the longest list of names needs.
pub const PLACES: usize = 8;

// How often a name was seen with a value that is not empty.
#[derive(Clone, Copy, PartialEq, Eq)]
pub enum Count {
    Missing,
    Once,
    Repeated,
}

// What was seen of a known name: how often, and where the last raw value stands.
#[derive(Clone, Copy)]
pub struct Place {
    pub count: Count,
    pub start: usize,
    pub end: usize,
}

// The place of a name that was not seen.
const UNSEEN: Place = Place {
    count: Count::Missing,
    start: 0,
    end: 0,
};

// A part of the form, from its start up to its end.
#[derive(Clone, Copy)]
struct Span {
    start: usize,
    end: usize,
}

// Where the reader is: at the start of a piece, or past the end of the form.
#[derive(Clone, Copy)]
struct Cursor {
    at: usize,
}

impl Cursor {
    // At the start of a form.
    fn new() -> Self
        ensures { result.at ≡ 0 }
    {
        Cursor { at: 0 }
    }

    // The piece at the cursor, and the cursor moved past it and its `&`. A form ends with a piece, so the end comes
    // one past the last byte.
    fn next(self, s: &[u8]) -> Option<(Span, Cursor)>
        ensures { result ≡ step_of s.now self.at }
    {
        let start = self.at;
        let rest = s.get(start..)?;
        let end = start + octets::index_of(rest, b'&');
        Some((Span { start, end }, Cursor { at: end + 1 }))
    }
}

// One more of a name.
fn one_more(c: Count) -> Count
    ensures { result ≡ one_more c }
{
    match c {
        Count::Missing => Count::Once,
        Count::Once | Count::Repeated => Count::Repeated,
    }
}

// A place after one more value of its name, which stands from start up to end.
#[tactic(auto, unfolding(crate::specs::Places::seen_again))]
fn seen_again(p: Place, start: usize, end: usize) -> Place
    ensures { result ≡ seen_again p start end }
{
    Place {
        count: one_more(p.count),
        start,
        end,
    }
}

// Where a name, still coded, stands among the known names, which have `&` between them, if it is one of them.
fn known(names: &[u8], name: &[u8]) -> Option<usize>
    ensures { result ≡ rank (decode name.now) (pieces names.now) }
{
    names
        .split(|b| *b == b'&')
        .position(|known| form_coding::value_equals(name, known))
}

// The places after the piece p of s: a copy with one entry changed. A piece with an empty value or an unknown name
// changes none.
fn enter_piece(places: [Place; PLACES], names: &[u8], s: &[u8], p: Span) -> [Place; PLACES]
    requires { (p.start ≤ p.end) × (p.end ≤ length s.now) }
    ensures { result ≡ enter (pieces names.now) places p.start (part s.now p.start (p.end - p.start)) }
{
    let piece = &s[p.start..p.end];
    let n = octets::index_of(piece, b'=');
    if piece.len() <= n + 1 {
        return places;
    }
    let Some(k) = known(names, &piece[..n]) else {
        return places;
    };
    if PLACES <= k {
        return places;
    }
    let mut next = places;
    next[k] = seen_again(next[k], p.start + n + 1, p.end);
    next
}

// Reads the form s: where the values of the known names stand, which are themselves a text with `&` between them, in
// their order; nothing where s is malformed.
pub fn read(s: &[u8], names: &[u8]) -> Option<[Place; PLACES]>
    ensures positions { result ≡ read_of (pieces names.now) s.now }
    ensures content { Says names.now s.now result }
{
    if !form_coding::well_formed(s) {
        return None;
    }
    let mut places = [UNSEEN; PLACES];
    let mut c = Cursor::new();
    while let Some((p, moved)) = c.next(s) {
        // In two steps: the prover does not follow a call whose array is laid right into a variable of the loop.
        let next = enter_piece(places, names, s, p);
        places = next;
        c = moved;
    }
    Some(places)
}
