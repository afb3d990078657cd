// scope: sets of the eight scope names, and scope values as texts.
#![tactic(auto)]

ghost use Rattle.std.specs.Prelude.{◌≡◌, true, ◌+◌, ◌<◌, ◌≤◌, length, position};
ghost use Rattle.octets.specs.Writing.{Appended};
ghost use Rattle.octets.specs.Lists.{same};
ghost use Rattle.scope.specs.Set.{names, name_at, has, of_byte, join, meet, is_within};
ghost use Rattle.scope.specs.Value.{set_named, read_scope, name_text, scope_text};

// A set of scope names, one bit for each.
#[derive(Clone, Copy, PartialEq, Eq)]
pub struct Scope {
    pub bits: u8,
}

impl Scope {
    // No name.
    pub const EMPTY: Scope = Scope { bits: 0 };

    // All eight names.
    pub const FULL: Scope = Scope { bits: 255 };

    // The set whose number is b: each of its bits is one of the eight names.
    pub fn from_byte(b: u8) -> Self
        ensures { result ≡ of_byte b }
    {
        Scope { bits: b }.meet(Scope::FULL)
    }

    // The names of either set.
    pub fn join(self, other: Scope) -> Self
        ensures { result ≡ join self other }
    {
        Scope {
            bits: self.bits | other.bits,
        }
    }

    // The names of both sets.
    pub fn meet(self, other: Scope) -> Self
        ensures { result ≡ meet self other }
    {
        Scope {
            bits: self.bits & other.bits,
        }
    }

    // Whether every name of this set is in the other.
    pub fn within(self, other: Scope) -> bool
        ensures { result ≡ is_within self other }
    {
        self.meet(other) == self
    }

    // Whether the name at place k of the table is in this set.
    fn has(self, k: usize) -> bool
        requires { k < 8 }
        ensures { result ≡ has self.bits k }
    {
        (self.bits >> k) % 2 == 1
    }
}

// The eight names in the order of their bits.
const NAMES: [&[u8]; 8] = [
    b"power", b"peak", b"tariff", b"bill", b"milking", b"drying", b"pump", b"solar",
];

// The name at place k.
#[tactic(auto, unfolding(crate::specs::Set::names))]
fn name_at(k: usize) -> &'static [u8]
    requires { k < 8 }
    ensures { result.now ≡ name_at k }
{
    NAMES[k]
}

// Where a text stands among the names, if it is one of them.
fn place_of(text: &[u8]) -> Option<usize>
    ensures { result ≡ position (same text.now) names }
{
    NAMES.iter().position(|name| octets::equal(text, name))
}

// The set of the one name that a text is, or nothing for a text that is none.
fn named(text: &[u8]) -> Option<Scope>
    ensures { result ≡ set_named text.now }
{
    let k = place_of(text)?;
    Some(Scope::from_byte(1 << k))
}

// What a scope value says: the set of the names between its spaces, or nothing where one of these texts is no name.
pub fn read(v: &[u8]) -> Option<Scope>
    ensures { result ≡ read_scope v.now }
{
    let mut set = Scope::EMPTY;
    for text in v.split(|b| *b == b' ') {
        set = set.join(named(text)?);
    }
    Some(set)
}

// Writes the name at place k, with a space in front unless it is the first, and says where it ends.
fn append_next(out: &mut [u8], at: usize, k: usize, first: bool) -> usize
    requires { (k < 8) × (at + length (name_text true first k) ≤ length out.old) }
    ensures { Appended out.old at (name_text true first k) out.new result }
{
    let next = if first {
        at
    } else {
        octets::append(out, at, b" ")
    };
    octets::append(out, next, name_at(k))
}

// Writes the names of a set in the order of the table, and says where the text ends. All eight take 48 bytes.
pub fn append(out: &mut [u8], at: usize, set: Scope) -> usize
    requires { at + 48 ≤ length out.old }
    ensures { Appended out.old at (scope_text set.bits) out.new result }
{
    let mut next = at;
    let mut first = true;
    // By number, and not over NAMES: k is both the bit and the place of the name.
    for k in 0..8 {
        if set.has(k) {
            next = append_next(out, next, k, first);
            first = false;
        }
    }
    next
}
