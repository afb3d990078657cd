// form_coding: the coding of one name or value of a form, read and written, with no buffer where none is needed.
//
// A value is decoded in turns: a stretch of plain bytes is one, and so is each + and each %. Stretches are found and copied in
// the module stretches.
#![tactic(auto)]

mod stretches;

ghost use Rattle.std.specs.Prelude.{◌≡◌, ◌+◌, ◌*◌, ◌^◌, ◌<◌, ◌≤◌, length};
ghost use Rattle.std.proofs.lemmas.List.Edits.{sets};
ghost use Rattle.octets.specs.Lists.{same};
ghost use Rattle.octets.specs.Writing.{Appended};
ghost use Rattle.form_coding.specs.Coding.{escaped, decode, symbol_of, sound, well_formed, is_kept, encode_byte, encode};
ghost use Rattle.form_coding.specs.Turns.{turn_width, turn_bytes, turns, stands_at};

use encoding::{hex_digit, hex_value};

// The byte of the escape at the front, % and two hex digits of either case, if there is one.
fn escape(s: &[u8]) -> Option<u8>
    ensures { result ≡ escaped s.now }
{
    match *s {
        [b'%', high, low, ..] => Some(hex_value(high, true)? * 16 + hex_value(low, true)?),
        _ => None,
    }
}

// A decoded byte, and how many bytes it is written in.
#[derive(Clone, Copy)]
struct Symbol {
    byte: u8,
    width: usize,
}

// The symbol at the front.
fn first_symbol(s: &[u8]) -> Symbol
    requires { 0 < length s.now }
    ensures { result ≡ symbol_of s.now }
{
    if s[0] == b'+' {
        return Symbol {
            byte: b' ',
            width: 1,
        };
    }
    match escape(s) {
        Some(byte) => Symbol { byte, width: 3 },
        None => Symbol {
            byte: s[0],
            width: 1,
        },
    }
}

// Whether the first byte is no % or begins an escape.
fn is_sound(s: &[u8]) -> bool
    requires { 0 < length s.now }
    ensures { result ≡ sound s.now }
{
    s[0] != b'%' || escape(s).is_some()
}

// Whether each % begins an escape.
pub fn well_formed(v: &[u8]) -> bool
    ensures { result ≡ well_formed v.now }
{
    let mut ok = true;
    // By index: the test looks at a byte and at those behind it, and `windows` leaves out the last two.
    for i in 0..v.len() {
        ok = ok & is_sound(&v[i..]);
    }
    ok
}

// Whether a text stands from index k of e on.
fn stands_at(e: &[u8], k: usize, text: &[u8]) -> bool
    ensures { result ≡ stands_at e.now k text.now }
{
    if e.len() < k {
        return text.is_empty();
    }
    let n = text.len();
    if e.len() - k < n {
        return false;
    }
    octets::equal(text, &e[k..k + n])
}

// A turn that was compared: whether the bytes that it decodes to are those of e, how many bytes of the value it takes, and
// where those bytes end in e.
#[derive(Clone, Copy)]
struct Compared {
    equal: bool,
    width: usize,
    end: usize,
}

// Compares the turn at the front with the bytes of e from k on.
fn compare_turn(s: &[u8], e: &[u8], k: usize) -> Compared
    requires { (0 < length s.now) × (k + length s.now < 2 ^ 64) }
    ensures place { (result.width ≡ turn_width s.now) × (result.end ≡ k + length (turn_bytes s.now)) }
    ensures within { (0 < result.width) × (result.width ≤ length s.now) }
    ensures equal { result.equal ≡ stands_at e.now k (turn_bytes s.now) }
{
    if stretches::is_mark(s[0]) {
        let Symbol { byte, width } = first_symbol(s);
        return Compared {
            equal: stands_at(e, k, &[byte]),
            width,
            end: k + 1,
        };
    }
    let n = stretches::stretch_length(s);
    Compared {
        equal: stands_at(e, k, &s[..n]),
        width: n,
        end: k + n,
    }
}

// Whether v decodes to the bytes of e. It looks at all of v, wherever the two differ, and decodes into no buffer; but for an e that is
// longer than v, since a value decodes to no more bytes than it has.
pub fn value_equals(v: &[u8], e: &[u8]) -> bool
    ensures { result ≡ same (decode v.now) e.now }
{
    if v.len() < e.len() {
        return false;
    }
    let mut ok = true;
    let mut rest = v;
    let mut k = 0;
    while !rest.is_empty() {
        let t = compare_turn(rest, e, k);
        ok = ok & t.equal;
        rest = &rest[t.width..];
        k = t.end;
    }
    // nothing of v is left, so nothing of e may be; past the end of e ok is false
    ok & (e.len() <= k)
}

// A turn that was decoded: how many bytes of the value it takes, and where what it wrote ends.
#[derive(Clone, Copy)]
struct Turn {
    width: usize,
    end: usize,
}

// Decodes the turn at the front, to out from `at` on. Not one with compare_turn: a short stretch is copied while its end is
// looked for, not measured first.
fn decode_turn(s: &[u8], out: &mut [u8], at: usize) -> Turn
    requires { (0 < length s.now) × (at + length s.now ≤ length out.old) }
    ensures width { result.width ≡ turn_width s.now }
    ensures within { (0 < result.width) × (result.width ≤ length s.now) }
    ensures bytes { Appended out.old at (turn_bytes s.now) out.new result.end }
{
    if stretches::is_mark(s[0]) {
        let Symbol { byte, width } = first_symbol(s);
        out[at] = byte;
        return Turn { width, end: at + 1 };
    }
    let n = stretches::copy_stretch(s, out, at);
    Turn {
        width: n,
        end: at + n,
    }
}

// What decoding a value came to: how many bytes it gave, and in how many turns.
#[derive(Clone, Copy)]
pub struct Decoding {
    pub length: usize,
    pub turns: usize,
}

// Writes the decoded bytes of v to out from its start, and gives their number and the number of turns.
pub fn decode_in_turns(v: &[u8], out: &mut [u8]) -> Decoding
    requires { length v.now ≤ length out.old }
    ensures answer { result ≡ record { length = length (decode v.now); turns = turns v.now } }
    ensures bytes { out.new ≡ sets out.old 0 (decode v.now) }
{
    let mut rest = v;
    let mut n = 0;
    let mut turns = 0;
    while !rest.is_empty() {
        let t = decode_turn(rest, out, n);
        rest = &rest[t.width..];
        n = t.end;
        turns += 1;
    }
    Decoding { length: n, turns }
}

// Writes the decoded bytes of v to out from its start, and gives their number.
pub fn decode_into(v: &[u8], out: &mut [u8]) -> usize
    requires { length v.now ≤ length out.old }
    ensures count { result ≡ length (decode v.now) }
    ensures bytes { out.new ≡ sets out.old 0 (decode v.now) }
{
    decode_in_turns(v, out).length
}

// Whether the writer keeps a byte as it is: letters, digits and - . _ *
fn is_kept(c: u8) -> bool
    ensures { result ≡ is_kept c }
{
    // tests joined by `&` and `|`: with `matches!` a value takes 1.8 times as long to write
    (b'0' <= c) & (c <= b'9')
        | (b'A' <= c) & (c <= b'Z')
        | (b'a' <= c) & (c <= b'z')
        | (c == b'-')
        | (c == b'.')
        | (c == b'_')
        | (c == b'*')
}

// Writes one byte from `at` on, and says where it ends.
fn append_byte(out: &mut [u8], at: usize, b: u8) -> usize
    requires { at + 3 ≤ length out.old }
    ensures { Appended out.old at (encode_byte b) out.new result }
{
    if is_kept(b) {
        return octets::append(out, at, &[b]);
    }
    if b == b' ' {
        return octets::append(out, at, b"+");
    }
    let escape = [b'%', hex_digit(b / 16, b'A'), hex_digit(b % 16, b'A')];
    octets::append(out, at, &escape)
}

// Writes the bytes of v from `at` on, and says where they end. Each takes at most three.
pub fn append_value(out: &mut [u8], at: usize, v: &[u8]) -> usize
    requires { at + 3 * length v.now ≤ length out.old }
    ensures { Appended out.old at (encode v.now) out.new result }
{
    let mut next = at;
    for &b in v {
        next = append_byte(out, next, b);
    }
    next
}
