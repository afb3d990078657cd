// Stretches of plain bytes, found and copied. A stretch runs to the next % or +, or to the end.
//
// A block of bytes is tested as a whole, with no exit inside it; only where a stretch ends are bytes looked at one by one.
// Among escapes most stretches are short, and a block costs more than it saves: there bytes go one by one from the start.
ghost use Rattle.std.specs.Prelude.{◌≡◌, ◌+◌, ◌≤◌, length, take};
ghost use Rattle.octets.specs.Lists.{every};
ghost use Rattle.octets.specs.Writing.{Appended};
ghost use Rattle.form_coding.specs.Turns.{is_mark, is_plain, stretch};

// How many bytes are tested together.
const BLOCK: usize = 16;

// How many bytes of a stretch are copied one by one. What is left of a longer one is copied at a go.
const SHORT: usize = 24;

// Whether a byte is a % or a +. Any other is plain.
pub fn is_mark(c: u8) -> bool
    ensures { result ≡ is_mark c }
{
    (c == b'%') | (c == b'+')
}

// Whether every byte is plain.
fn all_plain(s: &[u8]) -> bool
    ensures { result ≡ every is_plain s.now }
{
    octets::all(s, |c| !is_mark(c))
}

// How many bytes the plain blocks at the front take: none where the second byte already is a % or a +, so that no block is
// tested for a stretch of one byte.
fn plain_blocks(s: &[u8]) -> usize
    ensures plain { result ≤ stretch s.now }
    ensures within { result ≤ length s.now }
{
    if s.len() < BLOCK {
        return 0;
    }
    if is_mark(s[1]) {
        return 0;
    }
    let (blocks, _) = s.as_chunks::<BLOCK>();
    for (i, block) in blocks.iter().enumerate() {
        if !all_plain(block) {
            return i * BLOCK;
        }
    }
    blocks.len() * BLOCK
}

// The length of the stretch at the front.
pub fn stretch_length(s: &[u8]) -> usize
    ensures { result ≡ stretch s.now }
{
    let k = plain_blocks(s);
    let rest = &s[k..];
    k + rest.iter().position(|c| is_mark(*c)).unwrap_or(rest.len())
}

// Copies the stretch at the front to out from `at` on, byte by byte, and gives its length.
fn copy_short(s: &[u8], out: &mut [u8], at: usize) -> usize
    requires { at + length s.now ≤ length out.old }
    ensures count { result ≡ stretch s.now }
    ensures bytes { Appended out.old at (take result s.now) out.new (at + result) }
{
    for (i, &c) in s.iter().enumerate() {
        if is_mark(c) {
            return i;
        }
        out[at + i] = c;
    }
    s.len()
}

// Copies the stretch at the front to out from `at` on, at a go once it is found, and gives its length.
fn copy_long(s: &[u8], out: &mut [u8], at: usize) -> usize
    requires { at + length s.now ≤ length out.old }
    ensures count { result ≡ stretch s.now }
    ensures bytes { Appended out.old at (take result s.now) out.new (at + result) }
{
    let n = stretch_length(s);
    octets::copy_at(out, at, &s[..n]);
    n
}

// Copies the stretch at the front to out from `at` on, and gives its length.
pub fn copy_stretch(s: &[u8], out: &mut [u8], at: usize) -> usize
    requires { at + length s.now ≤ length out.old }
    ensures count { result ≡ stretch s.now }
    ensures bytes { Appended out.old at (take result s.now) out.new (at + result) }
{
    if s.len() <= SHORT {
        return copy_short(s, out, at);
    }
    let n = copy_short(&s[..SHORT], out, at);
    if n < SHORT {
        return n;
    }
    SHORT + copy_long(&s[SHORT..], out, at + SHORT)
}
