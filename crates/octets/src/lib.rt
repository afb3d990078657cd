// octets: bytes in slices. Comparing, testing, copying, appending and clearing them, finding one, and big-endian numbers.
//
// Scans that test or compare look at every byte and accumulate, with no early exit: that is quick, and the time says nothing
// of where two texts differ. `all` is that scan for a test of single bytes.
#![tactic(auto)]

ghost use Rattle.std.specs.Prelude.{◌≡◌, ◌+◌, ◌<◌, ◌≤◌, ℕ, Bool, length, replicate};
ghost use Rattle.std.proofs.lemmas.List.Edits.{sets};
ghost use Rattle.octets.specs.Lists.{part, every, is_zero, in_class, same, index_of};
ghost use Rattle.octets.specs.BigEndian.{big_endian, big_endian_bytes};
ghost use Rattle.octets.specs.Writing.{Appended};

// Whether two slices hold the same bytes.
pub fn equal(a: &[u8], b: &[u8]) -> bool
    ensures { result ≡ same a.now b.now }
{
    if a.len() != b.len() {
        return false;
    }
    let mut ok = true;
    for (x, y) in a.iter().zip(b) {
        ok = ok & (*x == *y);
    }
    ok
}

// Whether every byte passes a test.
pub fn all<F: Fn(u8) -> bool>(s: &[u8], test: F) -> bool
    requires { F.IsAlwaysCallable test }
    ensures { (p : ℕ → Bool) → ((b : ℕ) (passes : Bool) → b < 256 → F.post test b passes → passes ≡ p b) → result ≡ every p s.now }
{
    let mut ok = true;
    for b in s {
        ok = ok & test(*b);
    }
    ok
}

// Whether every byte is zero.
pub fn all_zero(s: &[u8]) -> bool
    ensures { result ≡ every is_zero s.now }
{
    all(s, |b| b == 0)
}

// Whether every byte is within low and high and none is `except`.
pub fn all_in_class(s: &[u8], low: u8, high: u8, except: u8) -> bool
    ensures { result ≡ every (in_class low high except) s.now }
{
    all(s, |b| (low <= b) & (b <= high) & (b != except))
}

// How many bytes stand before the first x: all of them where there is none.
// A number and no Option: callers cut the slice there, at its end where there is no x.
pub fn index_of(s: &[u8], x: u8) -> usize
    ensures { result ≡ index_of x s.now }
{
    s.iter().position(|y| *y == x).unwrap_or(s.len())
}

// Copies src to the bytes from `at` on.
pub fn copy_at(b: &mut [u8], at: usize, src: &[u8])
    requires { at + length src.now ≤ length b.old }
    ensures { b.new ≡ sets b.old at src.now }
{
    // Not by `copy_from_slice`, of which the compiler makes memmove: of this loop it makes memcpy, which a host brings anyway.
    for (i, &x) in src.iter().enumerate() {
        b[at + i] = x;
    }
}

// Writes a text from `at` on, and says where it ends.
pub fn append(out: &mut [u8], at: usize, text: &[u8]) -> usize
    requires { at + length text.now ≤ length out.old }
    ensures { Appended out.old at text.now out.new result }
{
    copy_at(out, at, text);
    at + text.len()
}

// Makes the n bytes from `at` on zero.
pub fn clear_at(b: &mut [u8], at: usize, n: usize)
    requires { at + n ≤ length b.old }
    ensures { b.new ≡ sets b.old at (replicate n 0) }
{
    b[at..at + n].fill(0);
}

// The N bytes at `at`, as an array.
pub fn bytes_at<const N: usize>(s: &[u8], at: usize) -> [u8; N]
    requires { at + N ≤ length s.now }
    ensures { result ≡ part s.now at N }
{
    *s[at..].first_chunk().unwrap()
}

// The big-endian number in the 4 bytes at `at`.
pub fn read_be32(s: &[u8], at: usize) -> u32
    requires { at + 4 ≤ length s.now }
    ensures { result ≡ big_endian (part s.now at 4) }
{
    u32::from_be_bytes(bytes_at(s, at))
}

// The big-endian number in the 8 bytes at `at`.
pub fn read_be64(s: &[u8], at: usize) -> u64
    requires { at + 8 ≤ length s.now }
    ensures { result ≡ big_endian (part s.now at 8) }
{
    u64::from_be_bytes(bytes_at(s, at))
}

// Writes x big-endian to the n bytes at `at`, the last byte first: what does not fit them is left off.
pub fn write_be(b: &mut [u8], at: usize, n: usize, x: u64)
    requires { at + n ≤ length b.old }
    ensures { b.new ≡ sets b.old at (big_endian_bytes n x) }
{
    let mut v = x;
    // By index: what an iterator over `&mut` bytes writes from the back is not known to a proof.
    for i in (0..n).rev() {
        b[at + i] = (v % 256) as u8;
        v = v / 256;
    }
}
