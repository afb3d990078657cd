// sha256: the SHA-256 digest of a message, as FIPS 180-4 defines it.
//
// The message is not copied: its whole blocks are hashed where they lie, and only what is left of it goes into a buffer
// with the padding. The time depends on the message's length alone.
#![tactic(auto)]

ghost use Rattle.std.specs.Prelude.{◌≡◌, ◌+◌, ◌%◌, ◌<◌, ◌≤◌, ◌++◌, length, take};
ghost use Rattle.std.proofs.lemmas.List.Edits.{sets};
ghost use Rattle.std.specs.List.{fold};
ghost use Rattle.octets.specs.BigEndian.{big_endian_bytes};
ghost use Rattle.octets.specs.Writing.{Appended};
ghost use Rattle.sha256.specs.Functions.{plus, IsTurn, rotr, ch, maj, big_sigma, small_sigma, big_sigma0, big_sigma1, small_sigma0, small_sigma1};
ghost use Rattle.sha256.specs.Constants.{round_constants};
ghost use Rattle.sha256.specs.Digest.{zero_bytes, padding, block_words, schedule_word, extended, first_sum, second_sum, round, rounds, added, compressed, hashed_all, state_bytes, digest};

// The hash value, and the working variables of a block's rounds.
#[derive(Clone, Copy)]
pub struct State {
    pub a: u32,
    pub b: u32,
    pub c: u32,
    pub d: u32,
    pub e: u32,
    pub f: u32,
    pub g: u32,
    pub h: u32,
}

// The bits of y where x has ones, and of z where it has zeros.
#[tactic(auto, unfolding(crate::specs::Functions::ch))]
fn ch(x: u32, y: u32, z: u32) -> u32
    ensures { result ≡ ch x y z }
{
    (x & y) ^ (!x & z)
}

// At each place the bit that two of the three have.
#[tactic(auto, unfolding(crate::specs::Functions::maj))]
fn maj(x: u32, y: u32, z: u32) -> u32
    ensures { result ≡ maj x y z }
{
    (x & y) ^ (x & z) ^ (y & z)
}

// x turned by i, by j and by k bits, the three added without carry.
#[tactic(auto, using(crate::proofs::Words::turned), unfolding(crate::specs::Functions::big_sigma))]
fn big_sigma(x: u32, i: u32, j: u32, k: u32) -> u32
    requires { IsTurn i × IsTurn j × IsTurn k }
    ensures { result ≡ big_sigma i j k x }
{
    x.rotate_right(i) ^ x.rotate_right(j) ^ x.rotate_right(k)
}

// x turned by i and by j bits and shifted by k bits, the three added without carry.
#[tactic(auto, using(crate::proofs::Words::turned), unfolding(crate::specs::Functions::small_sigma))]
fn small_sigma(x: u32, i: u32, j: u32, k: u32) -> u32
    requires { IsTurn i × IsTurn j × (k < 32) }
    ensures { result ≡ small_sigma i j k x }
{
    x.rotate_right(i) ^ x.rotate_right(j) ^ x >> k
}

fn big_sigma0(x: u32) -> u32
    ensures { result ≡ big_sigma0 x }
{
    big_sigma(x, 2, 13, 22)
}

fn big_sigma1(x: u32) -> u32
    ensures { result ≡ big_sigma1 x }
{
    big_sigma(x, 6, 11, 25)
}

fn small_sigma0(x: u32) -> u32
    ensures { result ≡ small_sigma0 x }
{
    small_sigma(x, 7, 18, 3)
}

fn small_sigma1(x: u32) -> u32
    ensures { result ≡ small_sigma1 x }
{
    small_sigma(x, 17, 19, 10)
}

// The first sum of a round with the constant k and the word w.
#[tactic(auto, unfolding(crate::specs::Digest::first_sum))]
fn first_sum(s: State, k: u32, w: u32) -> u32
    ensures { result ≡ first_sum s k w }
{
    s.h.wrapping_add(big_sigma1(s.e))
        .wrapping_add(ch(s.e, s.f, s.g))
        .wrapping_add(k)
        .wrapping_add(w)
}

// The second sum of a round.
#[tactic(auto, unfolding(crate::specs::Digest::second_sum))]
fn second_sum(s: State) -> u32
    ensures { result ≡ second_sum s }
{
    big_sigma0(s.a).wrapping_add(maj(s.a, s.b, s.c))
}

// What a round with the constant k and the word w makes of the working variables.
#[tactic(auto, unfolding(crate::specs::Digest::round))]
fn round(s: State, k: u32, w: u32) -> State
    ensures { result ≡ round s k w }
{
    let t1 = first_sum(s, k, w);
    let t2 = second_sum(s);
    State {
        a: t1.wrapping_add(t2),
        b: s.a,
        c: s.b,
        d: s.c,
        e: s.d.wrapping_add(t1),
        f: s.e,
        g: s.f,
        h: s.g,
    }
}

// The working variables added to the hash value so far.
#[tactic(auto, unfolding(crate::specs::Digest::added))]
fn added(s: State, t: State) -> State
    ensures { result ≡ added s t }
{
    State {
        a: s.a.wrapping_add(t.a),
        b: s.b.wrapping_add(t.b),
        c: s.c.wrapping_add(t.c),
        d: s.d.wrapping_add(t.d),
        e: s.e.wrapping_add(t.e),
        f: s.f.wrapping_add(t.f),
        g: s.g.wrapping_add(t.g),
        h: s.h.wrapping_add(t.h),
    }
}

// "the first thirty-two bits of the fractional parts of the cube roots of the first sixty-four prime numbers"
const ROUND_CONSTANTS: [u32; 64] = [
    0x428a_2f98,
    0x7137_4491,
    0xb5c0_fbcf,
    0xe9b5_dba5,
    0x3956_c25b,
    0x59f1_11f1,
    0x923f_82a4,
    0xab1c_5ed5,
    0xd807_aa98,
    0x1283_5b01,
    0x2431_85be,
    0x550c_7dc3,
    0x72be_5d74,
    0x80de_b1fe,
    0x9bdc_06a7,
    0xc19b_f174,
    0xe49b_69c1,
    0xefbe_4786,
    0x0fc1_9dc6,
    0x240c_a1cc,
    0x2de9_2c6f,
    0x4a74_84aa,
    0x5cb0_a9dc,
    0x76f9_88da,
    0x983e_5152,
    0xa831_c66d,
    0xb003_27c8,
    0xbf59_7fc7,
    0xc6e0_0bf3,
    0xd5a7_9147,
    0x06ca_6351,
    0x1429_2967,
    0x27b7_0a85,
    0x2e1b_2138,
    0x4d2c_6dfc,
    0x5338_0d13,
    0x650a_7354,
    0x766a_0abb,
    0x81c2_c92e,
    0x9272_2c85,
    0xa2bf_e8a1,
    0xa81a_664b,
    0xc24b_8b70,
    0xc76c_51a3,
    0xd192_e819,
    0xd699_0624,
    0xf40e_3585,
    0x106a_a070,
    0x19a4_c116,
    0x1e37_6c08,
    0x2748_774c,
    0x34b0_bcb5,
    0x391c_0cb3,
    0x4ed8_aa4a,
    0x5b9c_ca4f,
    0x682e_6ff3,
    0x748f_82ee,
    0x78a5_636f,
    0x84c8_7814,
    0x8cc7_0208,
    0x90be_fffa,
    0xa450_6ceb,
    0xbef9_a3f7,
    0xc671_78f2,
];

const INITIAL_HASH: State = State {
    a: 0x6a09_e667,
    b: 0xbb67_ae85,
    c: 0x3c6e_f372,
    d: 0xa54f_f53a,
    e: 0x510e_527f,
    f: 0x9b05_688c,
    g: 0x1f83_d9ab,
    h: 0x5be0_cd19,
};

// How many bytes a digest has.
pub const DIGEST_SIZE: usize = 32;

// How many bytes a block has, and how many words its schedule.
const BLOCK_SIZE: usize = 64;

const ROUNDS: usize = 64;

// The next word of a schedule, of those 2, 7, 15 and 16 places before it.
#[tactic(auto, unfolding(crate::specs::Digest::schedule_word))]
fn schedule_word(a: u32, b: u32, c: u32, d: u32) -> u32
    ensures { result ≡ schedule_word a b c d }
{
    small_sigma1(a)
        .wrapping_add(b)
        .wrapping_add(small_sigma0(c))
        .wrapping_add(d)
}

// Reads the sixteen words of a block.
fn load_words(block: &[u8; BLOCK_SIZE], w: &mut [u32; ROUNDS])
    ensures { w.new ≡ sets w.old 0 (block_words 16 block.now) }
{
    // By index: what a zip with `w.iter_mut()` writes is not known to a proof.
    for (t, bytes) in block.as_chunks().0.iter().enumerate() {
        w[t] = u32::from_be_bytes(*bytes);
    }
}

// Makes the other 48 words of a schedule.
fn extend_schedule(w: &mut [u32; ROUNDS])
    ensures { w.new ≡ extended 48 (take 16 w.old) }
{
    // By index: each word is made of four that stand at set distances before it.
    for t in 16..ROUNDS {
        w[t] = schedule_word(w[t - 2], w[t - 7], w[t - 15], w[t - 16]);
    }
}

// The working variables after a block's rounds.
fn all_rounds(s: State, w: &[u32; ROUNDS]) -> State
    ensures { result ≡ rounds s round_constants w.now }
{
    ROUND_CONSTANTS
        .iter()
        .zip(w)
        .fold(s, |v, (k, word)| round(v, *k, *word))
}

// The hash value after a block.
fn compress(s: State, block: &[u8; BLOCK_SIZE]) -> State
    ensures { result ≡ compressed s block.now }
{
    let mut w = [0u32; ROUNDS];
    load_words(block, &mut w);
    extend_schedule(&mut w);
    added(s, all_rounds(s, &w))
}

// The hash value after some blocks.
fn hash_blocks(s: State, blocks: &[[u8; BLOCK_SIZE]]) -> State
    ensures { result ≡ fold compressed s blocks.now }
{
    blocks.iter().fold(s, |v, block| compress(v, block))
}

// Writes the padding of a message of n bytes from `at` on, and says where it ends.
fn append_padding(out: &mut [u8], at: usize, n: usize) -> usize
    requires { at + (zero_bytes n + 9) ≤ length out.old }
    ensures { Appended out.old at (padding n) out.new result }
{
    let zeros = (119 - n % BLOCK_SIZE) % BLOCK_SIZE;
    out[at] = 128;
    octets::clear_at(out, at + 1, zeros);
    // The number of bits, of which the last 64 bits count.
    let bits = (n as u64).wrapping_mul(8);
    octets::append(out, at + 1 + zeros, &bits.to_be_bytes())
}

// The four bytes of a word.
fn word_bytes(x: u32) -> [u8; 4]
    ensures { result ≡ big_endian_bytes 4 x }
{
    x.to_be_bytes()
}

// The eight words as bytes.
fn state_bytes(s: State) -> [u8; DIGEST_SIZE]
    ensures { result ≡ state_bytes s }
{
    let words = [s.a, s.b, s.c, s.d, s.e, s.f, s.g, s.h];
    octets::bytes_at(words.map(word_bytes).as_flattened(), 0)
}

// The hash value after the last of a message of n bytes, with its padding.
fn hash_rest(s: State, rest: &[u8], n: usize) -> State
    requires { length rest.now ≡ n % 64 }
    ensures { result ≡ hashed_all s (rest.now ++ padding n) }
{
    let mut padded = [0u8; 2 * BLOCK_SIZE];
    let end = octets::append(&mut padded, 0, rest);
    let size = append_padding(&mut padded, end, n);
    let (blocks, _) = padded[..size].as_chunks();
    hash_blocks(s, blocks)
}

// The digest of a message.
pub fn digest(message: &[u8]) -> [u8; DIGEST_SIZE]
    ensures { result ≡ digest message.now }
{
    let (blocks, rest) = message.as_chunks();
    let s = hash_blocks(INITIAL_HASH, blocks);
    state_bytes(hash_rest(s, rest, message.len()))
}
