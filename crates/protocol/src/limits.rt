// The sizes of what a call brings, as specs/Limits.antt has them: no other file of src/ has one of these numbers.

use encoding::HANDLE_SIZE;

// The most bytes of a query or a body that is read, and of a header.
pub const MOST_FORM: usize = 4096;

pub const MOST_HEADER: usize = 512;

// The most bytes of a state that is sent back.
pub const MOST_STATE: usize = 200;

// The fewest and the most characters of a code verifier.
pub const LEAST_VERIFIER: usize = 43;

pub const MOST_VERIFIER: usize = 128;

// The least output that a call must bring: no location and no reply is longer.
pub const LEAST_OUTPUT: usize = 1024;

// The random bytes of an authorization request, one handle, and of a token request, two.
pub const CODE_RANDOM: usize = HANDLE_SIZE;

pub const TOKEN_RANDOM: usize = 2 * HANDLE_SIZE;
