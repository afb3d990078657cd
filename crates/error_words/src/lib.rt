// error_words: the error words of RFC 6749 as both endpoints write them, with their numbers and their HTTP statuses.
#![tactic(auto)]

ghost use Rattle.std.specs.Prelude.{◌≡◌, ◌+◌, ◌≤◌, length};
ghost use Rattle.octets.specs.Writing.{Appended};
ghost use Rattle.protocol.specs.Answers.{word_text, word_number, word_status};

use protocol::ErrorWord;

// The bytes of the longest word.
pub const LONGEST: usize = 25;

// What there is to know of a word: its HTTP status and its text.
#[derive(Clone, Copy)]
struct Row(u32, &'static [u8]);

// The table, in the order of the words' numbers.
const WORDS: [Row; 10] = [
    Row(400, b"invalid_request"),
    Row(401, b"invalid_client"),
    Row(400, b"invalid_grant"),
    Row(400, b"invalid_scope"),
    Row(400, b"unsupported_grant_type"),
    Row(400, b"unsupported_response_type"),
    Row(400, b"access_denied"),
    Row(400, b"temporarily_unavailable"),
    Row(400, b"server_error"),
    Row(400, b"unauthorized_client"),
];

// The number of a word over C, counted from 1. A match and no cast: C keeps its numbers whatever the order of the cases.
pub fn number(word: ErrorWord) -> u32
    ensures { result ≡ word_number word }
{
    match word {
        ErrorWord::InvalidRequest => 1,
        ErrorWord::InvalidClient => 2,
        ErrorWord::InvalidGrant => 3,
        ErrorWord::InvalidScope => 4,
        ErrorWord::UnsupportedGrantType => 5,
        ErrorWord::UnsupportedResponseType => 6,
        ErrorWord::AccessDenied => 7,
        ErrorWord::TemporarilyUnavailable => 8,
        ErrorWord::ServerError => 9,
        ErrorWord::UnauthorizedClient => 10,
    }
}

// The word's row of the table.
#[tactic(auto, unfolding(protocol::specs::Answers::word_text))]
fn row_of(word: ErrorWord) -> Row
    ensures status { result.0 ≡ word_status word }
    ensures text { result.1.now ≡ word_text word }
{
    WORDS[number(word) as usize - 1]
}

// The HTTP status that the token endpoint answers a word with.
pub fn status(word: ErrorWord) -> u32
    ensures { result ≡ word_status word }
{
    row_of(word).0
}

// Writes a word from `at` on, and says where it ends. The longest takes `LONGEST` bytes.
pub fn append_word(out: &mut [u8], at: usize, word: ErrorWord) -> usize
    requires { at + 25 ≤ length out.old }
    ensures { Appended out.old at (word_text word) out.new result }
{
    octets::append(out, at, row_of(word).1)
}
