// parameters: what the values of a request's parameters mean (RFC 6749, sections 3 and 4; RFC 7636): the client that they name,
// the scope that they ask for, the handle that they present, the state that is to be sent back, the code challenge that they give
// or answer.
//
// A value is asked of a `Field`: a form that is read, and the place of a name in it. The token store is not looked at.
#![tactic(auto)]

mod fields;

ghost use Rattle.std.specs.Prelude.{◌≡◌, true, ◌<◌, ◌≤◌, ◌^◌, length};
ghost use Rattle.std.specs.Fn.{FnOnceTakesAt, FnOnceReturnsAt};
ghost use Rattle.octets.specs.Lists.{every};
ghost use Rattle.encoding.specs.Hex.{read_handle};
ghost use Rattle.form_coding.specs.Coding.{decode};
ghost use Rattle.form.specs.Content.{only_value};
ghost use Rattle.client_registry.specs.Registry.{fit_registry};
ghost use Rattle.client_registry.specs.Lookup.{find_client};
ghost use Rattle.protocol.specs.Requests.{scope_asked, fits, scope_given};
ghost use Rattle.protocol.specs.Authorization.{is_sound_state, is_bad_state, challenge_given};
ghost use Rattle.protocol.specs.Token.{is_unreserved, is_sound_verifier, challenge_of, challenge_answered};
ghost use Rattle.parameters.specs.Fields.{said_by};

use client_registry::Entry;
use encoding::{Digest, Handle};
pub use fields::Field;
use protocol::ScopeAsked;
use protocol::limits::{LEAST_VERIFIER, MOST_FORM, MOST_STATE, MOST_VERIFIER};
use scope::Scope;

// What `read` makes of a coded text of up to N bytes, decoded.
#[tactic(auto, using(crate::proofs::Buffers::decoded))]
pub fn with_decoded<const N: usize, R, F: FnOnce(&[u8]) -> R>(coded: &[u8], read: F) -> R
    requires size { N < 2 ^ 63 }
    requires short { length coded.now ≤ N }
    requires takes { FnOnceTakesAt F.FnOnce read (decode coded.now) }
    ensures { FnOnceReturnsAt F.FnOnce read (decode coded.now) result }
{
    let mut buffer = [0u8; N];
    let n = form_coding::decode_into(coded, &mut buffer);
    read(&buffer[..n])
}

// What `read` makes of a value, decoded: it is empty where the name is missing or repeated.
pub fn with_value<R, F: FnOnce(&[u8]) -> R>(field: &Field<'_>, read: F) -> R
    requires { FnOnceTakesAt F.FnOnce read (only_value (said_by field.now)) }
    ensures { FnOnceReturnsAt F.FnOnce read (only_value (said_by field.now)) result }
{
    with_decoded::<MOST_FORM, _, _>(field.coded_value(), read)
}

// The client that a value names: none where the name is missing or repeated, since no id is empty.
pub fn client_named(registry: &[u8], field: &Field<'_>) -> Option<Entry>
    requires { fit_registry registry.now ≡ true }
    ensures { result ≡ find_client registry.now (only_value (said_by field.now)) }
{
    with_value(field, |id| client_registry::find(registry, id))
}

// The code or token that a value presents.
pub fn handle_presented(field: &Field<'_>) -> Option<Handle>
    ensures { result ≡ read_handle (only_value (said_by field.now)) }
{
    with_value(field, encoding::read_handle)
}

// ---- scope

// The scope that a value asks for.
#[tactic(auto, using(crate::proofs::Scopes::asked_steps), unfolding(protocol::specs::Requests::asked_by))]
pub fn scope_asked(field: &Field<'_>) -> ScopeAsked
    ensures { result ≡ scope_asked (said_by field.now) }
{
    if field.is_missing() {
        return ScopeAsked::Everything;
    }
    if field.is_repeated() {
        return ScopeAsked::Unreadable;
    }
    match with_value(field, scope::read) {
        Some(set) => ScopeAsked::Only(set.bits),
        None => ScopeAsked::Unreadable,
    }
}

// Whether the scope asked for is within a set: a value that is no scope never is.
#[tactic(auto, unfolding(protocol::specs::Requests::fits))]
pub fn scope_fits(asked: ScopeAsked, held: u8) -> bool
    ensures { result ≡ fits asked held }
{
    match asked {
        ScopeAsked::Everything => true,
        ScopeAsked::Only(bits) => Scope::from_byte(bits).within(Scope::from_byte(held)),
        ScopeAsked::Unreadable => false,
    }
}

// The scope that is given of a set: all of it where none is asked for.
#[tactic(auto, unfolding(protocol::specs::Requests::scope_given))]
pub fn scope_given(asked: ScopeAsked, held: u8) -> u8
    ensures { result ≡ scope_given asked held }
{
    match asked {
        ScopeAsked::Everything => held,
        ScopeAsked::Only(bits) => bits,
        ScopeAsked::Unreadable => held,
    }
}

// ---- state

// Whether a state may be sent back: not too long, and of printable characters and spaces alone.
#[tactic(auto, unfolding(protocol::specs::Authorization::is_sound_state))]
pub fn is_sound_state(state: &[u8]) -> bool
    ensures { result ≡ is_sound_state state.now }
{
    (state.len() <= MOST_STATE) & octets::all_in_class(state, 0x20, 0x7e, 0)
}

// Whether the state was repeated or may not be sent back. One that is missing is no fault.
#[tactic(auto, using(crate::proofs::States::bad_state))]
pub fn is_bad_state(field: &Field<'_>) -> bool
    ensures { result ≡ is_bad_state (said_by field.now) }
{
    field.is_repeated() | !with_value(field, is_sound_state)
}

// ---- code challenges

// The challenge that a value gives: none where it is missing, repeated or no digest.
#[tactic(auto, using(crate::proofs::Challenges::given_read))]
pub fn challenge_given(field: &Field<'_>) -> Option<Digest>
    ensures { result ≡ challenge_given (said_by field.now) }
{
    with_value(field, encoding::read_digest)
}

// Whether a verifier may have the byte: letters, digits and - . _ ~
// Not one with the bytes that a form keeps, which differ in the last: each is the list of its own RFC.
fn is_unreserved(c: u8) -> bool
    ensures { result ≡ is_unreserved c }
{
    (b'0' <= c) & (c <= b'9')
        | (b'A' <= c) & (c <= b'Z')
        | (b'a' <= c) & (c <= b'z')
        | (c == b'-')
        | (c == b'.')
        | (c == b'_')
        | (c == b'~')
}

// Whether a text may be a code verifier.
#[tactic(auto, unfolding(protocol::specs::Token::is_sound_verifier))]
fn is_sound_verifier(text: &[u8]) -> bool
    ensures { result ≡ is_sound_verifier text.now }
{
    (LEAST_VERIFIER <= text.len())
        & (text.len() <= MOST_VERIFIER)
        & octets::all(text, is_unreserved)
}

// The challenge that a verifier answers, its digest: none where it may be no verifier.
fn challenge_of(verifier: &[u8]) -> Option<Digest>
    ensures { result ≡ challenge_of verifier.now }
{
    if !is_sound_verifier(verifier) {
        return None;
    }
    Some(sha256::digest(verifier))
}

// The challenge that a value answers as a verifier: none where it is missing or repeated.
#[tactic(auto, using(crate::proofs::Challenges::answered_by))]
pub fn challenge_answered(field: &Field<'_>) -> Option<Digest>
    ensures { result ≡ challenge_answered (said_by field.now) }
{
    with_value(field, challenge_of)
}
