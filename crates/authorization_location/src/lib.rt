// authorization_location: the location that the user is sent back to (RFC 6749, sections 4.1.2 and 4.1.2.1).
//
// A location is the redirect address, a parameter and the state, each written behind the one before. The most that each
// takes is in specs/Rooms.antt: together less than the output that a call must bring.
#![tactic(auto)]

ghost use Rattle.std.specs.Prelude.{◌++◌, ◌+◌, ◌<◌, ◌≤◌, ◌≡◌, length};
ghost use Rattle.octets.specs.Writing.{Appended};
ghost use Rattle.form.specs.Content.{once};
ghost use Rattle.token_store.specs.Layout.{handle_size};
ghost use Rattle.protocol.specs.Authorization.{separator, state_text, code_parameter, error_parameter, location, location_text};
ghost use Rattle.parameters.specs.Fields.{said_by};
ghost use Rattle.authorization_location.specs.Rooms.{parameter_room, state_room, told_parameter, Tellable, Writable};

use parameters::Field;
use protocol::limits::MOST_FORM;
use protocol::{Decision, ErrorWord, Refusal};

// Writes the redirect address at the front, and what parts it from the parameters: it may have some of its own.
fn write_redirect(output: &mut [u8], redirect: &[u8]) -> usize
    requires { length redirect.now < length output.old }
    ensures { Appended output.old 0 (redirect.now ++ separator redirect.now) output.new result }
{
    let end = octets::append(output, 0, redirect);
    let between = if redirect.contains(&b'?') { b"&" } else { b"?" };
    octets::append(output, end, between)
}

// Writes the code that was granted from `at` on, and says where it ends.
#[tactic(auto, unfolding(protocol::specs::Authorization::code_parameter))]
fn append_code(output: &mut [u8], at: usize, handle: &[u8]) -> usize
    requires { (length handle.now ≡ handle_size) × (at + parameter_room ≤ length output.old) }
    ensures { Appended output.old at (code_parameter handle.now) output.new result }
{
    let next = octets::append(output, at, b"code=");
    encoding::append_hex(output, next, handle)
}

// Writes the error word of a refusal from `at` on, and says where it ends.
#[tactic(auto, unfolding(protocol::specs::Authorization::error_parameter))]
fn append_error(output: &mut [u8], at: usize, word: ErrorWord) -> usize
    requires { at + parameter_room ≤ length output.old }
    ensures { Appended output.old at (error_parameter word) output.new result }
{
    let next = octets::append(output, at, b"error=");
    error_words::append_word(output, next, word)
}

// Writes a state as a form writes it from `at` on, and says where it ends: nothing unless it is sound.
fn append_sound(output: &mut [u8], at: usize, value: &[u8]) -> usize
    requires { at + state_room ≤ length output.old }
    ensures { Appended output.old at (state_text (once value.now)) output.new result }
{
    if !parameters::is_sound_state(value) {
        return at;
    }
    let next = octets::append(output, at, b"&state=");
    form_coding::append_value(output, next, value)
}

// Writes the query's state as a form writes it, and says where it ends: nothing unless it came once and sound.
fn append_state(output: &mut [u8], at: usize, state: &Field<'_>) -> usize
    requires { at + state_room ≤ length output.old }
    ensures { Appended output.old at (state_text (said_by state.now)) output.new result }
{
    if state.is_missing() | state.is_repeated() {
        return at;
    }
    // Not by parameters::with_value, of which no proof learns what the closure wrote to the output.
    let mut buffer = [0u8; MOST_FORM];
    let n = form::value_into(state.form, state.place, &mut buffer);
    append_sound(output, at, &buffer[..n])
}

// Writes what the client is told from `at` on, the code that was granted or the error word, and says where it ends.
fn append_told(output: &mut [u8], at: usize, told: Result<&[u8], ErrorWord>) -> usize
    requires { Tellable told × (at + parameter_room ≤ length output.old) }
    ensures { Appended output.old at (told_parameter told.entry) output.new result }
{
    match told {
        Ok(handle) => append_code(output, at, handle),
        Err(word) => append_error(output, at, word),
    }
}

// Writes the location that tells the client of a code or an error word, and gives its length.
fn write_told(
    output: &mut [u8],
    redirect: &[u8],
    told: Result<&[u8], ErrorWord>,
    state: &Field<'_>,
) -> usize
    requires { Writable output.old redirect.now × Tellable told }
    ensures { Appended output.old 0
        (location redirect.now (told_parameter told.entry) (said_by state.now))
        output.new result }
{
    let at = write_redirect(output, redirect);
    let next = append_told(output, at, told);
    append_state(output, next, state)
}

// Writes the location for a decision, and gives its length: nothing where the user is sent nowhere.
#[tactic(auto, unfolding(protocol::specs::Authorization::location_text))]
pub fn write_location(
    output: &mut [u8],
    redirect: &[u8],
    decision: Decision,
    handle: &[u8],
    state: &Field<'_>,
) -> usize
    requires { Writable output.old redirect.now × (length handle.now ≡ handle_size) }
    ensures { Appended output.old 0
        (location_text redirect.now (said_by state.now) handle.now decision)
        output.new result }
{
    match decision {
        Ok(()) => write_told(output, redirect, Ok(handle), state),
        Err(Refusal::Redirect(word)) => write_told(output, redirect, Err(word), state),
        Err(_) => 0,
    }
}
