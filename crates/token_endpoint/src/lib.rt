// token_endpoint: tokens for a code or on a refresh token (RFC 6749, section 3.2).
//
// A call is let in, its request is read, what the store grants to it is done, and the reply is written. Reading never
// looks at the store.
#![tactic(auto)]

ghost use Rattle.std.specs.Prelude.{◌≡◌, ◌≤◌, length};
ghost use Rattle.octets.specs.Writing.{Appended};
ghost use Rattle.client_registry.specs.Registry.{clients_of};
ghost use Rattle.token_store.specs.Store.{decode};
ghost use Rattle.protocol.specs.Limits.{least_output, token_random};
ghost use Rattle.protocol.specs.Outcomes.{serve_token, token_outcome};
ghost use Rattle.admission.specs.Entering.{Ready, Serves};
ghost use Rattle.token_endpoint.specs.Replies.{reply_to};

use granting::{Issued, Time};
use protocol::limits::TOKEN_RANDOM;
use protocol::{Refusal, TokenAnswer};

// Writes the reply to what was granted, and gives its length.
#[tactic(auto, unfolding(crate::specs::Replies::reply_to))]
fn write_reply(output: &mut [u8], random: &[u8], granted: Result<Issued, Refusal>) -> usize
    requires { (least_output ≤ length output.old) × (length random.now ≡ token_random) }
    ensures { Appended output.old 0 (reply_to random.now granted) output.new result }
{
    match granted {
        Ok(issued) => token_reply::write_tokens(output, random, issued.refresh, issued.scope),
        Err(refusal) => token_reply::write_refusal(output, refusal),
    }
}

// Serves a call that is let in, at its time t.
fn serve(
    header: &[u8],
    body: &[u8],
    registry: &[u8],
    store: &mut [u8],
    t: u64,
    random: &[u8],
    output: &mut [u8],
) -> TokenAnswer
    requires { Ready registry.now store.old t × (length random.now ≡ token_random) × (least_output ≤ length output.old) }
    ensures { Serves
        (serve_token header.now body.now (clients_of registry.now) t
        (decode store.old).slots random.now)
        (decode store.old) (decode store.new) output.old output.new result }
{
    let reading = token_request::read(registry, header, body);
    let time = Time { seconds: t };
    let granted = granting::grant(store.as_mut_array().unwrap(), time, random, reading);
    let length = write_reply(output, random, granted);
    token_reply::answer(granted.map(|_| ()), header, length)
}

// Answers a token request. `header` is the Authorization field's value, empty where none came.
pub fn token(
    header: &[u8],
    body: &[u8],
    registry: &[u8],
    store: &mut [u8],
    clock: u64,
    random: &[u8],
    output: &mut [u8],
) -> TokenAnswer
    ensures { record { answer = result; output = output.new; store = store.new }
        ≡ token_outcome header.now body.now registry.now store.old
        (record { clock = clock; random = random.now; output = output.old }) }
{
    let unfit = admission::unfit_buffers(TOKEN_RANDOM, random, output);
    match admission::enter(unfit, registry, store, clock) {
        Ok(t) => serve(header, body, registry, store, t, random, output),
        Err(refusal) => token_reply::unfit(refusal),
    }
}
