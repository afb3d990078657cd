// revocation_endpoint: a client says that it needs a token no more (RFC 7009).
//
// A call is let in, its request is read, the token is taken out of the store, and the reply, which is empty unless it is a
// refusal, is written. Nothing is issued, so that no random bytes come with a call.
#![tactic(auto)]

ghost use Rattle.std.specs.Prelude.{◌≡◌, [], ◌≤◌, length};
ghost use Rattle.octets.specs.Writing.{Appended};
ghost use Rattle.client_registry.specs.Registry.{clients_of};
ghost use Rattle.token_store.specs.Store.{decode};
ghost use Rattle.protocol.specs.Limits.{least_output};
ghost use Rattle.protocol.specs.Revocation.{revocation_reply};
ghost use Rattle.protocol.specs.Outcomes.{serve_revocation, revocation_outcome};
ghost use Rattle.admission.specs.Entering.{Ready, Serves};

use protocol::{Decision, TokenAnswer};

// Writes the reply to a decision, and gives its length.
#[tactic(auto, unfolding(protocol::specs::Revocation::revocation_reply))]
fn write_reply(output: &mut [u8], decision: Decision) -> usize
    requires { least_output ≤ length output.old }
    ensures { Appended output.old 0 (revocation_reply decision) output.new result }
{
    match decision {
        Ok(()) => 0,
        Err(refusal) => token_reply::write_refusal(output, refusal),
    }
}

// Serves a call that is let in, at its time t.
fn serve(
    header: &[u8],
    body: &[u8],
    registry: &[u8],
    store: &mut [u8],
    t: u64,
    output: &mut [u8],
) -> TokenAnswer
    requires { Ready registry.now store.old t × (least_output ≤ length output.old) }
    ensures { Serves
        (serve_revocation header.now body.now (clients_of registry.now) t
        (decode store.old).slots [])
        (decode store.old) (decode store.new) output.old output.new result }
{
    let reading = revocation_request::read(registry, header, body);
    let time = granting::Time { seconds: t };
    let decision = granting::grant(store.as_mut_array().unwrap(), time, b"", reading).map(|_| ());
    let length = write_reply(output, decision);
    token_reply::answer(decision, header, length)
}

// Answers a revocation request. `header` is the Authorization field's value, empty where none came.
pub fn revoke(
    header: &[u8],
    body: &[u8],
    registry: &[u8],
    store: &mut [u8],
    clock: u64,
    output: &mut [u8],
) -> TokenAnswer
    ensures { record { answer = result; output = output.new; store = store.new }
        ≡ revocation_outcome header.now body.now registry.now store.old clock
        output.old }
{
    let unfit = admission::unfit_output(output);
    match admission::enter(unfit, registry, store, clock) {
        Ok(t) => serve(header, body, registry, store, t, output),
        Err(refusal) => token_reply::unfit(refusal),
    }
}
