// authorization_endpoint: a client's user asks for a code (RFC 6749, section 4.1).
//
// The query is read first, without a look at the store; then a code is granted or refused on the store; then the
// location is written. Every call that is let in stores its time, whatever it answers.
#![tactic(auto)]

ghost use Rattle.std.specs.Prelude.{◌≡◌, ◌≤◌, length};
ghost use Rattle.client_registry.specs.Registry.{clients_of};
ghost use Rattle.token_store.specs.Store.{decode};
ghost use Rattle.protocol.specs.Limits.{least_output, code_random};
ghost use Rattle.protocol.specs.Outcomes.{serve_authorization, authorization_outcome};
ghost use Rattle.admission.specs.Entering.{Ready, Serves};
ghost use Rattle.granting.specs.Granted.{random_needed};
ghost use Rattle.authorization_query.specs.Reading.{Known};
ghost use Rattle.authorization_endpoint.specs.Locations.{reading_with, answered};

use authorization_query::ClientQuery;
use parameters::Field;
use protocol::limits::CODE_RANDOM;
use protocol::{AuthorizationAnswer, Reading, Refusal};

// Answers the query of a known client: the location leads to its registered address.
fn answer(
    asking: ClientQuery,
    query: &[u8],
    registry: &[u8],
    store: &mut [u8],
    t: u64,
    random: &[u8],
    output: &mut [u8],
) -> AuthorizationAnswer
    requires { Ready registry.now store.old t × Known registry.now query.now asking
        × (random_needed asking.request ≤ code_random) × (length random.now ≡ code_random) × (least_output ≤ length output.old) }
    ensures { Serves
        (answered (clients_of registry.now) query.now (reading_with query.now asking.request) t
        (decode store.old).slots random.now)
        (decode store.old) (decode store.new) output.old output.new result }
{
    let challenge = Field {
        form: query,
        place: asking.challenge,
    };
    let state = Field {
        form: query,
        place: asking.state,
    };
    let reading = Reading {
        request: asking.request,
        presented: None,
        challenge: parameters::challenge_given(&challenge),
    };
    let time = granting::Time { seconds: t };
    let decision = granting::grant(store.as_mut_array().unwrap(), time, random, reading).map(
        |_| (),
    );
    let redirect = client_registry::redirect(registry, asking.client);
    let length = authorization_location::write_location(output, redirect, decision, random, &state);
    AuthorizationAnswer { decision, length }
}

// Serves a call that is let in, at its time t.
fn serve(
    query: &[u8],
    decision: u64,
    farm: u32,
    registry: &[u8],
    store: &mut [u8],
    t: u64,
    random: &[u8],
    output: &mut [u8],
) -> AuthorizationAnswer
    requires { Ready registry.now store.old t × (length random.now ≡ code_random) × (least_output ≤ length output.old) }
    ensures { Serves
        (serve_authorization query.now decision farm (clients_of registry.now) t
        (decode store.old).slots random.now)
        (decode store.old) (decode store.new) output.old output.new result }
{
    match authorization_query::read_query(query, decision, farm, registry) {
        Err(cause) => AuthorizationAnswer {
            decision: Err(Refusal::ErrorPage(cause)),
            length: 0,
        },
        Ok(asking) => answer(asking, query, registry, store, t, random, output),
    }
}

// Answers an authorization request. `decision` is the user's: 1 allows a code for this farm, any other number denies it.
pub fn authorize(
    query: &[u8],
    decision: u64,
    farm: u32,
    registry: &[u8],
    store: &mut [u8],
    clock: u64,
    random: &[u8],
    output: &mut [u8],
) -> AuthorizationAnswer
    ensures { record { answer = result; output = output.new; store = store.new }
        ≡ authorization_outcome query.now decision farm registry.now store.old
        (record { clock = clock; random = random.now; output = output.old }) }
{
    let unfit = admission::unfit_buffers(CODE_RANDOM, random, output);
    match admission::enter(unfit, registry, store, clock) {
        Err(refusal) => AuthorizationAnswer {
            decision: Err(refusal),
            length: 0,
        },
        Ok(t) => serve(query, decision, farm, registry, store, t, random, output),
    }
}
