// token_check: whether an access token is live, and what it stands for (document 01's gate).
//
// It is asked for each reading that an app fetches, so it is the hot path: the fitness of registry and store, one
// look-up, and the store's time.
#![tactic(auto)]

ghost use Rattle.std.specs.Prelude.{◌≡◌, true, []};
ghost use Rattle.token_store.specs.Store.{decode, is_live};
ghost use Rattle.protocol.specs.Granting.{live_token, check_slots};
ghost use Rattle.protocol.specs.Outcomes.{check_outcome};

use encoding::Handle;
use protocol::{CheckAnswer, LiveToken};
use token_store::{Slot, Sought, StoreBytes};

// What a live token stands for, and how many seconds it has left at t.
fn live_token(token: Slot, t: u64) -> LiveToken
    requires { is_live t token ≡ true }
    ensures { result ≡ live_token t token }
{
    LiveToken {
        client: token.client,
        farm: token.farm,
        scope: token.scope,
        left: token.expiry - t,
    }
}

// What the store says of the access token presented, at the time t.
fn look_up(store: &StoreBytes, t: u64, presented: Option<Handle>) -> CheckAnswer
    ensures { result ≡ check_slots t (decode store.now).slots presented }
{
    let Some(i) = token_store::find(store, Sought::Access, presented) else {
        return CheckAnswer::NotLive;
    };
    let token = token_store::slot_at(store, i);
    if !token.is_live(t) {
        return CheckAnswer::NotLive;
    }
    CheckAnswer::Live(live_token(token, t))
}

// Checks an access token. Whatever it answers past a refusal, the store keeps the time of the call.
pub fn check(token: &[u8], registry: &[u8], store: &mut [u8], clock: u64) -> CheckAnswer
    ensures { record { answer = result; output = []; store = store.new }
        ≡ check_outcome token.now registry.now store.old clock }
{
    match admission::enter(false, registry, store, clock) {
        Ok(t) => look_up(store.as_array().unwrap(), t, encoding::read_handle(token)),
        Err(refusal) => CheckAnswer::Refused(refusal),
    }
}
