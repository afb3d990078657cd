// admission: a call's way in. Refusals 1 to 4, which change nothing at all, and the time of a call that is past them.
#![tactic(auto)]

ghost use Rattle.std.specs.Prelude.{◌≡◌};
ghost use Rattle.protocol.specs.Outcomes.{unfit_output, unfit_buffers, admit};
ghost use Rattle.admission.specs.Entering.{Entered};

use protocol::limits::LEAST_OUTPUT;
use protocol::{Decision, Input, Refusal};

// Whether a call brings too little output.
pub fn unfit_output(output: &[u8]) -> bool
    ensures { result ≡ unfit_output output.now }
{
    output.len() < LEAST_OUTPUT
}

// Whether a call brings too little output, or other than so many random bytes.
pub fn unfit_buffers(size: usize, random: &[u8], output: &[u8]) -> bool
    ensures { result ≡ unfit_buffers size random.now output.now }
{
    unfit_output(output) | (random.len() != size)
}

// The first of refusals 1 to 4 that applies, or a grant to go on. `unfit` says that the buffers are.
fn admit(unfit: bool, registry: &[u8], store: &[u8], clock: u64) -> Decision
    ensures { result ≡ admit unfit registry.now store.now clock }
{
    if unfit {
        return Err(Refusal::Unfit(Input::Buffers));
    }
    let clients = client_registry::fitness_of(registry).ok_or(Refusal::Unfit(Input::Registry))?;
    if !token_store::fit(store, clients) {
        return Err(Refusal::Unfit(Input::Store));
    }
    let late = token_store::layout::LATEST_TIME < clock;
    if late {
        return Err(Refusal::Unfit(Input::Clock));
    }
    Ok(())
}

// Lets a call in, stores its time T, the larger of the clock and the store's time, and answers it.
pub fn enter(unfit: bool, registry: &[u8], store: &mut [u8], clock: u64) -> Result<u64, Refusal>
    ensures { Entered unfit registry.now store.old clock store.new result }
{
    admit(unfit, registry, store, clock)?;
    let store = store.as_mut_array().unwrap();
    let t = token_store::call_time(store, clock);
    token_store::set_time(store, t);
    Ok(t)
}
