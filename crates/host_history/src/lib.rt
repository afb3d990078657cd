// host_history: demand 3 over the exports, as a C host sees them (specs/, proofs/).
//
// Each function here does no more than call an export. Its contract says that the call is one that demand 3 speaks of, by the types
// of its arguments, and that what the export leaves is what comes of it at the server `exports` (specs/Exports.antt): so the claim
// about that server is one about the exports.
#![tactic(auto)]

ghost use Rattle.std.specs.Prelude.{[]};
ghost use Rattle.history.specs.Calls.{authorization as authorization_call, token as token_call, revocation as revocation_call, check as check_call};
ghost use Rattle.host_history.specs.Exports.{authorization_seen, token_seen, check_seen, Leaves};

use authorization_server::{AuthorizationReply, CheckReply, TokenReply};

fn authorize(
    query: &[u8],
    decision: u64,
    farm: u32,
    registry: &[u8],
    store: &mut [u8],
    clock: u64,
    random: &[u8],
    output: &mut [u8],
) -> AuthorizationReply
    ensures { Leaves registry.now store.old
        (authorization_call query.now decision farm
        (record { clock = clock; random = random.now; output = output.old }))
        (authorization_seen (record { answer = result; output = output.new; store = store.new })) }
{
    authorization_server::poplarchime_authorize(
        query, decision, farm, registry, store, clock, random, output,
    )
}

fn token(
    header: &[u8],
    body: &[u8],
    registry: &[u8],
    store: &mut [u8],
    clock: u64,
    random: &[u8],
    output: &mut [u8],
) -> TokenReply
    ensures { Leaves registry.now store.old
        (token_call header.now body.now
        (record { clock = clock; random = random.now; output = output.old }))
        (token_seen (record { answer = result; output = output.new; store = store.new })) }
{
    authorization_server::poplarchime_token(header, body, registry, store, clock, random, output)
}

fn revoke(
    header: &[u8],
    body: &[u8],
    registry: &[u8],
    store: &mut [u8],
    clock: u64,
    output: &mut [u8],
) -> TokenReply
    ensures { Leaves registry.now store.old
        (revocation_call header.now body.now clock output.old)
        (token_seen (record { answer = result; output = output.new; store = store.new })) }
{
    authorization_server::poplarchime_revoke(header, body, registry, store, clock, output)
}

fn check(token: &[u8], registry: &[u8], store: &mut [u8], clock: u64) -> CheckReply
    ensures { Leaves registry.now store.old (check_call token.now clock)
        (check_seen (record { answer = result; output = []; store = store.new })) }
{
    authorization_server::poplarchime_check(token, registry, store, clock)
}
