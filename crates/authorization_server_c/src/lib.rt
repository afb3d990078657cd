// authorization_server_c: the four endpoints of authorization_server under the names by which a C host links them. Each calls
// the function of the same name, and promises what that promises.
//
// include/poplarchime.h declares what is exported.
#![tactic(auto)]

ghost use Rattle.std.specs.Prelude.{◌≡◌, [], ◌≤◌, length};
ghost use Rattle.protocol.specs.Outcomes.{authorization_outcome, token_outcome, revocation_outcome, check_outcome};
ghost use Rattle.authorization_server.specs.Numbers.{authorization_reply, token_reply, check_reply, in_numbers};

use authorization_server::{AuthorizationReply, CheckReply, TokenReply};

// The authorization endpoint: a query, the owner's decision (1 allows the farm, any other number denies), 20 random bytes.
#[unsafe(no_mangle)]
pub extern "C" fn poplarchime_authorize(
    query: &[u8],
    decision: u64,
    farm: u32,
    registry: &[u8],
    store: &mut [u8],
    clock: u64,
    random: &[u8],
    output: &mut [u8],
) -> AuthorizationReply
    ensures store_after { record { answer = result; output = output.new; store = store.new }
        ≡ in_numbers authorization_reply
        (authorization_outcome query.now decision farm registry.now store.old
        (record { clock = clock; random = random.now; output = output.old })) }
    ensures length_in_bounds { result.length ≤ length output.old }
{
    authorization_server::poplarchime_authorize(
        query, decision, farm, registry, store, clock, random, output,
    )
}

// The token endpoint: the Authorization field's value, empty when there is none; a body; 40 random bytes.
#[unsafe(no_mangle)]
pub extern "C" fn poplarchime_token(
    header: &[u8],
    body: &[u8],
    registry: &[u8],
    store: &mut [u8],
    clock: u64,
    random: &[u8],
    output: &mut [u8],
) -> TokenReply
    ensures store_after { record { answer = result; output = output.new; store = store.new }
        ≡ in_numbers token_reply
        (token_outcome header.now body.now registry.now store.old
        (record { clock = clock; random = random.now; output = output.old })) }
    ensures length_in_bounds { result.length ≤ length output.old }
{
    authorization_server::poplarchime_token(header, body, registry, store, clock, random, output)
}

// The revocation endpoint: the Authorization field's value, empty when there is none, and a body. No random bytes.
#[unsafe(no_mangle)]
pub extern "C" fn poplarchime_revoke(
    header: &[u8],
    body: &[u8],
    registry: &[u8],
    store: &mut [u8],
    clock: u64,
    output: &mut [u8],
) -> TokenReply
    ensures store_after { record { answer = result; output = output.new; store = store.new }
        ≡ in_numbers token_reply
        (revocation_outcome header.now body.now registry.now store.old clock
        output.old) }
    ensures length_in_bounds { result.length ≤ length output.old }
{
    authorization_server::poplarchime_revoke(header, body, registry, store, clock, output)
}

// The access token check: a bare access token.
#[unsafe(no_mangle)]
pub extern "C" fn poplarchime_check(
    token: &[u8],
    registry: &[u8],
    store: &mut [u8],
    clock: u64,
) -> CheckReply
    ensures { record { answer = result; output = []; store = store.new }
        ≡ in_numbers check_reply (check_outcome token.now registry.now store.old clock) }
{
    authorization_server::poplarchime_check(token, registry, store, clock)
}
