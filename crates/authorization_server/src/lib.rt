// authorization_server: the four endpoints as a C host calls them. Numbers and byte slices in, numbers and bytes out.
//
// No function here asks anything of its caller: unfit buffers, registry, store and clock get refusals 1 to 4. No length that is
// answered is more than the output's.
// include/poplarchime.h declares what is exported.
#![tactic(auto)]

mod numbers;

ghost use Rattle.std.specs.Prelude.{◌≡◌, [], ◌≤◌, length};
ghost use Rattle.protocol.specs.Outcomes.{authorization_outcome, token_outcome, revocation_outcome, check_outcome};
ghost use Rattle.authorization_server.specs.Numbers.{authorization_reply, token_reply, check_reply, in_numbers};

// What the authorization endpoint answers, in numbers. `refusal` is 0 or 1 to 7, `error` the number of an error word or 0,
// `length` how many bytes of location were written.
#[repr(C)]
#[derive(Clone, Copy)]
pub struct AuthorizationReply {
    pub refusal: u32,
    pub error: u32,
    pub length: usize,
}

// What the token and the revocation endpoint answer, in numbers. `refusal` is 0 or 1 to 4, `status` the HTTP status, `error` the number of an
// error word or 0, `challenge` whether to send WWW-Authenticate, `length` how many bytes of reply were written.
#[repr(C)]
#[derive(Clone, Copy)]
pub struct TokenReply {
    pub refusal: u32,
    pub status: u32,
    pub error: u32,
    pub challenge: u32,
    pub length: usize,
}

// What the access token check answers, in numbers. `refusal` is 0 or 2 to 4; `live` is 1 or 0; the rest is 0 unless it is 1.
#[repr(C)]
#[derive(Clone, Copy, Default)]
pub struct CheckReply {
    pub refusal: u32,
    pub live: u32,
    pub client: u32,
    pub farm: u32,
    pub scope: u32,
    pub secondsleft: u64,
}

// The authorization endpoint: a query, the owner's decision (1 allows the farm, any other number denies), 20 random bytes.
pub fn poplarchime_authorize(
    query: &[u8],
    decision: u64,
    farm: u32,
    registry: &[u8],
    store: &mut [u8],
    clock: u64,
    random: &[u8],
    output: &mut [u8],
) -> AuthorizationReply
    ensures store_after { record { answer = result; output = output.new; store = store.new }
        ≡ in_numbers authorization_reply
        (authorization_outcome query.now decision farm registry.now store.old
        (record { clock = clock; random = random.now; output = output.old })) }
    ensures length_in_bounds { result.length ≤ length output.old }
{
    AuthorizationReply::from(authorization_endpoint::authorize(
        query, decision, farm, registry, store, clock, random, output,
    ))
}

// The token endpoint: the Authorization field's value, empty when there is none; a body; 40 random bytes.
pub fn poplarchime_token(
    header: &[u8],
    body: &[u8],
    registry: &[u8],
    store: &mut [u8],
    clock: u64,
    random: &[u8],
    output: &mut [u8],
) -> TokenReply
    ensures store_after { record { answer = result; output = output.new; store = store.new }
        ≡ in_numbers token_reply
        (token_outcome header.now body.now registry.now store.old
        (record { clock = clock; random = random.now; output = output.old })) }
    ensures length_in_bounds { result.length ≤ length output.old }
{
    TokenReply::from(token_endpoint::token(header, body, registry, store, clock, random, output))
}

// The revocation endpoint: the Authorization field's value, empty when there is none, and a body. No random bytes.
pub fn poplarchime_revoke(
    header: &[u8],
    body: &[u8],
    registry: &[u8],
    store: &mut [u8],
    clock: u64,
    output: &mut [u8],
) -> TokenReply
    ensures store_after { record { answer = result; output = output.new; store = store.new }
        ≡ in_numbers token_reply
        (revocation_outcome header.now body.now registry.now store.old clock
        output.old) }
    ensures length_in_bounds { result.length ≤ length output.old }
{
    TokenReply::from(revocation_endpoint::revoke(header, body, registry, store, clock, output))
}

// The access token check: a bare access token.
pub fn poplarchime_check(token: &[u8], registry: &[u8], store: &mut [u8], clock: u64) -> CheckReply
    ensures { record { answer = result; output = []; store = store.new }
        ≡ in_numbers check_reply (check_outcome token.now registry.now store.old clock) }
{
    CheckReply::from(token_check::check(token, registry, store, clock))
}
