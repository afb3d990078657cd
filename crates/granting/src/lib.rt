// granting: what the store grants to a request that is read and admitted, and what that leaves in its slots.
//
// A grant decides first and changes the store only once nothing is left to refuse: a request that is refused spends
// nothing. One refusal changes the store: a code that is shown again withdraws the tokens that came from it. A revocation
// that is granted issues nothing: it takes a token out of the store. Time is the call's time t, and never a clock.
#![tactic(auto)]

ghost use Rattle.std.specs.Prelude.{◌≡◌, [], ◌+◌, ◌<◌, ◌≤◌, length, set};
ghost use Rattle.token_store.specs.Layout.{slot_count, latest_time};
ghost use Rattle.token_store.specs.Store.{decode, with_slots, spent_code, code_kind, kind_last, lifetime_of};
ghost use Rattle.protocol.specs.Limits.{code_random, token_random};
ghost use Rattle.protocol.specs.Granting.{new_code, token_on, client_token, is_unverified, refused_slots, any_taken, single_plan, access_plan, code_plan, exchange_plan, refresh_plan, credentials_plan, revocation_plan, plan_of};
ghost use Rattle.granting.specs.Granted.{Follows, random_needed, own_at, spent_on, freed_at};

use encoding::{Digest, Handle};
use protocol::{
    CodeRequest, CredentialsRequest, ErrorWord, ExchangeRequest, Failure, NO_FARM, Reading,
    RefreshRequest, Refusal, Request, RevocationRequest,
};
use token_store::layout::{
    HANDLE_SIZE, KIND_ACCESS, KIND_BOUND_CHALLENGED_CODE, KIND_BOUND_CODE, KIND_CHALLENGED_CODE,
    KIND_CODE, KIND_REFRESH, KIND_SPENT, LINK_SIZE,
};
use token_store::{Slot, Sought, StoreBytes};

// The time of a call, which no clock moves back. Its range leaves room for the lifetime of what is issued then.
#[derive(Clone, Copy)]
pub struct Time {
    pub seconds: u64,
    ghost in_range: { seconds ≤ latest_time },
}

// What is issued on a request: its scope, and whether a refresh token comes with it.
#[derive(Clone, Copy)]
pub struct Issued {
    pub scope: u8,
    pub refresh: bool,
}

// A revocation that is granted issues nothing.
const NOTHING: Issued = Issued {
    scope: 0,
    refresh: false,
};

// ---- what is issued

// When what is issued at t runs out: its kind says how long it lives.
fn expiry_at(t: Time, kind: u8) -> u64
    requires { kind ≤ kind_last }
    ensures { result ≡ t.seconds + lifetime_of kind }
{
    t.seconds + token_store::lifetime(kind)
}

// The kind of a code, by whether it is bound to its redirect address and whether it has a challenge.
fn code_kind(bound: bool, challenged: bool) -> u8
    ensures { result ≡ code_kind bound challenged }
{
    match (bound, challenged) {
        (false, false) => KIND_CODE,
        (true, false) => KIND_BOUND_CODE,
        (false, true) => KIND_CHALLENGED_CODE,
        (true, true) => KIND_BOUND_CHALLENGED_CODE,
    }
}

// The code that is issued on a request with a challenge, or without one.
fn new_code(t: Time, handle: Handle, challenge: Option<Digest>, request: CodeRequest) -> Slot
    ensures { result ≡ new_code t.seconds handle challenge request }
{
    let kind = code_kind(request.bound, challenge.is_some());
    Slot {
        kind,
        handle,
        client: request.client,
        farm: request.farm,
        scope: request.scope,
        expiry: expiry_at(t, kind),
        link: challenge.unwrap_or([0u8; LINK_SIZE]),
    }
}

// The token that is issued on the code or refresh token `shown`, from the code of the handle `origin`: client and farm
// are those of `shown`.
fn token_on(shown: Slot, origin: Handle, t: Time, kind: u8, handle: Handle, scope: u8) -> Slot
    requires { kind ≤ kind_last }
    ensures { result ≡ token_on shown origin t.seconds kind handle scope }
{
    Slot {
        kind,
        handle,
        scope,
        expiry: expiry_at(t, kind),
        link: token_store::link_to(origin),
        ..shown
    }
}

// The access token that is issued to a client for itself: no owner allowed a farm, and it came from no code but itself.
fn client_token(t: Time, handle: Handle, credentials: CredentialsRequest) -> Slot
    ensures { result ≡ client_token t.seconds handle credentials }
{
    Slot {
        kind: KIND_ACCESS,
        handle,
        client: credentials.client,
        farm: NO_FARM,
        scope: credentials.scope,
        expiry: expiry_at(t, KIND_ACCESS),
        link: token_store::link_to(handle),
    }
}

// ---- what is looked at

// The slot of the code or refresh token presented, where it is live at t and the client's own.
fn find_own(
    store: &StoreBytes,
    t: Time,
    sought: Sought,
    presented: Option<Handle>,
    client: u8,
) -> Option<usize>
    ensures { result ≡ own_at t.seconds client sought presented (decode store.now).slots }
{
    let i = token_store::find(store, sought, presented)?;
    let slot = token_store::slot_at(store, i);
    if slot.is_live(t.seconds) & (slot.client == client) {
        Some(i)
    } else {
        None
    }
}

// Whether a code has a challenge that is not the one answered. All of its bytes are looked at, wherever the two differ.
fn is_unverified(answered: Option<Digest>, code: Slot) -> bool
    ensures { result ≡ is_unverified answered code }
{
    let digest = answered.unwrap_or([0u8; LINK_SIZE]);
    let equal = octets::equal(&digest, &code.link);
    code.is_challenged() & !(answered.is_some() & equal)
}

// Whether one of two handles is in use, or they are equal.
fn any_clash(store: &StoreBytes, first: &[u8], second: &[u8]) -> bool
    ensures { result ≡ any_taken first.now second.now (decode store.now).slots }
{
    let one = token_store::clashes(store, first);
    let other = token_store::clashes(store, second);
    one | other | octets::equal(first, second)
}

// ---- grants

// Issues one code or token, unless there is no slot for it or its handle is in use.
fn grant_single(
    store: &mut StoreBytes,
    t: Time,
    new: Slot,
    full: Refusal,
    clash: Refusal,
) -> Result<Issued, Refusal>
    ensures { let before = decode store.old in
        Follows (single_plan t.seconds before.slots full clash new) before result (decode store.new) }
{
    if !token_store::has_room(store, t.seconds, 1) {
        return Err(full);
    }
    if token_store::clashes(store, &new.handle) {
        return Err(clash);
    }
    token_store::issue(store, t.seconds, new);
    Ok(Issued {
        scope: new.scope,
        refresh: false,
    })
}

// Issues one access token.
fn grant_access(store: &mut StoreBytes, t: Time, token: Slot) -> Result<Issued, Refusal>
    ensures { let before = decode store.old in
        Follows (access_plan t.seconds before.slots token) before result (decode store.new) }
{
    grant_single(
        store,
        t,
        token,
        Refusal::Failed(Failure::NoRoom),
        Refusal::Failed(Failure::Clash),
    )
}

// Issues a code.
fn grant_code(
    store: &mut StoreBytes,
    t: Time,
    random: &[u8],
    challenge: Option<Digest>,
    request: CodeRequest,
) -> Result<Issued, Refusal>
    requires { code_random ≤ length random.now }
    ensures { let before = decode store.old in
        Follows (code_plan t.seconds before.slots random.now challenge request) before result (decode store.new) }
{
    let handle = octets::bytes_at(random, 0);
    grant_single(
        store,
        t,
        new_code(t, handle, challenge, request),
        Refusal::Redirect(ErrorWord::TemporarilyUnavailable),
        Refusal::Redirect(ErrorWord::ServerError),
    )
}

// Withdraws the tokens that came from the code presented, if it is a spent one of the client's that is still live. Another
// code that has its handle, run out or not, comes before it.
fn withdraw_shown_again(store: &mut StoreBytes, t: Time, presented: Option<Handle>, client: u8)
    ensures { let before = decode store.old in
        decode store.new ≡ with_slots before (refused_slots t.seconds client presented before.slots) }
{
    if token_store::find(store, Sought::Code, presented).is_some() {
        return;
    }
    if find_own(store, t, Sought::Spent, presented, client).is_none() {
        return;
    }
    if let Some(handle) = presented {
        token_store::clear_tokens(store, Sought::Token, &handle);
    }
}

// Keeps a code as spent, then issues an access and a refresh token on it.
fn spend(store: &mut StoreBytes, t: Time, i: usize, code: Slot, first: Handle, second: Handle)
    requires { i < slot_count }
    ensures { let before = decode store.old in
        decode store.new ≡ with_slots before (spent_on t.seconds first second code (set before.slots i (spent_code code))) }
{
    let origin = code.handle;
    let scope = code.scope;
    let spent = Slot {
        kind: KIND_SPENT,
        link: [0u8; LINK_SIZE],
        ..code
    };
    token_store::put(store, i, spent);
    token_store::issue(
        store,
        t.seconds,
        token_on(code, origin, t, KIND_ACCESS, first, scope),
    );
    token_store::issue(
        store,
        t.seconds,
        token_on(code, origin, t, KIND_REFRESH, second, scope),
    );
}

// Exchanges the code presented for an access and a refresh token. A challenge that it has must be the one answered.
// Here and below random is a slice: a request says how many bytes it needs (random_needed), and a plan is of the whole slice.
fn grant_exchange(
    store: &mut StoreBytes,
    t: Time,
    random: &[u8],
    presented: Option<Handle>,
    answered: Option<Digest>,
    request: ExchangeRequest,
) -> Result<Issued, Refusal>
    requires { token_random ≤ length random.now }
    ensures { let before = decode store.old in
        Follows (exchange_plan t.seconds before.slots random.now presented answered request) before result (decode store.new) }
{
    let Some(i) = find_own(store, t, Sought::Code, presented, request.client) else {
        withdraw_shown_again(store, t, presented, request.client);
        return Err(Refusal::Token(ErrorWord::InvalidGrant));
    };
    let code = token_store::slot_at(store, i);
    if code.is_bound_code() & !request.again {
        return Err(Refusal::Token(ErrorWord::InvalidGrant));
    }
    if is_unverified(answered, code) {
        return Err(Refusal::Token(ErrorWord::InvalidGrant));
    }
    if !token_store::has_room(store, t.seconds, 2) {
        return Err(Refusal::Failed(Failure::NoRoom));
    }
    let first = octets::bytes_at(random, 0);
    let second = octets::bytes_at(random, HANDLE_SIZE);
    if any_clash(store, &first, &second) {
        return Err(Refusal::Failed(Failure::Clash));
    }
    spend(store, t, i, code, first, second);
    Ok(Issued {
        scope: code.scope,
        refresh: true,
    })
}

// Issues an access token on the refresh token presented, which stays. Of the random bytes the first handle is looked at.
fn grant_refresh(
    store: &mut StoreBytes,
    t: Time,
    random: &[u8],
    presented: Option<Handle>,
    request: RefreshRequest,
) -> Result<Issued, Refusal>
    requires { token_random ≤ length random.now }
    ensures { let before = decode store.old in
        Follows (refresh_plan t.seconds before.slots random.now presented request) before result (decode store.new) }
{
    let Some(i) = find_own(store, t, Sought::Refresh, presented, request.client) else {
        return Err(Refusal::Token(ErrorWord::InvalidGrant));
    };
    let token = token_store::slot_at(store, i);
    let asked = request.scope;
    if !parameters::scope_fits(asked, token.scope) {
        return Err(Refusal::Token(ErrorWord::InvalidScope));
    }
    let scope = parameters::scope_given(asked, token.scope);
    let handle = octets::bytes_at(random, 0);
    let origin = token.origin();
    let access = token_on(token, origin, t, KIND_ACCESS, handle, scope);
    grant_access(store, t, access)
}

// Issues an access token to a client for itself. Of the random bytes the first handle is looked at.
fn grant_credentials(
    store: &mut StoreBytes,
    t: Time,
    random: &[u8],
    request: CredentialsRequest,
) -> Result<Issued, Refusal>
    requires { token_random ≤ length random.now }
    ensures { let before = decode store.old in
        Follows (credentials_plan t.seconds before.slots random.now request) before result (decode store.new) }
{
    let handle = octets::bytes_at(random, 0);
    grant_access(store, t, client_token(t, handle, request))
}

// Frees slot i with the token that is in it; with a refresh token the access tokens that came from the same code too.
fn free_token(store: &mut StoreBytes, i: usize, token: Slot)
    requires { i < slot_count }
    ensures { let before = decode store.old in
        decode store.new ≡ with_slots before (freed_at i token before.slots) }
{
    token_store::clear(store, i);
    if token.kind == KIND_REFRESH {
        let origin = token.origin();
        token_store::clear_tokens(store, Sought::Access, &origin);
    }
}

// Revokes the token presented. One that is not there or has run out needs nothing; another client's is refused. No random
// bytes are looked at.
fn revoke(
    store: &mut StoreBytes,
    t: Time,
    presented: Option<Handle>,
    request: RevocationRequest,
) -> Result<Issued, Refusal>
    ensures { let before = decode store.old in
        Follows (revocation_plan t.seconds before.slots [] presented request) before result (decode store.new) }
{
    let Some(i) = token_store::find(store, Sought::Token, presented) else {
        return Ok(NOTHING);
    };
    let token = token_store::slot_at(store, i);
    if !token.is_live(t.seconds) {
        return Ok(NOTHING);
    }
    if token.client != request.client {
        return Err(Refusal::Token(ErrorWord::InvalidGrant));
    }
    free_token(store, i, token);
    Ok(NOTHING)
}

// Grants what a call asks, or refuses it. A call that was refused as it was read stays so.
pub fn grant(
    store: &mut StoreBytes,
    t: Time,
    random: &[u8],
    reading: Reading,
) -> Result<Issued, Refusal>
    requires { random_needed reading.request ≤ length random.now }
    ensures { let before = decode store.old in
        Follows (plan_of t.seconds before.slots random.now reading) before result (decode store.new) }
{
    let request = reading.request;
    let presented = reading.presented;
    let challenge = reading.challenge;
    match request {
        Request::Refused(refusal) => Err(refusal),
        Request::Code(code) => grant_code(store, t, random, challenge, code),
        Request::Exchange(exchange) => grant_exchange(
            store, t, random, presented, challenge, exchange,
        ),
        Request::Refresh(refresh) => grant_refresh(store, t, random, presented, refresh),
        Request::Credentials(credentials) => grant_credentials(store, t, random, credentials),
        Request::Revocation(revocation) => revoke(store, t, presented, revocation),
    }
}
