// protocol: what calls ask and what they are answered as types, and what the whole server must do as definitions (specs/).
//
// The definitions say, from raw bytes and numbers alone, what each endpoint answers, writes to the output and leaves
// in the token store, for every input. The endpoints' crates are proved against them.
#![tactic(auto)]

use encoding::{Digest, Handle};

pub mod limits;

// ---- refusals

// The error words of RFC 6749 that this server says.
#[derive(Clone, Copy)]
pub enum ErrorWord {
    InvalidRequest,
    InvalidClient,
    InvalidGrant,
    InvalidScope,
    UnsupportedGrantType,
    UnsupportedResponseType,
    AccessDenied,
    TemporarilyUnavailable,
    ServerError,
    UnauthorizedClient,
}

// What a call is handed and may be unfit. A call with such an input changes nothing at all.
#[derive(Clone, Copy)]
pub enum Input {
    Buffers,
    Registry,
    Store,
    Clock,
}

// Why the user is shown an error page: nothing can be sent to a redirect address.
#[derive(Clone, Copy)]
pub enum PageCause {
    Query,
    Client,
    RedirectUri,
}

// Why a sound token request fails all the same: no room in the store, or a handle that is in use.
#[derive(Clone, Copy)]
pub enum Failure {
    NoRoom,
    Clash,
}

// Why a call is refused. A redirect and a token refusal carry their error word.
#[derive(Clone, Copy)]
pub enum Refusal {
    Unfit(Input),
    ErrorPage(PageCause),
    Redirect(ErrorWord),
    Token(ErrorWord),
    Failed(Failure),
}

// ---- requests: what a call asks of the store, once its arguments are read. `client` is the client's number.

// The scope that a request asks for: none, so all that may be had; a set; or a value that is no scope.
#[derive(Clone, Copy)]
pub enum ScopeAsked {
    Everything,
    Only(u8),
    Unreadable,
}

// A code for a farm and a scope. `bound` says that redirect_uri was given, so that it must be repeated.
#[derive(Clone, Copy)]
pub struct CodeRequest {
    pub client: u8,
    pub farm: u32,
    pub scope: u8,
    pub bound: bool,
}

// Tokens for the code presented. `again` says that redirect_uri came, equal to the registered one.
#[derive(Clone, Copy)]
pub struct ExchangeRequest {
    pub client: u8,
    pub again: bool,
}

// An access token on the refresh token presented.
#[derive(Clone, Copy)]
pub struct RefreshRequest {
    pub client: u8,
    pub scope: ScopeAsked,
}

// The farm of a token that a client has for itself: no owner allowed it, and none may.
// A number and no Option: a slot's bytes and the reply over C carry farm 0.
pub const NO_FARM: u32 = 0;

// An access token for the client itself, on its credentials alone.
#[derive(Clone, Copy)]
pub struct CredentialsRequest {
    pub client: u8,
    pub scope: u8,
}

// That the token presented, access or refresh, be good no more (RFC 7009).
#[derive(Clone, Copy)]
pub struct RevocationRequest {
    pub client: u8,
}

// What is asked, or the refusal that came before the store was looked at.
#[derive(Clone, Copy)]
pub enum Request {
    Refused(Refusal),
    Code(CodeRequest),
    Exchange(ExchangeRequest),
    Refresh(RefreshRequest),
    Credentials(CredentialsRequest),
    Revocation(RevocationRequest),
}

// A call as it was read: its request; the handle of the code or token that it presents, if it is one; and the code challenge
// (RFC 7636), if there is one, that a code is asked for with, or that an exchange answers by its verifier.
#[derive(Clone, Copy)]
pub struct Reading {
    pub request: Request,
    pub presented: Option<Handle>,
    pub challenge: Option<Digest>,
}

// ---- answers

// Whether a call was granted: a code at the authorization endpoint, tokens at the token endpoint; or a revocation done.
pub type Decision = Result<(), Refusal>;

// What the authorization endpoint answers: the decision, and how many bytes of location it wrote.
#[derive(Clone, Copy)]
pub struct AuthorizationAnswer {
    pub decision: Decision,
    pub length: usize,
}

// What the token and the revocation endpoint answer: the decision, whether to send a WWW-Authenticate challenge, and how many bytes of
// reply it wrote.
#[derive(Clone, Copy)]
pub struct TokenAnswer {
    pub decision: Decision,
    pub challenge: bool,
    pub length: usize,
}

// What a live access token stands for, and how many seconds it has left.
#[derive(Clone, Copy)]
pub struct LiveToken {
    pub client: u8,
    pub farm: u32,
    pub scope: u8,
    pub left: u64,
}

// What the access token check answers. Not live is an answer and no refusal.
#[derive(Clone, Copy)]
pub enum CheckAnswer {
    Refused(Refusal),
    NotLive,
    Live(LiveToken),
}
