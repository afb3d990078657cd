// The numbers of each case of an answer: include/poplarchime.h says them to a C host, so they stay. Functions and no `From`: the
// enums are another crate's, and each has several numbers.
ghost use Rattle.std.specs.Prelude.{◌≡◌};
ghost use Rattle.protocol.specs.Answers.{input_number, page_number, refusal_number, error_number, failure_status, refusal_status, status_of};
ghost use Rattle.authorization_server.specs.Numbers.{decision_number, decision_error, authorization_reply, token_reply, live_reply, check_reply};

use crate::{AuthorizationReply, CheckReply, TokenReply};
use protocol::{
    AuthorizationAnswer, CheckAnswer, Decision, Failure, Input, LiveToken, PageCause, Refusal,
    TokenAnswer,
};

fn input_number(i: Input) -> u32
    ensures { result ≡ input_number i }
{
    match i {
        Input::Buffers => 1,
        Input::Registry => 2,
        Input::Store => 3,
        Input::Clock => 4,
    }
}

fn page_number(p: PageCause) -> u32
    ensures { result ≡ page_number p }
{
    match p {
        PageCause::Query => 5,
        PageCause::Client => 6,
        PageCause::RedirectUri => 7,
    }
}

fn failure_status(f: Failure) -> u32
    ensures { result ≡ failure_status f }
{
    match f {
        Failure::NoRoom => 503,
        Failure::Clash => 500,
    }
}

fn refusal_number(x: Refusal) -> u32
    ensures { result ≡ refusal_number x }
{
    match x {
        Refusal::Unfit(i) => input_number(i),
        Refusal::ErrorPage(p) => page_number(p),
        _ => 0,
    }
}

fn error_number(x: Refusal) -> u32
    ensures { result ≡ error_number x }
{
    match x {
        Refusal::Redirect(w) | Refusal::Token(w) => error_words::number(w),
        _ => 0,
    }
}

fn refusal_status(x: Refusal) -> u32
    ensures { result ≡ refusal_status x }
{
    match x {
        Refusal::Token(w) => error_words::status(w),
        Refusal::Failed(f) => failure_status(f),
        _ => 0,
    }
}

fn decision_number(d: Decision) -> u32
    ensures { result ≡ decision_number d }
{
    match d {
        Ok(()) => 0,
        Err(x) => refusal_number(x),
    }
}

fn decision_error(d: Decision) -> u32
    ensures { result ≡ decision_error d }
{
    match d {
        Ok(()) => 0,
        Err(x) => error_number(x),
    }
}

fn status_of(d: Decision) -> u32
    ensures { result ≡ status_of d }
{
    match d {
        Ok(()) => 200,
        Err(x) => refusal_status(x),
    }
}

impl From<AuthorizationAnswer> for AuthorizationReply {
    ghost from_gives = { λ a r. r ≡ authorization_reply a };

    fn from(a: AuthorizationAnswer) -> Self {
        let decision = a.decision;
        AuthorizationReply {
            refusal: decision_number(decision),
            error: decision_error(decision),
            length: a.length,
        }
    }
}

impl From<TokenAnswer> for TokenReply {
    ghost from_gives = { λ a r. r ≡ token_reply a };

    fn from(a: TokenAnswer) -> Self {
        let decision = a.decision;
        TokenReply {
            refusal: decision_number(decision),
            status: status_of(decision),
            error: decision_error(decision),
            challenge: u32::from(a.challenge),
            length: a.length,
        }
    }
}

impl From<LiveToken> for CheckReply {
    ghost from_gives = { λ l r. r ≡ live_reply l };

    fn from(l: LiveToken) -> Self {
        CheckReply {
            refusal: 0,
            live: 1,
            client: u32::from(l.client),
            farm: l.farm,
            scope: u32::from(l.scope),
            secondsleft: l.left,
        }
    }
}

impl From<CheckAnswer> for CheckReply {
    ghost from_gives = { λ a r. r ≡ check_reply a };

    fn from(a: CheckAnswer) -> Self {
        match a {
            CheckAnswer::Refused(x) => CheckReply {
                refusal: refusal_number(x),
                ..CheckReply::default()
            },
            CheckAnswer::NotLive => CheckReply::default(),
            CheckAnswer::Live(l) => CheckReply::from(l),
        }
    }
}
