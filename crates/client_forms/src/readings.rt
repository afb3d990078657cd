// Readings that answer no challenge: of a request that presents a token or nothing, and of one that is refused.
ghost use Rattle.std.specs.Prelude.{◌≡◌, None};
ghost use Rattle.protocol.specs.Requests.{presenting_none, refused_reading};

use encoding::Handle;
use protocol::{ErrorWord, Reading, Refusal, Request};

// A request that presents a token, and answers no challenge.
pub fn presenting(request: Request, presented: Option<Handle>) -> Reading
    ensures { result ≡ record { request = request; presented = presented; challenge = None } }
{
    Reading {
        request,
        presented,
        challenge: None,
    }
}

// A request that presents no code or token.
pub fn presenting_none(request: Request) -> Reading
    ensures { result ≡ presenting_none request }
{
    presenting(request, None)
}

// A call that is refused with an error word.
pub fn refuse(word: ErrorWord) -> Reading
    ensures { result ≡ refused_reading (Refusal.Token word) }
{
    presenting_none(Request::Refused(Refusal::Token(word)))
}
