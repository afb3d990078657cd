// revocation_request: what a call to the revocation endpoint asks for, read from its arguments and the registry alone
// (RFC 7009, section 2.1).
//
// token_type_hint is a known name, so that it may not come twice; what it says is never looked at.
#![tactic(auto)]

ghost use Rattle.std.specs.Prelude.{◌≡◌, true};
ghost use Rattle.client_registry.specs.Registry.{clients_of, fit_registry};
ghost use Rattle.protocol.specs.Revocation.{read_revocation};

use client_forms::{NEEDED, presenting, refuse};
use parameters::Field;
use protocol::{Reading, Request, RevocationRequest};

// Where the token stands, in the order in which `read` lists the names. It must be there.
const TOKEN: usize = NEEDED;

// What a call asks for: the first refusal that needs no look at the store, or that its token be revoked.
pub fn read(registry: &[u8], header: &[u8], body: &[u8]) -> Reading
    requires { fit_registry registry.now ≡ true }
    ensures { result ≡ read_revocation (clients_of registry.now) header.now body.now }
{
    let names = b"client_id&client_secret&token&token_type_hint";
    match client_forms::read(registry, header, body, names) {
        Ok(form) => presenting(
            Request::Revocation(RevocationRequest {
                client: form.client.number,
            }),
            parameters::handle_presented(&Field {
                form: body,
                place: form.places[TOKEN],
            }),
        ),
        Err(word) => refuse(word),
    }
}
