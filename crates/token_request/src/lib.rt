// token_request: what a call to the token endpoint asks for, read from its arguments and the registry alone
// (RFC 6749, sections 4.1.3, 4.4.2 and 6; RFC 7636, section 4.5).
#![tactic(auto)]

ghost use Rattle.std.specs.Prelude.{◌≡◌, true, ◌<◌, [], get_or};
ghost use Rattle.client_registry.specs.Registry.{clients_of, fit_registry};
ghost use Rattle.protocol.specs.Token.{token_names, read_exchange, read_refresh, read_credentials, read_grant, read_token};
ghost use Rattle.parameters.specs.Fields.{IsField};
ghost use Rattle.client_forms.specs.Forms.{LetIn};

use client_forms::{ClientForm, NEEDED, presenting, presenting_none, refuse};
use parameters::Field;
use protocol::{CredentialsRequest, ErrorWord, ExchangeRequest, Reading, RefreshRequest, Request};

// The places of the names, in the order in which `read` lists them. The one that must be there is the grant type.
const GRANT_TYPE: usize = NEEDED;

const CODE: usize = 3;

const REDIRECT_URI: usize = 4;

const REFRESH_TOKEN: usize = 5;

const SCOPE: usize = 6;

const CODE_VERIFIER: usize = 7;

// The form of a client that is let in.
#[derive(Clone, Copy)]
struct TokenForm<'r, 'b> {
    registry: &'r [u8],
    body: &'b [u8],
    form: ClientForm,
    ghost let_in: { LetIn token_names registry.now body.now form.places form.client },
}

impl TokenForm<'_, '_> {
    // A known name of the form.
    fn field(&self, name: usize) -> Field<'_>
        requires { name < 8 }
        ensures { IsField self.now.body.now (get_or token_names name []) result }
    {
        Field {
            form: self.body,
            place: self.form.places[name],
        }
    }

    // A request to exchange a code. Its scope is not looked at.
    #[tactic(auto, unfolding(protocol::specs::Token::read_exchange, protocol::specs::Refusals::first_of, protocol::specs::Requests::unless_refused))]
    fn read_exchange(&self) -> Reading
        ensures { result ≡ read_exchange (clients_of self.now.registry.now) self.now.form.client.number self.now.body.now }
    {
        let code = self.field(CODE);
        if code.is_missing() {
            return refuse(ErrorWord::InvalidRequest);
        }
        let redirect = client_registry::redirect(self.registry, self.form.client);
        Reading {
            request: Request::Exchange(ExchangeRequest {
                client: self.form.client.number,
                again: self.field(REDIRECT_URI).is_once(redirect),
            }),
            presented: parameters::handle_presented(&code),
            challenge: parameters::challenge_answered(&self.field(CODE_VERIFIER)),
        }
    }

    // A request for an access token on a refresh token. Its verifier is not looked at.
    #[tactic(auto, unfolding(protocol::specs::Token::read_refresh, protocol::specs::Refusals::first_of, protocol::specs::Requests::unless_refused))]
    fn read_refresh(&self) -> Reading
        ensures { result ≡ read_refresh self.now.form.client.number self.now.body.now }
    {
        let token = self.field(REFRESH_TOKEN);
        if token.is_missing() {
            return refuse(ErrorWord::InvalidRequest);
        }
        let request = Request::Refresh(RefreshRequest {
            client: self.form.client.number,
            scope: parameters::scope_asked(&self.field(SCOPE)),
        });
        presenting(request, parameters::handle_presented(&token))
    }

    // A request for an access token for the client itself: a confidential one, and a scope within its set.
    #[tactic(auto, unfolding(protocol::specs::Token::read_credentials, protocol::specs::Authorization::is_invalid_scope, protocol::specs::Refusals::first_of, protocol::specs::Requests::unless_refused))]
    fn read_credentials(&self) -> Reading
        ensures { result ≡ read_credentials (clients_of self.now.registry.now) self.now.form.client.number self.now.body.now }
    {
        if !client_registry::is_confidential(self.registry, self.form.client) {
            return refuse(ErrorWord::UnauthorizedClient);
        }
        let asked = parameters::scope_asked(&self.field(SCOPE));
        let held = client_registry::scope_set(self.registry, self.form.client);
        if !parameters::scope_fits(asked, held) {
            return refuse(ErrorWord::InvalidScope);
        }
        presenting_none(Request::Credentials(CredentialsRequest {
            client: self.form.client.number,
            scope: parameters::scope_given(asked, held),
        }))
    }

    // The request, by its grant type.
    #[tactic(auto, unfolding(protocol::specs::Token::read_grant))]
    fn read(&self) -> Reading
        ensures { result ≡ read_grant (clients_of self.now.registry.now) self.now.form.client.number self.now.body.now }
    {
        let grant = self.field(GRANT_TYPE);
        if grant.is_once(b"authorization_code") {
            return self.read_exchange();
        }
        if grant.is_once(b"refresh_token") {
            return self.read_refresh();
        }
        if grant.is_once(b"client_credentials") {
            return self.read_credentials();
        }
        refuse(ErrorWord::UnsupportedGrantType)
    }
}

// What a call asks for: the first refusal that needs no look at the store, or a request.
pub fn read(registry: &[u8], header: &[u8], body: &[u8]) -> Reading
    requires { fit_registry registry.now ≡ true }
    ensures { result ≡ read_token (clients_of registry.now) header.now body.now }
{
    let names =
        b"client_id&client_secret&grant_type&code&redirect_uri&refresh_token&scope&code_verifier";
    match client_forms::read(registry, header, body, names) {
        Ok(form) => TokenForm {
            registry,
            body,
            form,
        }
        .read(),
        Err(word) => refuse(word),
    }
}
