// authorization_query: how the query of an authorization request is read (RFC 6749, section 4.1.1; RFC 7636, section 4.3). The
// token store is not looked at.
//
// A query is refused with an error page until its client and redirect address are known to be good. Only then is there
// a `ClientQuery`, and with it an address to send the user to: the registered one, never one from the query.
#![tactic(auto)]

ghost use Rattle.std.specs.Prelude.{◌≡◌, ◌≤◌, true, length};
ghost use Rattle.form.specs.Places.{Stands};
ghost use Rattle.client_registry.specs.Registry.{clients_of, fit_registry};
ghost use Rattle.protocol.specs.Limits.{most_form};
ghost use Rattle.protocol.specs.Authorization.{is_bad_redirect, is_bad_challenge, is_invalid_request, is_denied};
ghost use Rattle.authorization_query.specs.Reading.{known_names, challenge_in, method_in, client_named, IsRead, Named, request_for, asked_of, FindsNames, Reads};

use client_registry::Entry;
use form::{PLACES, Place};
use parameters::Field;
use protocol::limits::MOST_FORM;
use protocol::{CodeRequest, ErrorWord, NO_FARM, PageCause, Refusal, Request};

// The known names of a query.
#[derive(Clone, Copy)]
struct Names<'a> {
    response_type: Field<'a>,
    client_id: Field<'a>,
    redirect_uri: Field<'a>,
    scope: Field<'a>,
    state: Field<'a>,
    code_challenge: Field<'a>,
    code_challenge_method: Field<'a>,
}

// The query of a known client, whose redirect address may be used: the client, where the state and the code challenge stand in
// the query, and what is asked, which may be a refusal that the client is told.
#[derive(Clone, Copy)]
pub struct ClientQuery {
    pub client: Entry,
    // Places and no fields: the contract of the endpoint is over the query, which it has in hand.
    pub state: Place,
    pub challenge: Place,
    pub request: Request,
}

// A query that is being read: it is well formed, and names a client of the registry.
#[derive(Clone, Copy)]
struct Asking<'a> {
    query: &'a [u8],
    names: Names<'a>,
    registry: &'a [u8],
    client: Entry,
    ghost read: { IsRead query.now names },
    ghost fit: { fit_registry registry.now ≡ true },
    ghost named: { Named registry.now query.now client },
}

impl Asking<'_> {
    // Whether a redirect address came that is not the registered one.
    fn is_bad_redirect(&self) -> bool
        ensures { let a = self.now in result ≡ is_bad_redirect (client_named (clients_of a.registry.now) a.query.now) a.query.now }
    {
        let redirect = self.names.redirect_uri;
        let registered = client_registry::redirect(self.registry, self.client);
        !redirect.is_missing() & !redirect.is_once(registered)
    }

    // Whether the code challenge is at fault: it is no digest or does not go with the method S256; or there is none, and yet a
    // method, or the client is public and must send one.
    fn is_bad_challenge(&self) -> bool
        ensures { let a = self.now in
            result ≡ is_bad_challenge (client_named (clients_of a.registry.now) a.query.now) (challenge_in a.query.now) (method_in a.query.now) }
    {
        let challenge = self.names.code_challenge;
        let method = self.names.code_challenge_method;
        if challenge.is_missing() {
            return !method.is_missing()
                | !client_registry::is_confidential(self.registry, self.client);
        }
        let given = parameters::challenge_given(&challenge);
        !method.is_once(b"S256") | given.is_none()
    }

    // Whether response_type is missing, it, scope or state is repeated, the state is none that is sent back, or the code challenge
    // is at fault.
    fn is_invalid_request(&self) -> bool
        ensures { let a = self.now in result ≡ is_invalid_request (client_named (clients_of a.registry.now) a.query.now) a.query.now }
    {
        self.names.response_type.is_missing()
            | self.names.response_type.is_repeated()
            | self.names.scope.is_repeated()
            | parameters::is_bad_state(&self.names.state)
            | self.is_bad_challenge()
    }

    // The code that is asked for, or the word for what is wrong.
    fn ask(&self, decision: u64, farm: u32) -> Result<CodeRequest, ErrorWord>
        ensures { let a = self.now in request_for result ≡ asked_of (clients_of a.registry.now) a.query.now decision farm }
    {
        if self.is_invalid_request() {
            return Err(ErrorWord::InvalidRequest);
        }
        if !self.names.response_type.is_once(b"code") {
            return Err(ErrorWord::UnsupportedResponseType);
        }
        let asked = parameters::scope_asked(&self.names.scope);
        let held = client_registry::scope_set(self.registry, self.client);
        if !parameters::scope_fits(asked, held) {
            return Err(ErrorWord::InvalidScope);
        }
        if is_denied(decision, farm) {
            return Err(ErrorWord::AccessDenied);
        }
        Ok(CodeRequest {
            client: self.client.number,
            farm,
            scope: parameters::scope_given(asked, held),
            bound: !self.names.redirect_uri.is_missing(),
        })
    }

    // What is granted or told to the client: the request for a code, or the refusal.
    fn request(&self, decision: u64, farm: u32) -> Request
        ensures { let a = self.now in result ≡ asked_of (clients_of a.registry.now) a.query.now decision farm }
    {
        match self.ask(decision, farm) {
            Ok(code) => Request::Code(code),
            Err(word) => Request::Refused(Refusal::Redirect(word)),
        }
    }
}

// Whether the owner denies: the decision 1 allows, any other denies, and so does one for a farm that is no owner's.
fn is_denied(decision: u64, farm: u32) -> bool
    ensures { result ≡ is_denied decision farm }
{
    (decision != 1) | (farm == NO_FARM)
}

// The known names of a query that was read, at their places.
fn names_at(query: &[u8], places: [Place; PLACES]) -> Names<'_>
    requires { (length query.now ≤ most_form) × Stands known_names query.now places }
    ensures { IsRead query.now result }
{
    let [
        response_type,
        client_id,
        redirect_uri,
        scope,
        state,
        code_challenge,
        code_challenge_method,
        _,
    ] = places;
    Names {
        response_type: Field {
            form: query,
            place: response_type,
        },
        client_id: Field {
            form: query,
            place: client_id,
        },
        redirect_uri: Field {
            form: query,
            place: redirect_uri,
        },
        scope: Field {
            form: query,
            place: scope,
        },
        state: Field {
            form: query,
            place: state,
        },
        code_challenge: Field {
            form: query,
            place: code_challenge,
        },
        code_challenge_method: Field {
            form: query,
            place: code_challenge_method,
        },
    }
}

// Finds the known names in a query, unless it is too long or malformed.
fn find_names(query: &[u8]) -> Result<Names<'_>, PageCause>
    ensures { FindsNames query.now result }
{
    let long = MOST_FORM < query.len();
    if long {
        return Err(PageCause::Query);
    }
    let places = form::read(
        query,
        b"response_type&client_id&redirect_uri&scope&state&code_challenge&code_challenge_method",
    )
    .ok_or(PageCause::Query)?;
    Ok(names_at(query, places))
}

// Reads a query.
pub fn read_query(
    query: &[u8],
    decision: u64,
    farm: u32,
    registry: &[u8],
) -> Result<ClientQuery, PageCause>
    requires { fit_registry registry.now ≡ true }
    ensures { Reads registry.now query.now decision farm result }
{
    let names = find_names(query)?;
    let named = parameters::client_named(registry, &names.client_id);
    let client = named.ok_or(PageCause::Client)?;
    if names.redirect_uri.is_repeated() {
        return Err(PageCause::Client);
    }
    let asking = Asking {
        query,
        names,
        registry,
        client,
    };
    if asking.is_bad_redirect() {
        return Err(PageCause::RedirectUri);
    }
    Ok(ClientQuery {
        client,
        state: names.state.place,
        challenge: names.code_challenge.place,
        request: asking.request(decision, farm),
    })
}
