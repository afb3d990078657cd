// token_store: the codes and tokens that were issued, and the latest time seen, in bytes that the caller lends.
//
// `fit` answers whether bytes are a store; every other function of a store takes `StoreBytes`, whose type says their number. Contracts
// speak of the decoded store, whose slots are numbered from 0: no caller looks at a byte.
#![tactic(auto)]

ghost use Rattle.std.specs.Prelude.{◌≡◌};
ghost use Rattle.token_store.specs.Store.{is_live, is_bound_code, is_challenged, origin_of};

mod fields;
mod fitness;
pub mod layout;
mod search;
mod time;
mod write;

use fields::is_challenged_kind;
pub use fields::{StoreBytes, link_to, slot_at};
pub use fitness::fit;
pub use search::{clashes, find, has_room};
pub use time::{call_time, lifetime, set_time};
pub use write::{clear, clear_tokens, issue, put};

// What a slot of the store holds.
#[derive(Clone, Copy)]
pub struct Slot {
    // a number, since bytes of the right length are read as a store whatever their kinds: `fit` judges these
    pub kind: u8,
    pub handle: [u8; layout::HANDLE_SIZE],
    pub client: u8,
    pub farm: u32,
    pub scope: u8,
    pub expiry: u64,
    // of a token: the handle of the code that it came from, and zeros; of a code with a challenge: the challenge; else zeros
    pub link: [u8; layout::LINK_SIZE],
}

impl Slot {
    // Whether it is in use and has not run out at t.
    pub fn is_live(self, t: u64) -> bool
        ensures { result ≡ is_live t self }
    {
        (self.kind != layout::KIND_FREE) & (t < self.expiry)
    }

    // Whether it is a code whose redirect address must be repeated.
    pub fn is_bound_code(self) -> bool
        ensures { result ≡ is_bound_code self }
    {
        (self.kind == layout::KIND_BOUND_CODE) | (self.kind == layout::KIND_BOUND_CHALLENGED_CODE)
    }

    // Whether it is a code with a challenge.
    pub fn is_challenged(self) -> bool
        ensures { result ≡ is_challenged self }
    {
        is_challenged_kind(self.kind)
    }

    // The handle of the code that a token came from.
    pub fn origin(self) -> [u8; layout::HANDLE_SIZE]
        ensures { result ≡ origin_of self }
    {
        octets::bytes_at(&self.link, 0)
    }
}

// What is sought: a code of any kind, a code that was exchanged, an access token, a refresh token, or a token of either kind.
#[derive(Clone, Copy)]
pub enum Sought {
    Code,
    Spent,
    Access,
    Refresh,
    Token,
}
