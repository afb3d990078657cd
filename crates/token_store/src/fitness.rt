// Whether bytes are a store.
ghost use Rattle.std.specs.Prelude.{◌≡◌};
ghost use Rattle.token_store.specs.Store.{decode_slot};
ghost use Rattle.token_store.specs.Fit.{fit_link, fit_slot, fit_store};

use crate::fields::{SlotBytes, StoreBytes, is_challenged_kind, is_token_kind, kind_of, slots};
use crate::layout;
use crate::time::time_of;

// Whether the link of a slot in use is one of its kind: of a token an origin and zeros, of a code with a challenge any bytes, of
// any other code zeros.
fn fit_link(slot: &SlotBytes) -> bool
    ensures { result ≡ fit_link (decode_slot slot.now) }
{
    let kind = kind_of(slot);
    if is_token_kind(kind) {
        return octets::all_zero(&slot[layout::AT_LINK + layout::HANDLE_SIZE..]);
    }
    is_challenged_kind(kind) | octets::all_zero(&slot[layout::AT_LINK..])
}

// Whether the bytes of a slot are those of a free one, all zero, or of one in use for one of so many clients.
fn fit_slot(slot: &SlotBytes, clients: u8) -> bool
    ensures { result ≡ fit_slot clients (decode_slot slot.now) }
{
    let kind = kind_of(slot);
    if kind == layout::KIND_FREE {
        return octets::all_zero(slot);
    }
    (kind <= layout::KIND_LAST)
        & (slot[layout::AT_CLIENT] < clients)
        & (slot[layout::AT_SCOPE] != 0)
        & fit_link(slot)
}

// Whether the bytes are a store for so many clients. Nothing is asked of them.
pub fn fit(store: &[u8], clients: u8) -> bool
    ensures { result ≡ fit_store clients store.now }
{
    let Ok(store) = <&StoreBytes>::try_from(store) else {
        return false;
    };
    if layout::LATEST_TIME < time_of(store) {
        return false;
    }
    slots(store).iter().all(|slot| fit_slot(slot, clients))
}
