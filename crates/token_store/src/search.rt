// Scans of the slots, each from the lowest on: look-ups, the first vacant slot, and whether there is room.
ghost use Rattle.std.specs.Prelude.{◌≡◌, leb};
ghost use Rattle.octets.specs.Search.{index_where, count, any};
ghost use Rattle.token_store.specs.Store.{decode, decode_slot, is_vacant, holds, is_sought, sought_key, comes_from, found_at};

use crate::fields::{
    SlotBytes, StoreBytes, handle_of, is_challenged_kind, is_live, is_token_kind, kind_of,
    origin_of, slots,
};
use crate::{Sought, layout};
use encoding::Handle;

// Whether a slot is of a kind that is sought.
fn is_sought(slot: &SlotBytes, sought: Sought) -> bool
    ensures { result ≡ is_sought sought (decode_slot slot.now) }
{
    let kind = kind_of(slot);
    match sought {
        Sought::Code => (kind == layout::KIND_CODE)
            | (kind == layout::KIND_BOUND_CODE)
            | is_challenged_kind(kind),
        Sought::Spent => kind == layout::KIND_SPENT,
        Sought::Access => kind == layout::KIND_ACCESS,
        Sought::Refresh => kind == layout::KIND_REFRESH,
        Sought::Token => is_token_kind(kind),
    }
}

// Whether a slot is of a kind that is sought and has the handle presented.
fn matches(slot: &SlotBytes, sought: Sought, presented: Option<Handle>) -> bool
    ensures { result ≡ sought_key sought presented (decode_slot slot.now) }
{
    match presented {
        // The handle first: the kind is then looked at once where it is the one, not at each slot.
        Some(handle) => octets::equal(&handle, handle_of(slot)) && is_sought(slot, sought),
        None => false,
    }
}

// Whether a slot is a token of a kind that is sought and came from the code of this handle.
pub(crate) fn comes_from(slot: &SlotBytes, sought: Sought, handle: &[u8]) -> bool
    ensures { result ≡ comes_from sought handle.now (decode_slot slot.now) }
{
    is_sought(slot, sought) && octets::equal(handle, origin_of(slot))
}

// The lowest slot of a kind that is sought with the handle presented, run out or not.
pub fn find(store: &StoreBytes, sought: Sought, presented: Option<Handle>) -> Option<usize>
    ensures { result ≡ found_at (index_where (sought_key sought presented) (decode store.now).slots) }
{
    slots(store)
        .iter()
        .position(|slot| matches(slot, sought, presented))
}

// The lowest slot that is free or has run out at t.
pub(crate) fn vacant(store: &StoreBytes, t: u64) -> Option<usize>
    ensures { result ≡ found_at (index_where (is_vacant t) (decode store.now).slots) }
{
    slots(store).iter().position(|slot| !is_live(slot, t))
}

// Whether at least n slots are free or have run out at t.
pub fn has_room(store: &StoreBytes, t: u64, n: usize) -> bool
    ensures { result ≡ leb n (count (is_vacant t) (decode store.now).slots) }
{
    let vacant = slots(store).iter().filter(|slot| !is_live(slot, t));
    vacant.take(n).count() == n
}

// Whether a slot is in use, run out or not, and has this handle.
fn holds(slot: &SlotBytes, handle: &[u8]) -> bool
    ensures { result ≡ holds handle.now (decode_slot slot.now) }
{
    (kind_of(slot) != layout::KIND_FREE) && octets::equal(handle, handle_of(slot))
}

// Whether a slot in use, run out or not, has this handle.
pub fn clashes(store: &StoreBytes, handle: &[u8]) -> bool
    ensures { result ≡ any (holds handle.now) (decode store.now).slots }
{
    slots(store).iter().any(|slot| holds(slot, handle))
}
