// Writing and issuing a slot, and freeing one, or the tokens that came from a code.
ghost use Rattle.std.specs.Prelude.{◌≡◌, ◌<◌};
ghost use Rattle.token_store.specs.Layout.{slot_count};
ghost use Rattle.token_store.specs.Store.{decode, with_slot, with_slots, issue, free_slot, without_tokens};

use crate::fields::{StoreBytes, slot_start, slots};
use crate::search::{comes_from, vacant};
use crate::{Slot, Sought, layout};

// Writes slot i; nothing else changes.
pub fn put(store: &mut StoreBytes, i: usize, s: Slot)
    requires { i < slot_count }
    ensures { decode store.new ≡ with_slot (decode store.old) i s }
{
    octets::copy_at(store, slot_start(i), &s.to_bytes());
}

// Writes a slot in the lowest place that is free or has run out at t. Where there is none nothing changes.
pub fn issue(store: &mut StoreBytes, t: u64, s: Slot)
    ensures { decode store.new ≡ with_slots (decode store.old) (issue t s (decode store.old).slots) }
{
    if let Some(i) = vacant(store, t) {
        put(store, i, s);
    }
}

// Frees slot i: all its bytes are zero.
pub fn clear(store: &mut StoreBytes, i: usize)
    requires { i < slot_count }
    ensures { decode store.new ≡ with_slot (decode store.old) i free_slot }
{
    octets::clear_at(store, slot_start(i), layout::SLOT_SIZE);
}

// Frees every token of a kind that is sought which came from the code of this handle; nothing else changes.
pub fn clear_tokens(store: &mut StoreBytes, sought: Sought, handle: &[u8])
    ensures { let before = decode store.old in
        decode store.new ≡ with_slots before (without_tokens sought handle.now before.slots) }
{
    // by index: nothing is known of a slice whose parts as_chunks_mut or chunks_exact_mut lent
    for i in 0..layout::SLOT_COUNT {
        if comes_from(&slots(store)[i], sought, handle) {
            clear(store, i);
        }
    }
}
