// The bytes of a store and of a slot in it: where they lie, a field of a slot, and the slot itself.
ghost use Rattle.std.specs.Prelude.{◌≡◌, ◌<◌, length, map};
ghost use Rattle.token_store.specs.Layout.{slot_count, slot_start};
ghost use Rattle.token_store.specs.Store.{SlotFits, decode, slot_of, encode_slot, decode_slot, is_token_kind, is_challenged_kind, is_live, link_to, origin_of};

use crate::{Slot, layout};

// The bytes of a store: what the type says of them is their number alone, and `fit` judges them.
pub type StoreBytes = [u8; layout::STORE_SIZE];

// The bytes of a slot.
pub(crate) type SlotBytes = [u8; layout::SLOT_SIZE];

// Where slot i starts.
pub(crate) fn slot_start(i: usize) -> usize
    requires { i < slot_count }
    ensures { result ≡ slot_start i }
{
    layout::TIME_SIZE + i * layout::SLOT_SIZE
}

// The slots of a store, which stand behind its time.
pub(crate) fn slots(store: &StoreBytes) -> &[SlotBytes]
    ensures count { length result.now ≡ slot_count }
    ensures slots { map decode_slot result.now ≡ (decode store.now).slots }
{
    store[layout::TIME_SIZE..].as_chunks().0
}

// ---- single fields: a scan of the slots looks at no others

pub(crate) fn kind_of(slot: &SlotBytes) -> u8
    ensures { result ≡ (decode_slot slot.now).kind }
{
    slot[0]
}

pub(crate) fn handle_of(slot: &SlotBytes) -> &[u8]
    ensures { result.now ≡ (decode_slot slot.now).handle }
{
    &slot[layout::AT_HANDLE..layout::AT_HANDLE + layout::HANDLE_SIZE]
}

fn expiry_of(slot: &SlotBytes) -> u64
    ensures { result ≡ (decode_slot slot.now).expiry }
{
    octets::read_be64(slot, layout::AT_EXPIRY)
}

// The front of the link: of a token, the handle of the code that it came from.
pub(crate) fn origin_of(slot: &SlotBytes) -> &[u8]
    ensures { result.now ≡ origin_of (decode_slot slot.now) }
{
    &slot[layout::AT_LINK..layout::AT_LINK + layout::HANDLE_SIZE]
}

// Whether a kind is that of an access or a refresh token.
pub(crate) fn is_token_kind(kind: u8) -> bool
    ensures { result ≡ is_token_kind kind }
{
    (kind == layout::KIND_ACCESS) | (kind == layout::KIND_REFRESH)
}

// Whether a kind is that of a code with a challenge.
pub(crate) fn is_challenged_kind(kind: u8) -> bool
    ensures { result ≡ is_challenged_kind kind }
{
    (kind == layout::KIND_CHALLENGED_CODE) | (kind == layout::KIND_BOUND_CHALLENGED_CODE)
}

// Whether a slot is in use and has not run out at t.
pub(crate) fn is_live(slot: &SlotBytes, t: u64) -> bool
    ensures { result ≡ is_live t (decode_slot slot.now) }
{
    (kind_of(slot) != layout::KIND_FREE) & (t < expiry_of(slot))
}

// ---- the whole slot

impl Slot {
    // The slot that these bytes are read as.
    pub(crate) fn from_bytes(slot: &SlotBytes) -> Slot
        ensures { result ≡ decode_slot slot.now }
    {
        Slot {
            kind: kind_of(slot),
            handle: octets::bytes_at(slot, layout::AT_HANDLE),
            client: slot[layout::AT_CLIENT],
            farm: octets::read_be32(slot, layout::AT_FARM),
            scope: slot[layout::AT_SCOPE],
            expiry: expiry_of(slot),
            link: octets::bytes_at(slot, layout::AT_LINK),
        }
    }

    // The bytes of the slot, whose fields have the widths of their types.
    pub(crate) fn to_bytes(self) -> SlotBytes
        ensures { (result ≡ encode_slot self) × SlotFits self }
    {
        let mut b = [0u8; layout::SLOT_SIZE];
        b[0] = self.kind;
        octets::copy_at(&mut b, layout::AT_HANDLE, &self.handle);
        b[layout::AT_CLIENT] = self.client;
        octets::write_be(&mut b, layout::AT_FARM, layout::FARM_SIZE, self.farm as u64);
        b[layout::AT_SCOPE] = self.scope;
        octets::write_be(&mut b, layout::AT_EXPIRY, layout::EXPIRY_SIZE, self.expiry);
        octets::copy_at(&mut b, layout::AT_LINK, &self.link);
        b
    }
}

// What slot i holds.
pub fn slot_at(store: &StoreBytes, i: usize) -> Slot
    requires { i < slot_count }
    ensures { result ≡ slot_of (decode store.now) i }
{
    Slot::from_bytes(&slots(store)[i])
}

// The link of a token that came from the code of this handle.
pub fn link_to(origin: [u8; layout::HANDLE_SIZE]) -> [u8; layout::LINK_SIZE]
    ensures { result ≡ link_to origin }
{
    let mut link = [0u8; layout::LINK_SIZE];
    octets::copy_at(&mut link, 0, &origin);
    link
}
