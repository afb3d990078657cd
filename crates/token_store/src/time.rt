// Time that never goes back: the latest time seen, the time of a call, and how long what is issued lives.
ghost use Rattle.std.specs.Prelude.{◌≡◌, ◌≤◌};
ghost use Rattle.token_store.specs.Store.{decode, with_time, call_time, lifetime_of, kind_last};

use crate::fields::StoreBytes;
use crate::layout;

// The latest time seen.
pub(crate) fn time_of(store: &StoreBytes) -> u64
    ensures { result ≡ (decode store.now).time }
{
    octets::read_be64(store, 0)
}

// The time of a call with this clock: time never goes back.
pub fn call_time(store: &StoreBytes, clock: u64) -> u64
    ensures { result ≡ call_time (decode store.now) clock }
{
    clock.max(time_of(store))
}

// Stores the time of a call.
pub fn set_time(store: &mut StoreBytes, t: u64)
    ensures { decode store.new ≡ with_time (decode store.old) t }
{
    octets::write_be(store, 0, layout::TIME_SIZE, t);
}

// How many seconds what is issued lives.
pub fn lifetime(kind: u8) -> u64
    requires { kind ≤ kind_last }
    ensures { result ≡ lifetime_of kind }
{
    layout::LIFETIMES[kind as usize]
}
