// The sizes, places and kinds of the store, and the lifetimes: what specs/Layout.antt and specs/Store.antt say, once more.
pub const TIME_SIZE: usize = 8;

pub const SLOT_COUNT: usize = 900;

pub const SLOT_SIZE: usize = 67;

pub const STORE_SIZE: usize = TIME_SIZE + SLOT_COUNT * SLOT_SIZE;

// Where each field starts in a slot, behind the kind, and the widths of those that are wider than a byte.
pub const AT_HANDLE: usize = 1;

pub const AT_CLIENT: usize = 21;

pub const AT_FARM: usize = 22;

pub const AT_SCOPE: usize = 26;

pub const AT_EXPIRY: usize = 27;

pub const AT_LINK: usize = 35;

pub const HANDLE_SIZE: usize = encoding::HANDLE_SIZE;

pub const FARM_SIZE: usize = 4;

pub const EXPIRY_SIZE: usize = 8;

pub const LINK_SIZE: usize = 32;

// The latest time that a clock or a store may show, 2 to the 40.
pub const LATEST_TIME: u64 = 1099511627776;

// What a slot holds.
pub const KIND_FREE: u8 = 0;

pub const KIND_CODE: u8 = 1;

pub const KIND_BOUND_CODE: u8 = 2;

pub const KIND_ACCESS: u8 = 3;

pub const KIND_REFRESH: u8 = 4;

pub const KIND_SPENT: u8 = 5;

pub const KIND_CHALLENGED_CODE: u8 = 6;

pub const KIND_BOUND_CHALLENGED_CODE: u8 = 7;

// The kinds number up to the last of them.
pub const KIND_LAST: u8 = KIND_BOUND_CHALLENGED_CODE;

// How many seconds what is issued lives: a row for each kind. A spent code keeps its expiry.
pub const LIFETIMES: [u64; 8] = [0, 600, 600, 3600, 2592000, 0, 600, 600];
