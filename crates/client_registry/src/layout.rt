// The numbers of specs/Layout.antt: no other file of src/ has one of them.
pub const MAX_CLIENTS: u8 = 64;

// Kinds are numbers, and no enum: each is only compared with a record's first byte, and no function hands one on.
pub const PUBLIC_KIND: u8 = 1;

pub const CONFIDENTIAL_KIND: u8 = 2;

pub const ID_ROOM: usize = 32;

pub const REDIRECT_ROOM: usize = 200;

pub const SECRET_ROOM: usize = 64;

pub const AT_ID: usize = 1;

pub const AT_REDIRECT: usize = 34;

pub const AT_SCOPE: usize = 235;

pub const AT_SECRET: usize = 236;

pub const PUBLIC_SIZE: usize = 236;

pub const CONFIDENTIAL_SIZE: usize = 301;
