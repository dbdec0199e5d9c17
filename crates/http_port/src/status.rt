//! The statuses of responses.
pub const OK: u16 = 200;

pub const NO_CONTENT: u16 = 204;

pub const BAD_REQUEST: u16 = 400;

pub const METHOD_NOT_ALLOWED: u16 = 405;

pub const LENGTH_REQUIRED: u16 = 411;

pub const CONTENT_TOO_LARGE: u16 = 413;

pub const HEADER_FIELDS_TOO_LARGE: u16 = 431;
