//! Numbers with a meaning of their own: the places that the standard names have in the names of each program, and
//! where a fault may have gone, as the number of its raise says.

/// The fault of a request that got no answer.
pub const IO_EXCEPTION: u32 = 0;

/// The fault of a value that is not of its type.
pub const TYPE_MISMATCH: u32 = 1;

/// The fault of a value that does not correlate.
pub const CORRELATION_ERROR: u32 = 2;

/// The fault of a request that was refused.
pub const REFUSED: u32 = 3;

/// The fault of a request that was answered by a fault which its operation does not declare.
pub const UNDECLARED_FAULT: u32 = 4;

/// The fault of an expression without a value.
pub const EXPR_FAULT: u32 = 5;

/// The fault of a handler that would pass a limit.
pub const HANDLER_TOO_LARGE: u32 = 6;

/// The fault of a store that would pass a limit.
pub const STORE_TOO_LARGE: u32 = 7;

/// The outermost scope of a session.
pub const MAIN: u32 = 8;

/// A scope caught the fault.
pub const CAUGHT: u32 = 0;

/// The fault ended at a scope whose last handler ran.
pub const ENDED: u32 = 1;

/// Nobody kept the fault.
pub const UNKEPT: u32 = 2;
