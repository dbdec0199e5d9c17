//! What is said on standard error of a location. All goes on as it would where nothing can be said.

use std::io;
use std::io::Eprint;

/// Says that a location is listened at.
pub(crate) fn say_open<H: Eprint>(host: &H, location: &str) {
    let _ = eprintln!(host; "roqsulei: listening at {location}");
}

/// Says why a location can't be listened at.
pub(crate) fn say_unopened<H: Eprint>(host: &H, location: &str, error: &io::Error) {
    let _ = eprintln!(host; "roqsulei: {location}: {error}");
}

/// Says why the listener at a location has failed.
pub(crate) fn say_failed<H: Eprint>(host: &H, location: Option<&String>, error: &io::Error) {
    let _ = match location {
        Some(location) => eprintln!(host; "roqsulei: {location}: the listener failed: {error}"),
        None => eprintln!(host; "roqsulei: a listener failed: {error}"),
    };
}

/// Says that the input has ended which holds the doors open.
pub(crate) fn say_closing<H: Eprint>(host: &H) {
    let _ = eprintln!(host; "roqsulei: the standard input has ended: the doors close");
}
