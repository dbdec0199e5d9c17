//! What stands in the way of an accept.
ghost use Rattle.std.specs.Prelude.{◌≡◌};
ghost use Rattle.outside_socket_doors.specs.Arrivals.{is_absence, is_lost, is_want, number_of, obstacle_of};

use std::io;
use std::io::ErrorKind;

/// What stands in the way of an accept that came to an error.
#[derive(Clone, Copy)]
pub(crate) enum Obstacle {
    /// Nobody is there: nobody waits, or who came is gone.
    Nobody,
    /// Who waits can't be let in now, since the system has no file or no memory left.
    Want,
    /// The listener has failed.
    Fault,
}

/// What stands in the way of an accept that came to this error.
pub(crate) fn obstacle_of(error: &io::Error) -> Obstacle
    ensures { result ≡ obstacle_of error.now }
{
    let number = number_of(error);
    if is_absence(error.kind()) || is_lost(number) {
        return Obstacle::Nobody;
    }
    if is_want(number) {
        return Obstacle::Want;
    }
    Obstacle::Fault
}

/// Whether an error of this kind says that nobody is there.
fn is_absence(kind: ErrorKind) -> bool
    ensures { result ≡ is_absence kind }
{
    matches!(
        kind,
        ErrorKind::WouldBlock
            | ErrorKind::Interrupted
            | ErrorKind::ConnectionAborted
            | ErrorKind::ConnectionReset
            | ErrorKind::NetworkDown
            | ErrorKind::NetworkUnreachable
            | ErrorKind::HostUnreachable
            | ErrorKind::TimedOut
    )
}

/// The number that the system gives an error, and 0 for an error that it gave none.
fn number_of(error: &io::Error) -> u32
    ensures { result ≡ number_of error.now }
{
    match error.raw_os_error() {
        Some(code) => code.unsigned_abs(),
        None => 0,
    }
}

/// Whether an error of this number says that who came is gone: ENONET, EPROTO, ENOPROTOOPT, EOPNOTSUPP and EHOSTDOWN.
fn is_lost(number: u32) -> bool
    ensures { result ≡ is_lost number }
{
    number == 64 || number == 71 || number == 92 || number == 95 || number == 112
}

/// Whether an error of this number says that who waits can't be let in now: EPERM, ENOMEM, ENFILE, EMFILE and ENOBUFS.
fn is_want(number: u32) -> bool
    ensures { result ≡ is_want number }
{
    number == 1 || number == 12 || number == 23 || number == 24 || number == 105
}
