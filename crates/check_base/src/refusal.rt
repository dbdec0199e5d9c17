ghost use Rattle.std.specs.Prelude.{◌≡◌};
ghost use Rattle.check_base.specs.Least.{comes_first, rank};
ghost use Rattle.check_base.specs.declared.refusal.CheckError.TheVariants.{Memory};

use std::alloc::AllocError;
use thiserror::Error;

/// What a file is refused for.
#[derive(Clone, Copy, Debug, PartialEq, Eq)]
pub enum CheckName {
    /// A name, or the location of an input port, stands a second time where each may stand once, or a service has a
    /// second execution, init or main.
    DuplicateName,
    /// A type or an interface is not there, leads back to itself, or an alias leads to no value.
    UnknownType,
    /// An output to a port that is not there, or an output port at a local location that no input port has.
    UnknownPort,
    /// The operation of an output is not among those of its port, or that of an input among those of the input ports.
    UnknownOperation,
    /// An operation, a location, a protocol, a set or an index of another kind than its place asks for, or a port that
    /// is named `Console`.
    WrongKind,
    /// Messages of an operation could not find their session, a type has aliases for some variables of a set alone, or
    /// `csets` names a variable that is not there.
    Uncorrelated,
    /// A type stands in two correlation sets of a service.
    TwoSets,
    /// `comp` stands in no handler.
    CompOutsideHandler,
    /// `cH` stands in no handler.
    ChOutsideHandler,
    /// There is no service, a service has no main, or a concurrent one has a main that begins with no input.
    NoStart,
    /// A statement of init is no assignment.
    InitNotAssignment,
}

/// Why a file has no program: what is refused first, with the place of its token in bytes from 0.
#[derive(Debug, Drop, Error)]
pub enum CheckError {
    #[error("{0:?} {1}")]
    Refused(CheckName, u32),
    #[error("out of memory")]
    Memory(AllocError),
}

impl From<AllocError> for CheckError {
    ghost from_gives = { λ cause error. error ≡ Memory cause };

    fn from(cause: AllocError) -> CheckError {
        CheckError::Memory(cause)
    }
}

/// A refusal and its place.
#[derive(Clone, Copy, Debug, PartialEq, Eq)]
pub struct Refusal {
    pub name: CheckName,
    pub at: u32,
}

impl CheckName {
    /// The place of the name in the order of the names.
    fn rank(self) -> u8
        ensures { result ≡ rank self }
    {
        self as u8
    }
}

impl Refusal {
    /// The place is less, or it is the same and the name is no later.
    pub fn comes_first(self, other: Refusal) -> bool
        ensures { result ≡ comes_first self other }
    {
        self.at < other.at || (self.at == other.at && self.name.rank() <= other.name.rank())
    }
}
