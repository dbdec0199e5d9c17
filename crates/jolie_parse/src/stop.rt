use std::alloc::AllocError;

/// Why a rule stops. The cursor stands at the token that it stops at.
#[derive(Clone, Copy, Debug)]
pub enum Stop {
    Syntax,
    TooDeep,
    Memory(AllocError),
}

impl From<AllocError> for Stop {
    ghost use Rattle.jolie_parse.specs.Reads.{IsMemory};

    ghost from_gives = { λ _ stop. IsMemory stop };

    fn from(e: AllocError) -> Stop {
        Stop::Memory(e)
    }
}
