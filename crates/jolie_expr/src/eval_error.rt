ghost use Rattle.std.specs.Prelude.{◌≡◌};
ghost use Rattle.jolie_expr.specs.declared.eval_error.EvalError.TheVariants.{Memory};

use std::alloc::AllocError;
use thiserror::Error;

/// Why an expression was not evaluated.
#[derive(Debug, Drop, Error)]
pub enum EvalError {
    #[error("the expression has no value")]
    ExprFault,
    #[error("out of memory")]
    Memory(AllocError),
}

impl From<AllocError> for EvalError {
    ghost from_gives = { λ cause error. error ≡ Memory cause };

    fn from(cause: AllocError) -> EvalError {
        EvalError::Memory(cause)
    }
}
