ghost use Rattle.std.specs.Prelude.{◌≡◌};
ghost use Rattle.behaviour_tree.specs.Data.{nothing};
ghost use Rattle.session_calculus.specs.Tables.{forms, levels};
ghost use Rattle.handler_table.specs.Filled.{former_of};
ghost use Rattle.handler_table.specs.Sizes.{saturated};

use crate::size::{Size, size_of};
use behaviour_tree::Behaviour;

/// What stands in place of each cH of a handler, and how large it is: the handler that stood before, or nothing.
#[derive(Drop)]
pub struct Former<'a> {
    pub body: Option<&'a Behaviour>,
    pub size: Size,
    pub ghost forms_are: { size.forms ≡ saturated (forms (former_of body)) },
    pub ghost levels_are: { size.levels ≡ saturated (levels (former_of body)) },
}

impl<'a> Former<'a> {
    /// Nothing in place of cH.
    pub fn nothing() -> Former<'a>
        ensures { former_of result.body ≡ nothing }
    {
        Former {
            body: None,
            size: Size::one(),
        }
    }

    /// A handler, or nothing, in place of cH.
    #[tactic(auto, using(crate::proofs::Sums::size_kept))]
    pub fn of(body: Option<&'a Behaviour>) -> Former<'a>
        ensures { result.body ≡ body.entry }
    {
        match body {
            None => Former {
                body,
                size: Size::one(),
            },
            Some(former) => Former {
                body,
                size: size_of(former, &Former::nothing()),
            },
        }
    }
}
