ghost use Rattle.std.specs.Prelude.{◌≡◌};
ghost use Rattle.behaviour_tree.specs.View.{behaviour_view};
ghost use Rattle.session_calculus.specs.Tables.{filled, is_handler};
ghost use Rattle.handler_table.specs.Filled.{former_of};

use crate::former::Former;
use crate::size::size_of;
use behaviour_tree::Behaviour;

/// Whether a handler is within the limits with the former one, or nothing, in place of each cH.
#[tactic(auto, using(crate::proofs::Sums::forms_within, crate::proofs::Sums::levels_within))]
pub fn is_allowed(body: &Behaviour, former: Option<&Behaviour>) -> bool
    ensures { result ≡ is_handler (filled (former_of former.entry) (behaviour_view body.now)) }
{
    size_of(body, &Former::of(former)).is_allowed()
}
