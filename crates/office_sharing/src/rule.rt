use crate::view::View;
use atomic_table::TableRule;
use behaviour_tree::Program;
use office_plain::Office;
use std::snapshot::Snapshot;

/// The rule of the shared office. Word 0 is 1 while a seat has the turn, and word 1 is the length of the history. The
/// key is the program.
pub struct OneHistory;

impl TableRule<Office, View, Snapshot<Program>> for OneHistory {
    ghost use Rattle.behaviour_tree.specs.PartsView.{parts_of};
    ghost use Rattle.office_sharing.specs.Rule.{IsShared};
    ghost use Rattle.office_sharing.specs.Views.{founder};

    ghost holds = { λ program s. IsShared (parts_of program.value) s };

    ghost first = { λ program. founder };
}
