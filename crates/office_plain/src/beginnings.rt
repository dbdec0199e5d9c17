//! Which operations start a session.

ghost use Rattle.std.specs.Prelude.{◌≡◌, [], map, unwrap_or};
ghost use Rattle.behaviour_tree.specs.FormedBehaviours.{branch_operations};
ghost use Rattle.behaviour_tree.specs.FormedServices.{first_input, first_of_members};
ghost use Rattle.behaviour_tree.specs.Operations.{is_among};
ghost use Rattle.behaviour_tree.specs.View.{behaviour_view, branch_view, branches_of, procs_of};

use behaviour_tree::{Behaviour, Branch};

/// Whether an operation is one of the first input of a behaviour.
#[cycle(begins_with)]
pub fn begins_with(behaviour: &Behaviour, op: u32) -> bool
    ensures { result ≡ is_among (unwrap_or (first_input (behaviour_view behaviour.now)) []) op }
{
    match behaviour {
        Behaviour::Choice(branches) => has_branch(branches, op),
        Behaviour::Sequence(list) => sequence_begins_with(list, op),
        Behaviour::Scope { name: _, body } => begins_with(body, op),
        Behaviour::Block(body) => begins_with(body, op),
        _ => false,
    }
}

/// The same of a sequence: its first member that is no install counts.
#[cycle(begins_with)]
fn sequence_begins_with(list: &[Behaviour], op: u32) -> bool
    ensures { result ≡ is_among (unwrap_or (first_of_members (procs_of (map behaviour_view list.now))) []) op }
{
    for member in list {
        match member {
            Behaviour::Install(_) => {}
            _ => return begins_with(member, op),
        }
    }
    false
}

/// Whether a choice has a branch of an operation.
fn has_branch(branches: &[Branch], op: u32) -> bool
    ensures { result ≡ is_among (branch_operations (branches_of (map branch_view branches.now))) op }
{
    for branch in branches {
        if branch.op == op {
            return true;
        }
    }
    false
}
