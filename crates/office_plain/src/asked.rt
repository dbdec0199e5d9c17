ghost use Rattle.std.specs.Prelude.{◌≡◌, option_map};
ghost use Rattle.behaviour_tree.specs.PartsView.{parts_of};
ghost use Rattle.office_core.specs.Limits.{run_of};
ghost use Rattle.office_core.specs.Route as spec;
ghost use Rattle.office_plain.specs.Views.{asked_view};

use behaviour_tree::{Operation, Program, Service};
use jolie_trees::Tree;
use office_core::Posted;

/// A message to an operation of a service: both by number, and what they are.
#[derive(Clone, Copy)]
pub struct Asked<'a> {
    pub number: u32,
    pub service: &'a Service,
    pub op: u32,
    pub operation: &'a Operation,
    pub value: &'a Tree,
}

/// What a message asks for, where an input port of its service has the operation.
pub fn asked_of<'a>(program: &'a Program, posted: &'a Posted) -> Option<Asked<'a>>
    ensures { option_map asked_view result ≡ spec.asked_of (run_of (parts_of program.now)) posted.now }
{
    let service = program.parts().services.get(posted.service as usize)?;
    let op = program.operation_named(posted.service, posted.op.as_str())?;
    let operation = program.operation(posted.service, op)?;
    Some(Asked {
        number: posted.service,
        service,
        op,
        operation,
        value: &posted.value,
    })
}
