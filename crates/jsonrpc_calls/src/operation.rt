//! The operation that a call is to.
ghost use Rattle.std.specs.Prelude.{◌≡◌, option_map};
ghost use Rattle.std.specs.Option.{option_copied};
ghost use Rattle.behaviour_tree.specs.PartsView.{operation_view, parts_of};
ghost use Rattle.jsonrpc_calls.specs.CallTexts as spec;

use crate::port::port_called;
use behaviour_tree::{Operation, Program, operation_sent};
use office_core::Outgoing;

/// The operation that a call is to, at its port.
pub fn operation_called<'a>(program: &'a Program, out: &Outgoing) -> Option<&'a Operation>
    ensures { option_map operation_view (option_copied result)
        ≡ spec.operation_called (parts_of program.now) out.now }
{
    let parts = program.parts();
    match port_called(parts, out) {
        None => None,
        Some(port) => operation_sent(parts, port, out.op),
    }
}
