use crate::new_wire::NewWire;
use crate::poll_wires::ScriptedPollWire;

/// What a try at a scripted door comes to: a connection, nobody yet, or a failure.
#[derive(Drop)]
pub(crate) enum Visit {
    Comes(NewWire<ScriptedPollWire>),
    Nobody,
    Fails,
}
