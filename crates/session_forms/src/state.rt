use crate::fault::Fault;
use std::sync::Arc;

/// The state of a scope: its body runs; a fault came that it has a handler for; it was killed, and its termination
/// handler is to run; its last handler runs; or a fault left it.
#[derive(Drop)]
pub enum ScopeState {
    Live,
    Caught(Arc<Fault>),
    Term,
    Last,
    Zombie,
}
