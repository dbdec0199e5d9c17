ghost use Rattle.std.specs.Prelude.{◌≡◌, option_map, IfOk};
ghost use Rattle.behaviour_tree.specs.Values.{value as value_of};
ghost use Rattle.behaviour_tree.specs.View.{expr_view};
ghost use Rattle.behaviour_tree.specs.declared.words.Given.TheVariants as given;
ghost use Rattle.session_calculus.specs.Calls as calls;
ghost use Rattle.session_calculus.specs.Faults as faults;
ghost use Rattle.session_calculus.specs.Terms as terms;
ghost use Rattle.session_events.specs.Messages.{fault_number, value_in};
ghost use Rattle.session_events.specs.Seen.{seen_in};

use crate::scene::Scene;
use behaviour_tree::{Expr, standard};
use jolie_trees::Tree;
use session_values::{Memory, request_taken, value};
use std::alloc::{AllocError, Global};

/// What a place sends: an expression to an operation of a port.
#[derive(Clone, Copy)]
pub struct Sending<'a> {
    pub port: u32,
    pub op: u32,
    pub value: &'a Expr,
}

/// The message that comes of it: its fault, or its value as the request type takes it.
#[derive(Drop)]
pub enum Message {
    Faults(u32),
    Sends(Tree),
}

/// The message that a place sends.
pub fn message_of(
    alloc: Global,
    sending: Sending<'_>,
    scene: Scene<'_>,
    memory: &Memory,
) -> Result<Message, AllocError>
    ensures fault { IfOk result
        (λ m. option_map terms.bare (fault_number m)
        ≡ faults.fault_of_message (seen_in scene.entry given.Nothing memory.now) sending.entry.port sending.entry.op
        (value_of memory.now.store (expr_view sending.entry.value.now))) }
    ensures value { IfOk result
        (λ m. value_in m ≡ calls.message_value (seen_in scene.entry given.Nothing memory.now) sending.entry.port
        sending.entry.op (expr_view sending.entry.value.now)) }
{
    let Some(value) = value(alloc, sending.value, &memory.store)? else {
        return Ok(Message::Faults(standard::EXPR_FAULT));
    };
    match request_taken(alloc, scene.actor, sending.port, sending.op, value) {
        None => Ok(Message::Faults(standard::TYPE_MISMATCH)),
        Some(value) => Ok(Message::Sends(value)),
    }
}
