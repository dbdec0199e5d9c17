//! Forms in a context: what stands around a form that acts, as a list of layers from outside inward, and how each walk
//! of the calculus goes through such a list.
//!
//! What a walk makes of a form in a context is what it makes of the form, with each layer's part. So a session that
//! keeps the layers of each strand as a stack does its events at the top of the stack alone.
#![tactic(auto)]

mod laws;

pub use laws::contexts_are_walked;
