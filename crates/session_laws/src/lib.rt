//! The laws that `session_calculus` states and does not prove itself, proved over its definitions.
//!
//! Their statements stand in `crates/session_calculus/specs`; that strands differ in every run stands in
//! `specs/Strands.antt`. Two principles carry the proofs: what holds of every move (`proofs/Moving.antt`), and what
//! holds of all that begins and of every normal form (`proofs/Settling.antt`). What begins is `proofs/Fresh.antt`; the
//! other files have one law or two each. `proofs/SameStrands.antt` computes why two of the laws ask that strands
//! differ.
#![tactic(auto)]

mod laws;

pub use laws::further_laws_of_runs;
