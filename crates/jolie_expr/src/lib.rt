//! Expressions over a store: their values, the comparison of two roots, and the paths that they write.
#![tactic(auto)]

mod answer;
mod cast;
mod comparison;
mod eval_error;
mod evaluate;
mod number;
mod operator;
mod text;

pub use answer::{eval, path, truth};
pub use comparison::compare;
pub use eval_error::EvalError;
