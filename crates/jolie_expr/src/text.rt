ghost use Rattle.std.specs.Prelude.{◌≡◌, ◌++◌, IfOk, string_bytes, option_and_then, option_map};
ghost use Rattle.jolie_trees.specs.declared.root.Root.TheVariants as root;
ghost use Rattle.behaviour_tree.specs.Numbers.{int_root, long_root};
ghost use Rattle.behaviour_tree.specs.Operators.{constant_root};
ghost use Rattle.jolie_expr.specs.Answers.{Answers};
ghost use Rattle.jolie_expr.specs.Signs.{begins_with_plus};
ghost use Rattle.behaviour_tree.specs.Texts as spec;

use crate::eval_error::EvalError;
use jolie_trees::{Root, Text};
use std::alloc::{AllocError, Global};
use std::string::ToString;

/// The most bytes of a text.
const MOST_TEXT: usize = 65536;

/// The text of a root.
pub fn spelled(alloc: Global, root: &Root) -> Result<String, AllocError>
    ensures { IfOk result (λ text. string_bytes text ≡ spec.spelled root.now) }
{
    match root {
        Root::Void => Ok(String::new(alloc)),
        Root::Bool(true) => String::from_str(alloc, "true"),
        Root::Bool(false) => String::from_str(alloc, "false"),
        Root::Int(n) => n.to_string(alloc),
        Root::Long(n) => n.to_string(alloc),
        Root::Text(text) => String::from_str(alloc, text.as_str()),
    }
}

/// A text as a root, where it is not too long.
pub fn text_root(text: String) -> Option<Root>
    ensures { result ≡ spec.text_root (string_bytes text) }
{
    if text.len() <= MOST_TEXT {
        Some(Root::Text(Text::from_string(text)))
    } else {
        None
    }
}

/// Two roots as one text.
pub fn joined(alloc: Global, a: &Root, b: &Root) -> Result<Root, EvalError>
    ensures { Answers (spec.text_root (spec.spelled a.now ++ spec.spelled b.now)) result }
{
    let mut text = spelled(alloc, a)?;
    let more = spelled(alloc, b)?;
    text.push_str(more.as_str())?;
    text_root(text).ok_or(EvalError::ExprFault)
}

/// A root of a program that a text does not make too long.
pub fn constant(root: &Root) -> Result<Root, EvalError>
    ensures { Answers (constant_root root.now) result }
{
    match root {
        Root::Text(text) if text.len() > MOST_TEXT => Err(EvalError::ExprFault),
        _ => Ok(root.copied()?),
    }
}

/// Whether a plus stands in front, which `from_str_radix` reads, though no number has it.
fn begins_with_plus(text: &[u8]) -> bool
    ensures { result ≡ begins_with_plus text.now }
{
    match text {
        [byte, ..] => *byte == b'+',
        [] => false,
    }
}

/// The int that a text writes.
#[tactic(auto, using(crate::proofs::Parses::plus_is_no_int, crate::proofs::Parses::int_parses))]
pub fn int_in(text: &Text) -> Option<i32>
    ensures { option_map root.Int result ≡ option_and_then int_root (spec.number_in text.now) }
{
    let text = text.as_str();
    if begins_with_plus(text.as_bytes()) {
        return None;
    }
    i32::from_str_radix(text, 10).ok()
}

/// The long that a text writes.
#[tactic(auto, using(crate::proofs::Parses::plus_is_no_long, crate::proofs::Parses::long_parses))]
pub fn long_in(text: &Text) -> Option<i64>
    ensures { option_map root.Long result ≡ option_and_then long_root (spec.number_in text.now) }
{
    let text = text.as_str();
    if begins_with_plus(text.as_bytes()) {
        return None;
    }
    i64::from_str_radix(text, 10).ok()
}
