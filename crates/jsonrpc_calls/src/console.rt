//! The lines of calls to the console.
ghost use Rattle.std.specs.Prelude.{◌≡◌, IfOk, string_bytes};
ghost use Rattle.behaviour_tree.specs.Texts as texts;
ghost use Rattle.jsonrpc_calls.specs.Console as spec;

use jolie_trees::{Root, Text};
use std::alloc::{AllocError, Global};
use std::string::ToString;

/// The line of a call to the console, by the root of its value.
pub fn console_line(alloc: Global, root: &Root) -> Result<Text, AllocError>
    ensures { IfOk result (λ line. line ≡ spec.console_line root.now) }
{
    let mut line = spelled(alloc, root)?;
    line.push_str("\n")?;
    Ok(Text::from_string(line))
}

/// The text of a root.
fn spelled(alloc: Global, root: &Root) -> Result<String, AllocError>
    ensures { IfOk result (λ text. string_bytes text ≡ texts.spelled root.now) }
{
    match root {
        Root::Void => Ok(String::new(alloc)),
        Root::Bool(true) => String::from_str(alloc, "true"),
        Root::Bool(false) => String::from_str(alloc, "false"),
        Root::Int(n) => n.to_string(alloc),
        Root::Long(n) => n.to_string(alloc),
        Root::Text(text) => String::from_str(alloc, text.as_str()),
    }
}
