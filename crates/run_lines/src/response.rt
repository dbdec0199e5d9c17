//! The line that answers a posting.

ghost use Rattle.std.specs.Prelude.{◌≡◌, string_bytes, IfOk};
ghost use Rattle.behaviour_tree.specs.PartsView.{parts_of};
ghost use Rattle.run_lines.specs.Reading.{came_by};
ghost use Rattle.run_lines.specs.Told.{line_to};

use behaviour_tree::{Outcome, Program};
use jsonrpc_postings::response_to;
use jsonrpc_text::Read;
use std::alloc::{AllocError, Global};

/// The line that answers what came in, by what its calls came to; empty where nothing is sent.
pub(crate) fn line_to(
    alloc: Global,
    program: &Program,
    read: &Read,
    outcomes: &[Outcome],
) -> Result<String, AllocError>
    ensures { IfOk result
        (λ line. string_bytes line ≡ line_to (parts_of program.now) (came_by read.now) outcomes.now) }
{
    let mut line = String::new(alloc);
    if let Some(text) = response_to(alloc, program, 0, read, outcomes)? {
        line.push_str(text.as_str())?;
        line.push('\n')?;
    }
    Ok(line)
}
