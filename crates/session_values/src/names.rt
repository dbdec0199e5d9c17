ghost use Rattle.std.specs.Prelude.{◌≡◌, ◌<◌, ◌^◌, IfOk, bytes_eq, length};
ghost use Rattle.std.specs.List.{position_from};
ghost use Rattle.behaviour_tree.specs.PartsView.{parts_of};
ghost use Rattle.session_calculus.specs.Answers as answers;
ghost use Rattle.session_calculus.specs.Names as names;

use behaviour_tree::{Program, numbered};
use jolie_trees::Text;
use std::alloc::{AllocError, Global};

/// The text of a fault or a scope.
pub fn name_at(alloc: Global, program: &Program, name: u32) -> Result<Text, AllocError>
    ensures { IfOk result (λ text. text ≡ names.name_at (parts_of program.now) name) }
{
    match program.parts().names.get(name as usize) {
        Some(text) => text.copied(),
        None => Text::new(alloc, ""),
    }
}

/// The number of a name, where the program has it.
pub fn number_of(program: &Program, name: &Text) -> Option<u32>
    ensures { result ≡ answers.number_of (parts_of program.now) name.now }
{
    place_of(program.names(), name)
}

/// The number of a name among names.
fn place_of(names: &[Text], name: &Text) -> Option<u32>
    requires { length names.now < 2 ^ 32 }
    ensures { result ≡ position_from (bytes_eq name.now) 0 names.now }
{
    for (place, text) in names.iter().enumerate() {
        if *name == *text {
            return Some(numbered(place));
        }
    }
    None
}
