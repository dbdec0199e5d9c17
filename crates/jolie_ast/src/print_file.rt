ghost use Rattle.std.specs.Prelude.{◌≡◌, IfOk, OnOk, flat_map};
ghost use Rattle.jolie_ast.specs.Spacing.{after};
ghost use Rattle.jolie_ast.specs.Printed.{definition_tokens, printed_text};

use crate::printer::Printer;
use crate::tree::{Ast, Definition};
use jolie_trees::Text;
use std::alloc::{AllocError, Global};

/// The text of a file: the tokens of its definitions with one space between every two, and a line feed at the end. An
/// operand that has two or more operands of its own stands in parentheses, and no other does. The only error is that
/// there is no memory for the text.
#[tactic(auto, using(crate::proofs::Spacing::ended_after))]
pub fn print(alloc: Global, ast: &Ast) -> Result<Text, AllocError>
    ensures { IfOk result (λ text. text ≡ printed_text ast.now) }
{
    let mut printer = Printer::new(alloc);
    printer.definitions(ast.definitions())?;
    printer.finished()
}

impl Printer {
    #[tactic(auto, using(crate::proofs::Spacing::after_append, crate::proofs::Spacing::after_more))]
    fn definitions(&mut self, definitions: &[Definition]) -> Result<(), AllocError>
        ensures { OnOk result (self.new ≡ after self.old (flat_map definition_tokens definitions.now)) }
    {
        for definition in definitions {
            self.definition(definition)?;
        }
        Ok(())
    }

    pub fn definition(&mut self, definition: &Definition) -> Result<(), AllocError>
        ensures { OnOk result (self.new ≡ after self.old (definition_tokens definition.now)) }
    {
        match definition {
            Definition::Type(definition) => self.type_definition(definition),
            Definition::Interface(interface) => self.interface(interface),
            Definition::Service(service) => self.service(service),
        }
    }
}
