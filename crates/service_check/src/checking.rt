ghost use Rattle.service_check.specs.Answers.{Checks};

use crate::counted::all_numbered;
use crate::program::parts_of_file;
use crate::refusals::first_refusal;
use behaviour_tree::Program;
use check_base::CheckError;
use jolie_ast::Ast;
use std::alloc::Global;

/// The program of a file, or the first of its refusals: that with the least place, at a tie the first in the order of
/// `CheckName`.
#[tactic(auto, using(crate::proofs::WellFormed::parts_formed))]
pub fn check(alloc: Global, ast: &Ast) -> Result<Program, CheckError>
    ensures { Checks ast.now result }
{
    let file = ast.definitions();
    if let Some(refusal) = first_refusal(alloc, file)? {
        return Err(CheckError::Refused(refusal.name, refusal.at));
    }
    let parts = parts_of_file(alloc, file)?;
    all_numbered(&parts)?;
    Ok(Program::new(alloc, parts)?)
}
