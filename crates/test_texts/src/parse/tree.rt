//! What is in a tree.

use jolie_ast::{Assignment, Ast, Block, Clause, Definition, Expr, ExprForm, Process, print};
use std::alloc::{AllocError, Global};

/// What is printed of the tree, without what stands around it.
pub fn print_within(
    alloc: Global,
    ast: &Ast,
    before: &str,
    behind: &str,
) -> Result<String, AllocError> {
    let text = print(alloc, ast)?;
    let whole = text.as_str();
    if before.is_empty() {
        return String::from_str(alloc, whole);
    }
    let rest = whole.strip_prefix(before).unwrap_or("");
    let (inner, _) = rest.rsplit_once(behind).unwrap_or(("", ""));
    format!(in alloc; "{inner}\n")
}

/// The place of the first operand of the sum that is assigned behind `before`, and how many follow.
pub fn place_of_sum(alloc: Global, ast: &Ast, before: &str) -> Result<String, AllocError> {
    match assigned(ast) {
        Some(value) => shown_sum(alloc, form(value), before.len()),
        None => String::from_str(alloc, "nothing is assigned"),
    }
}

fn shown_sum(alloc: Global, form: &ExprForm, from: usize) -> Result<String, AllocError> {
    match form {
        ExprForm::Sum { first, rest } => {
            let place = (first.get().at as usize).wrapping_sub(from);
            let more = rest.len();
            format!(in alloc; "from {place} and {more} more")
        }
        _ => String::from_str(alloc, "no sum"),
    }
}

/// What an expression is.
fn form(value: &Expr) -> &ExprForm {
    value.form.get()
}

/// What the first statement of the main of the first service assigns.
fn assigned(ast: &Ast) -> Option<&Expr> {
    match ast.definitions().first()? {
        Definition::Service(service) => assigned_in_clause(service.clauses.get(0)?),
        _ => None,
    }
}

fn assigned_in_clause(clause: &Clause) -> Option<&Expr> {
    match clause {
        Clause::Main { at: _, body } => assigned_in_block(body),
        _ => None,
    }
}

fn assigned_in_block(block: &Block) -> Option<&Expr> {
    match block.body.as_ref()?.get() {
        Process::Assign {
            path: _,
            assignment: Assignment::Root(value),
        } => Some(value),
        _ => None,
    }
}
