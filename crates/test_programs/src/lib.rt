//! The programs of texts, for tests.
#![tactic(auto)]

use behaviour_tree::Program;
use jolie_ast::Ast;
use jolie_parse::parse;
use jolie_tokens::lex;
use service_check::check;
use std::alloc::Global;

/// What is told of the program that a text is. Who tells it is lent the program, and need not know how to let it go.
pub fn with_program<T, F>(alloc: Global, text: &[u8], tell: F) -> anyhow::Result<T>
where
    F: FnOnce(&Program) -> anyhow::Result<T> + Drop,
    requires { F.IsAlwaysCallable tell }
{
    let program = program_of(alloc, text)?;
    tell(&program)
}

/// The program that a text is.
pub fn program_of(alloc: Global, text: &[u8]) -> anyhow::Result<Program> {
    let ast = ast_of(alloc, text)?;
    checked(alloc, &ast)
}

fn ast_of(alloc: Global, text: &[u8]) -> anyhow::Result<Ast> {
    let tokens = lex(alloc, text)?;
    Ok(parse(alloc, text, &tokens)?)
}

fn checked(alloc: Global, ast: &Ast) -> anyhow::Result<Program> {
    Ok(check(alloc, ast)?)
}
