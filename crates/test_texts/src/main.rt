//! Tables over texts: of trees with their expressions and types, of Jolie with what is said of it by the checks and to
//! a person, and of JSON-RPC.
//!
//! What a row is of says which module reads it.
#![tactic(auto)]

mod calls;
mod checks;
mod explained;
mod expressions;
mod hints;
mod parse;
mod places;
mod texts;
mod tokens;
mod trees;
mod types;

use test_rows::{Row, run};

fn main(rt: HostRuntime) -> anyhow::Result<()> {
    run(&rt, expected, given)
}

/// What a row expects.
fn expected(rt: &HostRuntime, row: &Row<'_>) -> anyhow::Result<String> {
    let alloc = rt.alloc();
    match row.text(alloc, "of")?.as_str() {
        "types" => types::wanted(alloc, row),
        "tokens" => Ok(tokens::expected(alloc, row)?),
        "places" => Ok(places::expected(alloc, row)?),
        "parse" => Ok(parse::expected(alloc, row)?),
        "checks" => Ok(checks::expected(alloc, row)?),
        "explained" => Ok(explained::expected(alloc, row)?),
        "hints" => Ok(row.text(alloc, "hints")?),
        "texts" => texts::wanted(alloc, row),
        "calls" => calls::wanted(alloc, row),
        _ => Ok(row.text(alloc, "gives")?),
    }
}

/// What comes of a row.
fn given(rt: &HostRuntime, row: &Row<'_>) -> anyhow::Result<String> {
    let alloc = rt.alloc();
    match row.text(alloc, "of")?.as_str() {
        "trees" => Ok(trees::given(alloc, row)?),
        "expressions" => expressions::answer(alloc, row),
        "types" => types::judged(alloc, row),
        "tokens" => Ok(tokens::given(alloc, row)?),
        "places" => Ok(places::given(alloc, row)?),
        "parse" => Ok(parse::given(alloc, row)?),
        "hints" => Ok(hints::given(alloc, row)?),
        "checks" => checks::given(alloc, row),
        "explained" => Ok(explained::given(alloc, row)?),
        "texts" => texts::told(alloc, row),
        "calls" => calls::told(alloc, row),
        _ => Ok(String::from_str(alloc, "of nothing that is known")?),
    }
}
