//! The texts of calls that go out, where they go, and what is heard of them.
mod outcomes;
mod sent;

use crate::calls::outcomes::{heard_of_trip, outcome_wanted, said};
use crate::calls::sent::{line_of, location_of, text_sent};
use behaviour_tree::Program;
use std::alloc::Global;
use test_programs::with_program;
use test_rows::Row;

/// A service with a port to call in, number 0, and one to call out, number 1. The latter's operations are `add`,
/// `ask`, `many`, `note` and `late`, numbered from 0.
const PROGRAM: &str = "\
    type Many: void { a*: int } \
    interface I { RequestResponse: add(int)(int), ask(undefined)(undefined) OneWay: many(Many), note(any) } \
    interface J { OneWay: late(long) } \
    service S { \
    execution: single \
    inputPort In { location: \"socket://localhost:8000\" protocol: jsonrpc interfaces: J } \
    outputPort Out { location: \"socket://localhost:9000\" protocol: jsonrpc interfaces: I, J } \
    main { } }";

/// What the call of a row gives.
pub fn told(alloc: Global, row: &Row<'_>) -> anyhow::Result<String> {
    with_program(
        alloc,
        PROGRAM.as_bytes(),
        |program| told_by(alloc, row, program),
    )
}

fn told_by(alloc: Global, row: &Row<'_>, program: &Program) -> anyhow::Result<String> {
    match row.text(alloc, "call")?.as_str() {
        "text" => text_sent(alloc, row, program),
        "location" => location_of(alloc, row, program),
        "line" => line_of(alloc, row),
        "answer" => said(alloc, row),
        _ => heard_of_trip(alloc, row),
    }
}

/// What is expected of a row: a text, or an outcome as `told` writes it.
pub fn wanted(alloc: Global, row: &Row<'_>) -> anyhow::Result<String> {
    if row.has("gives") {
        return Ok(row.text(alloc, "gives")?);
    }
    outcome_wanted(alloc, row)
}
