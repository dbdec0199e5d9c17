//! Rows of an office that threads share: what one caller posted another takes, once it took in what the first has seen;
//! and what four threads leave is a legal history.
#![tactic(auto)]

mod caller;
mod checker;
mod copies;
mod crowd;
mod maker;
mod run;
mod server;

use std::alloc::Global;
use std::sync::Wait;
use std::thread::Threads;
use test_programs::with_program;
use test_rows::Row;

fn main(rt: HostRuntime) -> anyhow::Result<()> {
    let alloc = rt.alloc();
    test_rows::run(&rt, expected, |_, row| given(&rt, alloc, row))
}

fn expected(rt: &HostRuntime, row: &Row<'_>) -> anyhow::Result<String> {
    Ok(row.text(rt.alloc(), "gives")?)
}

fn given<R: Threads + Wait + Sync>(rt: &R, alloc: Global, row: &Row<'_>) -> anyhow::Result<String> {
    let program = row.text(alloc, "program")?;
    let what = row.text(alloc, "of")?;
    with_program(alloc, program.as_str().as_bytes(), |program| {
        run::told(rt, alloc, program, what.as_str())
    })
}
