//! Tables of what is outside of a run: bytes of connections as they are read and served, answers that come late, trips
//! over HTTP, and sources, sinks, wires, files, links and doors in memory; and how tables themselves are read.
//!
//! What a row is of says which module reads it.
#![tactic(auto)]

mod outside;
mod readings;
mod tables;
mod talks;
mod trips;

use test_rows::{Row, run};

fn main(rt: HostRuntime) -> anyhow::Result<()> {
    run(&rt, expected, given)
}

/// What a row expects.
fn expected(rt: &HostRuntime, row: &Row<'_>) -> anyhow::Result<String> {
    let alloc = rt.alloc();
    match row.text(alloc, "of")?.as_str() {
        "outside" => Ok(outside::expected(alloc, row)?),
        "readings" => Ok(readings::expected(alloc, row)?),
        "tables" => Ok(row.text(alloc, "means")?),
        "talks" => Ok(row.text(alloc, "saw")?),
        _ => Ok(row.text(alloc, "gives")?),
    }
}

/// What comes of a row.
fn given(rt: &HostRuntime, row: &Row<'_>) -> anyhow::Result<String> {
    let alloc = rt.alloc();
    match row.text(alloc, "of")?.as_str() {
        "outside" => Ok(outside::given(rt, row)?),
        "readings" => Ok(readings::given(alloc, row)?),
        "tables" => Ok(tables::given(alloc, row)?),
        "talks" => Ok(talks::given(alloc, row)?),
        "trips" => Ok(trips::given(alloc, row)?),
        _ => Ok(String::from_str(alloc, "of nothing that is known")?),
    }
}
