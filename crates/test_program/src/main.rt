//! Runs of the program over a file, streams, doors and links in memory, what its words ask for, and what runs record.
#![tactic(auto)]

mod clients;
mod objects;
mod peers;
mod runs;
mod served;
mod sessions;
mod told;
mod words;

use crate::runs::{ended, expected_end, travelled};
use crate::served::served;
use crate::sessions::left;
use crate::words::{asked, refused_by};
use test_rows::{Row, run};

fn main(rt: HostRuntime) -> anyhow::Result<()> {
    run(&rt, expected, given)
}

/// What the call of a row gives.
fn given(rt: &HostRuntime, row: &Row<'_>) -> anyhow::Result<String> {
    let alloc = rt.alloc();
    match row.text(alloc, "call")?.as_str() {
        "words" => asked(alloc, row),
        "sentence" => refused_by(alloc, row),
        "record" | "kinds" | "counts" => left(alloc, row),
        "trips" => travelled(alloc, row),
        "serve" => served(alloc, row),
        _ => ended(alloc, row),
    }
}

/// What is expected of a row, as `given` writes it.
fn expected(rt: &HostRuntime, row: &Row<'_>) -> anyhow::Result<String> {
    let alloc = rt.alloc();
    match row.text(alloc, "call")?.as_str() {
        "words" | "sentence" | "record" | "kinds" | "counts" | "trips" | "serve" => {
            Ok(row.text(alloc, "gives")?)
        }
        _ => expected_end(alloc, row),
    }
}
