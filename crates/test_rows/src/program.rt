//! A program of tests.

use crate::files::tables;
use crate::report::Report;
use crate::row::{Row, rows};
use std::io;

/// Says of each row of the tables that the command line names whether it gives what it expects.
pub fn run<E, G>(rt: &HostRuntime, expected: E, given: G) -> anyhow::Result<()>
where
    E: Fn(&HostRuntime, &Row<'_>) -> anyhow::Result<String> + Drop,
    G: Fn(&HostRuntime, &Row<'_>) -> anyhow::Result<String> + Drop,
    requires expected { E.IsAlwaysCallable expected }
    requires given { G.IsAlwaysCallable given }
{
    let text = tables(rt)?;
    let mut report = Report::new(io::writer(rt));
    for row in &rows(rt.alloc(), text.as_str())? {
        let want = expected(rt, row)?;
        let have = given(rt, row)?;
        report.row(row, have.as_str(), want.as_str())?;
    }
    report.end()?;
    Ok(())
}
