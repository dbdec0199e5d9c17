//! What a program says of its rows.

use crate::row::Row;
use std::io;
use std::io::Write;

/// A line for each row, with their count at the end.
#[derive(Drop)]
pub struct Report<W: Write> {
    out: W,
    told: u64,
    unexpected: u64,
}

impl<W: Write> Report<W> {
    pub fn new(out: W) -> Report<W> {
        Report {
            out,
            told: 0,
            unexpected: 0,
        }
    }

    /// Says whether the row gives what was expected.
    pub fn row(&mut self, row: &Row<'_>, have: &str, want: &str) -> io::Result<()> {
        self.told = self.told.wrapping_add(1);
        if have == want {
            return writeln!(self.out, "{row}: as expected");
        }
        self.unexpected = self.unexpected.wrapping_add(1);
        writeln!(self.out, "{row}: got {have:?} where {want:?} was expected")
    }

    /// Says how many rows there were.
    pub fn end(&mut self) -> io::Result<()> {
        let told = self.told;
        let unexpected = self.unexpected;
        writeln!(self.out, "{told} rows, {unexpected} not as expected")
    }
}
