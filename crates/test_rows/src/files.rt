//! The files of tables.

use std::{env, fs, io};

/// The tables that the words of the command line name, as one text.
pub fn tables(rt: &HostRuntime) -> io::Result<String> {
    let mut all = String::new(rt.alloc());
    for name in env::args(rt)?.skip(1) {
        let table = fs::read_to_string(rt, name.as_str())?;
        all.push_str(table.as_str())?;
        // A group without rows ends the table.
        all.push_str("\n== \n")?;
    }
    Ok(all)
}
