//! The text of a row's program.

use std::alloc::Global;
use test_rows::Row;

/// The row's `program`. Where the row has a text `each` and a number `times`, the former stands after it so often,
/// each `#` in it as the number of the time.
pub fn program_text(alloc: Global, row: &Row<'_>) -> anyhow::Result<Vec<u8>> {
    let mut text = row.bytes(alloc, "program")?;
    if row.has("each") {
        let each = row.text(alloc, "each")?;
        let times = row.number(alloc, "times")?;
        for number in 0..times {
            add_numbered(alloc, &mut text, each.as_str(), number)?;
        }
    }
    Ok(text)
}

fn add_numbered(alloc: Global, text: &mut Vec<u8>, each: &str, number: u32) -> anyhow::Result<()> {
    let number = number.to_string(alloc)?;
    for (place, part) in each.split('#').enumerate() {
        if place > 0 {
            text.extend_from_slice(number.as_bytes())?;
        }
        text.extend_from_slice(part.as_bytes())?;
    }
    Ok(())
}
