ghost use Rattle.std.specs.Prelude.{◌≡◌, ◌+◌, ◌<◌, ◌≤◌, ◌++◌, ◌^◌, ℕ, Some, true, if◌then◌else◌, is_ok, filter, IfSome, MatchOption, length};
ghost use Rattle.frame_arena.specs.Entries.{entries, entry, is_used, line_of, new_entries, new_entry, numbers};
ghost use Rattle.frame_arena.specs.Lines.{no_line};
ghost use Rattle.frame_arena.specs.Places.{IsNextRow, IsPlace, IsRising, IsRowOf};

use std::alloc::{AllocError, Global};

/// A strand, or the place of one that was freed.
#[derive(Drop)]
pub struct Row<F, K> {
    pub number: u64,
    pub is_live: bool,
    pub parent: Option<u64>,
    pub first: u64,
    pub count: u64,
    pub undone: u64,
    pub frames: Vec<F>,
    pub kept: Vec<K>,
}

/// The row of a strand that has nothing yet.
pub fn new_row<F: Copy, K: Drop>(alloc: Global, number: u64, parent: Option<u64>) -> Row<F, K>
    ensures { entry result ≡ new_entry parent number }
{
    Row {
        number,
        is_live: true,
        parent,
        first: 0,
        count: 0,
        undone: 0,
        frames: Vec::new(alloc),
        kept: Vec::new(alloc),
    }
}

/// The place of a number among the rows, which stand in rising order.
pub fn place_of<F: Copy, K: Drop>(rows: &[Row<F, K>], number: u64) -> usize
    requires { IsRising (numbers (entries rows.now)) }
    ensures { IsPlace (numbers (entries rows.now)) number result }
{
    let mut low = 0;
    let mut high = rows.len();
    while low < high {
        let middle = low + (high - low) / 2;
        if rows[middle].number < number {
            low = middle + 1;
        } else {
            high = middle;
        }
    }
    low
}

/// The row of a strand, if it is there.
pub fn row_of<F: Copy, K: Drop>(rows: &[Row<F, K>], number: u64) -> Option<usize>
    requires { IsRising (numbers (entries rows.now)) }
    ensures row { MatchOption result (line_of (entries rows.now) number ≡ no_line) (IsRowOf (entries rows.now) number) }
    ensures within { IfSome result (λ k. k < length rows.now) }
{
    let place = place_of(rows, number);
    if place >= rows.len() {
        return None;
    }
    let row = &rows[place];
    if row.number != number {
        return None;
    }
    if !row.is_live {
        return None;
    }
    Some(place)
}

/// The row of a strand that is there.
pub fn live_row<F: Copy, K: Drop>(rows: &[Row<F, K>], number: u64) -> usize
    requires rising { IsRising (numbers (entries rows.now)) }
    requires live { (line_of (entries rows.now) number).is_live ≡ true }
    ensures row { IsRowOf (entries rows.now) number result }
    ensures within { result < length rows.now }
{
    place_of(rows, number)
}

/// The row of the first strand that is there, from a number on.
pub fn next_row<F: Copy, K: Drop>(rows: &[Row<F, K>], from: u64) -> Option<usize>
    requires { IsRising (numbers (entries rows.now)) }
    ensures row { MatchOption result
        ((n : ℕ) → from ≤ n → line_of (entries rows.now) n ≡ no_line)
        (IsNextRow (entries rows.now) from) }
    ensures within { IfSome result (λ k. k < length rows.now) }
{
    let mut place = place_of(rows, from);
    while place < rows.len() {
        if rows[place].is_live {
            return Some(place);
        }
        place += 1;
    }
    None
}

/// Puts so many new strands after the others, from a number on; none where memory does not suffice.
pub fn grow<F: Copy, K: Drop>(
    rows: &mut Vec<Row<F, K>>,
    alloc: Global,
    parent: u64,
    first: u64,
    count: u64,
) -> Result<(), AllocError>
    requires { first + count < 2 ^ 64 }
    ensures { entries rows.new.items
        ≡ (if is_ok result then entries rows.old.items ++ new_entries (Some parent) first count
        else entries rows.old.items) }
{
    let before = rows.len();
    for i in 0..count {
        let Ok(()) = rows.push(new_row(alloc, first + i, Some(parent))) else {
            rows.truncate(before);
            return Err(AllocError);
        };
    }
    Ok(())
}

/// Takes out the rows of strands that were freed.
pub fn squeeze<F: Copy, K: Drop>(rows: &mut Vec<Row<F, K>>)
    ensures { entries rows.new.items ≡ filter is_used (entries rows.old.items) }
{
    rows.retain(|row| row.is_live);
}
