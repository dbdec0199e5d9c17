ghost use Rattle.std.specs.Prelude.{◌≡◌, ◌+◌, ◌*◌, ◌^◌, ◌-◌, ◌≤◌, ◌<◌, ℕ, true, drop, take, List, length, MatchResult};
ghost use Rattle.correlation.specs.Places.{is_rising, searched};

use crate::key::{Key, KeyRow, Sought};
use jolie_trees::Root;
use std::alloc::{AllocError, Global};
use std::cmp::Ordering;
use std::marker::Brand;
use std::sync::ledger::{Blank, Ledger};

/// The complete keys of a set, in rising order.
#[derive(Drop)]
pub struct Keys {
    pub rows: Vec<KeyRow>,
    pub ghost rising: { is_rising rows.items ≡ true },
}

impl Keys {
    ghost use Rattle.std.specs.Prelude.{[], Option, IfOk, filter, is_ok, if◌then◌else◌};
    ghost use Rattle.correlation.specs.Index.{is_of_other, row_of};
    ghost use Rattle.correlation.specs.Places.{with_row};
    ghost use Rattle.correlation.specs.Rows.{session_with};

    pub fn new(alloc: Global) -> Keys
        ensures { result.rows.items ≡ [] }
    {
        Keys {
            rows: Vec::new(alloc),
        }
    }

    /// The session whose key has the values that are sought.
    pub fn find<L: Ledger>(&self, sought: &mut Sought<'_, L>) -> Option<u32>
        ensures session { result ≡ session_with sought.old.values self.now.rows.items }
        ensures same { sought.new.values ≡ sought.old.values }
        ensures counted { sought.old.steps ≤ sought.new.steps }
        ensures cost { 2 ^ (sought.new.steps - sought.old.steps) ≤ 2 * length self.now.rows.items + 1 }
    {
        match search(&self.rows, sought) {
            Ok(place) => Some(self.rows[place].session),
            Err(_) => None,
        }
    }

    /// Puts a key where it stands, if no session has it; the session that has it.
    pub fn claim(&mut self, values: Vec<Root>, session: u32) -> Result<Option<u32>, AllocError>
        ensures holder { IfOk result (λ t. t ≡ session_with values.items self.old.rows.items) }
        ensures rows { self.new.rows.items
            ≡ (if is_ok result then with_row (row_of session values.items) self.old.rows.items
            else self.old.rows.items) }
    {
        match place_of::<Brand>(&self.rows, &values, Blank::new(1)) {
            Ok(place) => Ok(Some(self.rows[place].session)),
            Err(place) => {
                let key = Key::new(values);
                self.rows.insert(place, KeyRow { key, session })?;
                Ok(None)
            }
        }
    }

    /// Takes out the keys of a session.
    pub fn free(&mut self, session: u32)
        ensures { self.new.rows.items ≡ filter (is_of_other session) self.old.rows.items }
    {
        self.rows.retain(|row| row.session != session);
    }
}

/// Where values stand among rising keys, or where they would, for a caller that counts nothing.
fn place_of<L: Ledger>(rows: &[KeyRow], values: &[Root], blank: Blank) -> Result<usize, usize>
    requires rising { is_rising rows.now ≡ true }
    requires name { blank.name ≡ L.name }
    requires parts { blank.parts ≡ L.parts }
    requires some { 0 < blank.parts }
    ensures place { result ≡ searched values.now rows.now }
    ensures within { MatchResult result (λ k. k < length rows.now) (λ k. k ≤ length rows.now) }
{
    let mut sought = Sought::<L>::new(values, blank);
    search(rows, &mut sought)
}

/// Where the values that are sought stand among rising keys, or where they would.
fn search<L: Ledger>(rows: &[KeyRow], sought: &mut Sought<'_, L>) -> Result<usize, usize>
    requires rising { is_rising rows.now ≡ true }
    ensures place { result ≡ searched sought.old.values rows.now }
    ensures within { MatchResult result (λ k. k < length rows.now) (λ k. k ≤ length rows.now) }
    ensures same { sought.new.values ≡ sought.old.values }
    ensures counted { sought.old.steps ≤ sought.new.steps }
    ensures cost { 2 ^ (sought.new.steps - sought.old.steps) ≤ 2 * length rows.now + 1 }
{
    let mut window = rows;
    let mut before = 0;
    while !window.is_empty() {
        let middle = window.len() / 2;
        match sought.compare(&window[middle].key) {
            Ordering::Less => {
                before += middle + 1;
                window = rows_after(window, middle);
            }
            Ordering::Equal => return Ok(before + middle),
            Ordering::Greater => window = rows_before(window, middle),
        }
    }
    Err(before)
}

/// The rows after one.
fn rows_after(rows: &[KeyRow], place: usize) -> &[KeyRow]
    requires { place < length rows.now }
    ensures { result.now ≡ drop (place + 1) rows.now }
{
    &rows[place + 1..]
}

/// The rows before one.
fn rows_before(rows: &[KeyRow], place: usize) -> &[KeyRow]
    requires { place < length rows.now }
    ensures { result.now ≡ take place rows.now }
{
    &rows[..place]
}
