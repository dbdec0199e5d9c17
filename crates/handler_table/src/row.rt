ghost use Rattle.std.specs.Prelude.{◌≡◌, ◌+◌, ◌<◌, ◌≤◌, set, true};
ghost use Rattle.std.specs.List.{insert};
ghost use Rattle.std.specs.Vec.{vec_capacity, vec_len};
ghost use Rattle.handler_table.specs.Entries.{entries_of, is_scope, number_of};
ghost use Rattle.handler_table.specs.Rows.{are_scopes, is_rising, searched, views_of};

use behaviour_tree::{Behaviour, Handler, HandlerKey};
use std::alloc::{AllocError, Global};
use std::cmp::Ordering;
use std::mem;

/// Handlers in rising order of the numbers in their keys.
#[derive(Drop)]
pub struct Row {
    pub list: Vec<Handler>,
    pub ghost rising: { is_rising (entries_of list.items) ≡ true },
}

impl Row {
    ghost use Rattle.std.specs.Prelude.{[], option_map, OnOk, MatchResult};
    ghost use Rattle.std.specs.Option.{option_copied};
    ghost use Rattle.behaviour_tree.specs.View.{behaviour_view, handler_view};
    ghost use Rattle.session_calculus.specs.Tables.{entry, with, without};
    ghost use Rattle.handler_table.specs.View.{row_view, room_of};

    pub fn new(alloc: Global) -> Row
        ensures empty { row_view result ≡ [] }
        ensures keys { are_scopes (views_of result.list.items) ≡ true }
    {
        Row {
            list: Vec::new(alloc),
        }
    }

    /// Where a number stands, or where it would.
    #[tactic(auto, using(crate::proofs::Places::moved_behind))]
    fn search(&self, number: u32) -> Result<usize, usize>
        ensures place { result ≡ searched number (row_view self.now) }
        ensures within { MatchResult result (λ k. k < vec_len self.now.list) (λ k. k ≤ vec_len self.now.list) }
    {
        for (place, handler) in self.list.iter().enumerate() {
            match number.cmp(&number_in(handler.key)) {
                Ordering::Less => return Err(place),
                Ordering::Equal => return Ok(place),
                Ordering::Greater => {}
            }
        }
        Err(self.list.len())
    }

    /// The behaviour under a number.
    #[tactic(auto, using(crate::proofs::Places::entry_missing))]
    pub fn find(&self, number: u32) -> Option<&Behaviour>
        ensures { option_map behaviour_view (option_copied result) ≡ entry number (row_view self.now) }
    {
        match self.search(number) {
            Ok(place) => Some(&self.list[place].body),
            Err(_) => None,
        }
    }

    /// Takes out the behaviour under a number.
    #[tactic(auto, using(crate::proofs::Places::entry_missing, crate::proofs::Places::take_remove, crate::proofs::Places::take_none, crate::proofs::Places::scopes_remove))]
    pub fn take(&mut self, number: u32) -> Option<Behaviour>
        ensures value { option_map behaviour_view result ≡ entry number (row_view self.old) }
        ensures row { row_view self.new ≡ without number (row_view self.old) }
        ensures keys { are_scopes (views_of self.old.list.items) ≡ true
            → are_scopes (views_of self.new.list.items) ≡ true }
        ensures room { room_of self.old ≤ room_of self.new }
    {
        match self.search(number) {
            Ok(place) => {
                let Handler { key: _, body } = self.list.remove(place);
                Some(body)
            }
            Err(_) => None,
        }
    }

    /// Puts a handler under the number in its key. What stood there gives way.
    #[tactic(auto, using(crate::proofs::Places::scopes_set, crate::proofs::Places::scopes_insert))]
    pub fn put(&mut self, handler: Handler)
        requires { 0 < room_of self.old }
        ensures row { row_view self.new ≡ with (number_of (handler_view handler).key) (handler_view handler).body
            (row_view self.old) }
        ensures keys { are_scopes (views_of self.old.list.items) ≡ true → is_scope (handler_view handler).key ≡ true
            → are_scopes (views_of self.new.list.items) ≡ true }
        ensures room { room_of self.old ≤ room_of self.new + 1 }
    {
        match self.search(number_in(handler.key)) {
            Ok(place) => replaced(&mut self.list, place, handler),
            Err(place) => inserted(&mut self.list, place, handler),
        }
    }

    /// Makes room for further handlers.
    pub fn reserve(&mut self, more: usize) -> Result<(), AllocError>
        ensures room { OnOk result (more ≤ room_of self.new) }
        ensures kept { room_of self.old ≤ room_of self.new }
        ensures same { self.new.list.items ≡ self.old.list.items }
    {
        self.list.reserve(more)
    }
}

/// The number in a key. The scope around has none.
pub fn number_in(key: HandlerKey) -> u32
    ensures { result ≡ number_of key }
{
    match key {
        HandlerKey::This => 0,
        HandlerKey::Fault(number) | HandlerKey::Scope(number) => number,
    }
}

/// Puts a handler in place of another.
fn replaced(list: &mut Vec<Handler>, place: usize, handler: Handler)
    requires within { place < vec_len list.old }
    ensures items { list.new.items ≡ set list.old.items place handler }
    ensures len { vec_len list.new ≡ vec_len list.old }
    ensures capacity { vec_capacity list.new ≡ vec_capacity list.old }
{
    drop(mem::replace(&mut list[place], handler));
}

/// Inserts a handler where there is room.
fn inserted(list: &mut Vec<Handler>, place: usize, handler: Handler)
    requires within { place ≤ vec_len list.old }
    requires room { vec_len list.old < vec_capacity list.old }
    ensures items { list.new.items ≡ insert list.old.items place handler }
    ensures len { vec_len list.new ≡ vec_len list.old + 1 }
    ensures capacity { vec_capacity list.old ≤ vec_capacity list.new }
{
    match list.insert(place, handler) {
        Ok(()) => {}
        Err(_) => unreachable!(),
    }
}
