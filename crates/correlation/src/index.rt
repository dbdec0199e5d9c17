ghost use Rattle.std.specs.Prelude.{◌≡◌, ◌+◌, ◌*◌, ◌^◌, ◌-◌, ◌≤◌, ◌<◌, ℕ, Option, Some, false, true, filter, if◌then◌else◌, is_ok, length, take, slice_index_or, IfOk};
ghost use Rattle.correlation.specs.Rows.{session_with};
ghost use Rattle.correlation.specs.Sessions.{are_sets, key_with};
ghost use Rattle.correlation.specs.Index.{has_key, has_set, is_of_other, keys_of, shown, with_key};
ghost use Rattle.correlation.specs.declared.set_keys.SetKeys.{SetKeys};

use crate::key::Sought;
use crate::keys::Keys;
use crate::session::{Completed, Session};
use crate::set_keys::SetKeys;
use std::alloc::{AllocError, Global};
use std::sync::ledger::Ledger;

/// The complete keys of all sets.
#[derive(Drop)]
pub struct Index {
    pub sets: Vec<SetKeys>,
}

impl Index {
    /// The session whose key in a set has the values that are sought.
    pub fn find<L: Ledger>(&self, set: u32, sought: &mut Sought<'_, L>) -> Option<u32>
        ensures session { result ≡ session_with sought.old.values (keys_of self.now.sets.items set) }
        ensures same { sought.new.values ≡ sought.old.values }
        ensures counted { sought.old.steps ≤ sought.new.steps }
        ensures cost { 2 ^ (sought.new.steps - sought.old.steps) ≤ 2 * length (keys_of self.now.sets.items set) + 1 }
    {
        for keys in &self.sets {
            if keys.set == set {
                return keys.keys.find(sought);
            }
        }
        None
    }

    /// Puts in the key of a session in the set that has a variable, if it is complete and no session has it; the
    /// session that has it.
    pub fn claim(
        &mut self,
        alloc: Global,
        session: &Session,
        variable: u32,
    ) -> Result<Option<u32>, AllocError>
        requires live { session.now.released ≡ false }
        requires sets { are_sets session.now.sets ≡ true }
        ensures holder { IfOk result (λ t. t ≡ has_key self.old.sets.items (key_with variable session.now)) }
        ensures keys { (n : ℕ) → keys_of self.new.sets.items n
            ≡ (if is_ok result
            then with_key (key_with variable session.now) session.now.number n (keys_of self.old.sets.items n)
            else keys_of self.old.sets.items n) }
    {
        match session.key_with(alloc, variable)? {
            Some(key) => self.put(alloc, key, session.number),
            None => Ok(None),
        }
    }

    /// Takes out the keys of a session.
    pub fn free(&mut self, session: u32)
        ensures { (n : ℕ) → keys_of self.new.sets.items n
            ≡ filter (is_of_other session) (keys_of self.old.sets.items n) }
    {
        for place in 0..self.sets.len() {
            self.sets[place].keys.free(session);
        }
    }

    /// Puts in a key, if no session has it; the session that has it.
    fn put(
        &mut self,
        alloc: Global,
        key: Completed,
        session: u32,
    ) -> Result<Option<u32>, AllocError>
        ensures holder { IfOk result (λ t. t ≡ has_key self.old.sets.items (Some (shown key))) }
        ensures keys { (n : ℕ) → keys_of self.new.sets.items n
            ≡ (if is_ok result then with_key (Some (shown key)) session n (keys_of self.old.sets.items n)
            else keys_of self.old.sets.items n) }
    {
        let place = self.reach(alloc, key.set)?;
        self.sets[place].keys.claim(key.values, session)
    }

    /// The place of a set, which is made where there is none.
    fn reach(&mut self, alloc: Global, set: u32) -> Result<usize, AllocError>
        ensures within { IfOk result (λ p. p < length self.new.sets.items) }
        ensures first { IfOk result (λ p. has_set set (take p self.new.sets.items) ≡ false) }
        ensures set { IfOk result (λ p. (d : SetKeys) → (slice_index_or self.new.sets.items p d).set ≡ set) }
        ensures keys { (n : ℕ) → keys_of self.new.sets.items n ≡ keys_of self.old.sets.items n }
    {
        let place = self.place_of(set);
        if place == self.sets.len() {
            self.sets.push(SetKeys {
                set,
                keys: Keys::new(alloc),
            })?;
        }
        Ok(place)
    }

    /// The place of a set, or the end.
    fn place_of(&self, set: u32) -> usize
        ensures within { result ≤ length self.now.sets.items }
        ensures first { has_set set (take result self.now.sets.items) ≡ false }
        ensures set { (d : SetKeys) → result < length self.now.sets.items
            → (slice_index_or self.now.sets.items result d).set ≡ set }
    {
        let mut place = 0;
        while place < self.sets.len() {
            if self.sets[place].set == set {
                return place;
            }
            place += 1;
        }
        place
    }
}
