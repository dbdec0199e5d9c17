//! The turn: it is taken with the office, and given back with it.
ghost use Rattle.std.specs.Prelude.{◌≡◌, [], true, false, length, MatchBool};
ghost use Rattle.office_sharing.specs.Named.{parts_by};
ghost use Rattle.office_sharing.specs.Plays.{HasTaken, InHand, in_hand};
ghost use Rattle.office_sharing.specs.Views.{committed, off_turn};
ghost use Rattle.office_turn.specs.Hands.{HasCall, HasMade, HasOffice, settled};

use crate::office::SharedOffice;
use crate::pass::Chair;
use office_sharing::{Commit, GiveBack, Naming, TakeTurn};
use std::sync::Wait;
use std::thread;

impl<N: Naming> SharedOffice<N> {
    /// Takes the turn, and the office with it; the length of its history.
    pub(crate) fn take_turn<R: Wait>(&self, rt: &R, seat: &mut Chair) -> u64
        requires table { seat.old.table_id ≡ N.table }
        requires idle { seat.old.me.1 ≡ [] }
        requires calls { seat.old.me.0.may_call ≡ true }
        ensures table { seat.new.table_id ≡ seat.old.table_id }
        ensures turn { HasTaken (parts_by N.program) seat.old.me seat.new.me }
        ensures count { result ≡ length (in_hand seat.new.me.1) }
    {
        for _ in rt.forever() {
            if self.try_turn(seat) {
                return self.count_in_hand(seat);
            }
            thread::yield_now();
        }
        unreachable!()
    }

    /// Takes the turn where it is free.
    fn try_turn(&self, seat: &mut Chair) -> bool
        requires table { seat.old.table_id ≡ N.table }
        requires idle { seat.old.me.1 ≡ [] }
        requires calls { seat.old.me.0.may_call ≡ true }
        ensures table { seat.new.table_id ≡ seat.old.table_id }
        ensures turn { MatchBool result (HasTaken (parts_by N.program) seat.old.me seat.new.me)
            (seat.new.me ≡ seat.old.me) }
    {
        self.table
            .shared
            .compare_exchange::<TakeTurn<N>>(seat, 0, 0, 1)
            == 0
    }

    /// The length of the history of the office in the hand.
    fn count_in_hand(&self, seat: &mut Chair) -> u64
        requires table { seat.old.table_id ≡ N.table }
        requires hand { HasOffice (parts_by N.program) seat.old.me }
        ensures table { seat.new.table_id ≡ seat.old.table_id }
        ensures same { seat.new.me ≡ seat.old.me }
        ensures count { result ≡ length (in_hand seat.old.me.1) }
    {
        let office = seat.slot_mut(&self.table.shared, 0);
        office.history().entries.len() as u64
    }

    /// Counts the call that was made on the office in the hand.
    fn commit(&self, seat: &mut Chair)
        requires table { seat.old.table_id ≡ N.table }
        requires turn { seat.old.me.0.turn ≡ true }
        requires call { HasCall (parts_by N.program) seat.old.me }
        ensures table { seat.new.table_id ≡ seat.old.table_id }
        ensures committed { seat.new.me ≡ (committed seat.old.me.0 (in_hand seat.old.me.1), seat.old.me.1) }
    {
        self.table.shared.fetch_add::<Commit>(seat, 1, 1);
    }

    /// Gives the turn back, and the office with it.
    fn give_back(&self, seat: &mut Chair)
        requires table { seat.old.table_id ≡ N.table }
        requires turn { seat.old.me.0.turn ≡ true }
        requires hand { InHand (parts_by N.program) seat.old.me.0.seen seat.old.me }
        ensures table { seat.new.table_id ≡ seat.old.table_id }
        ensures gave { seat.new.me ≡ (off_turn seat.old.me.0, []) }
    {
        self.table.shared.store::<GiveBack>(seat, 0, 0);
    }

    /// Counts the call that was made, where the history is longer than before.
    fn commit_new(&self, seat: &mut Chair, before: u64, count: u64)
        requires table { seat.old.table_id ≡ N.table }
        requires turn { seat.old.me.0.turn ≡ true }
        requires made { HasMade (parts_by N.program) seat.old.me }
        requires before { before ≡ length seat.old.me.0.seen }
        requires count { count ≡ length (in_hand seat.old.me.1) }
        ensures table { seat.new.table_id ≡ seat.old.table_id }
        ensures committed { seat.new.me ≡ (committed seat.old.me.0 (in_hand seat.old.me.1), seat.old.me.1) }
    {
        if count <= before {
            return;
        }
        self.commit(seat);
    }

    /// Counts the call that was made, where one was, and gives the turn back; the length of the history.
    pub(crate) fn finish(&self, seat: &mut Chair, before: u64) -> u64
        requires table { seat.old.table_id ≡ N.table }
        requires turn { seat.old.me.0.turn ≡ true }
        requires made { HasMade (parts_by N.program) seat.old.me }
        requires before { before ≡ length seat.old.me.0.seen }
        ensures table { seat.new.table_id ≡ seat.old.table_id }
        ensures settled { seat.new.me ≡ (settled seat.old.me.0 (in_hand seat.old.me.1), []) }
        ensures count { result ≡ length (in_hand seat.old.me.1) }
    {
        let count = self.count_in_hand(seat);
        self.commit_new(seat, before, count);
        self.give_back(seat);
        count
    }
}
