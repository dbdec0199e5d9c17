//! What each step of a seat tells it.
use crate::naming::Naming;
use crate::view::View;
use atomic_table::{Join, Play, Split};
use office_plain::Office;
use std::marker::PhantomData;

/// The turn is taken, and the office with it, where it is free.
pub struct TakeTurn<N: Naming> {
    of: PhantomData<N>,
}

impl<N: Naming> Play<Office, View> for TakeTurn<N> {
    ghost use Rattle.office_sharing.specs.Named.{parts_by};
    ghost use Rattle.office_sharing.specs.Plays.{TakesTurn};

    ghost then = { TakesTurn (parts_by N.program) };
}

/// The call that was made on the office in the hand is counted.
pub struct Commit;

impl Play<Office, View> for Commit {
    ghost use Rattle.office_sharing.specs.Plays.{Commits};

    ghost then = { Commits };
}

/// The turn is given back, and the office with it.
pub struct GiveBack;

impl Play<Office, View> for GiveBack {
    ghost use Rattle.office_sharing.specs.Plays.{GivesBack};

    ghost then = { GivesBack };
}

/// All that was counted is seen.
pub struct Look<N: Naming> {
    of: PhantomData<N>,
}

impl<N: Naming> Play<Office, View> for Look<N> {
    ghost use Rattle.office_sharing.specs.Named.{parts_by};
    ghost use Rattle.office_sharing.specs.Plays.{Looks};

    ghost then = { Looks (parts_by N.program) };
}

/// The next number is given to a new seat.
pub struct Make;

impl Split<View> for Make {
    ghost use Rattle.office_sharing.specs.Views.{one_more, next_seat};

    ghost left = { one_more };

    ghost right = { next_seat };
}

/// A new seat has seen as much, and may not call.
pub struct Copied;

impl Split<View> for Copied {
    ghost use Rattle.office_sharing.specs.Views.{copied};

    ghost left = { λ v. v };

    ghost right = { copied };
}

/// What a seat has is another's too.
pub struct Merge;

impl Join<View> for Merge {
    ghost use Rattle.office_sharing.specs.Views.{merged, nobody};

    ghost both = { merged };

    ghost spent = { nobody };
}
