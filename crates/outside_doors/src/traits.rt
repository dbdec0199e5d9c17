ghost use Rattle.std.specs.Prelude.{◌≡◌, ◌<◌, [], ◌∷◌, Ok, IsTrue, IfOk, OnErr, is_ok};
ghost use Rattle.outside_traits.specs.Causes.{HasCause, Rose};
ghost use Rattle.outside_doors.specs.Counts.{DoorTold, rested, untried, with_door, with_opened, with_wire};
ghost use Rattle.outside_doors.specs.Attempts.{ComesAt, IfCame, closed_after, waits_after, wires_after};
ghost use Rattle.outside_doors.specs.Attempts.{waits_in_a_row_after, rests_in_a_row_after};
ghost use Rattle.outside_traits.specs.Told.{Lists};
ghost use Rattle.outside_polling.specs.Polls.{shut_so};
ghost use Rattle.outside_doors.specs.Returns.{DoorsTold, try_told};

use outside_polling::PollWire;
use outside_traits::Failed;

/// What a try at a door finds: a connection, nobody yet, or that nobody comes any more.
#[derive(Drop)]
pub enum Accept<W> {
    Came(W),
    NotYet,
    Closed,
}

/// A door on which connections come in.
pub trait Door {
    type W: PollWire + Drop;

    /// What it tells of itself. Its faults rise with each try that fails, and stand else.
    ghost told: { Self → DoorTold };

    /// The next connection, if one has come. It tells at which door it came.
    fn try_accept(&mut self) -> Result<Accept<Self::W>, Failed>
        ensures comes { IfCame result (λ wire. ComesAt (told self.old).place (Self.W.told wire)) }
        ensures place { (told self.new).place ≡ (told self.old).place }
        ensures wires { (told self.new).wires ≡ wires_after result (told self.old).wires }
        ensures waits { (told self.new).waits ≡ waits_after result (told self.old).waits }
        ensures rests { (told self.new).rests ≡ (told self.old).rests }
        ensures waits_row { (told self.new).waits_in_a_row ≡ waits_in_a_row_after result (told self.old).waits_in_a_row }
        ensures rests_row { (told self.new).rests_in_a_row ≡ rests_in_a_row_after result (told self.old).rests_in_a_row }
        ensures closed { (told self.new).closed ≡ closed_after result (told self.old).closed }
        ensures stays { IsTrue (told self.old).closed → result ≡ Ok Accept.Closed }
        ensures cause { HasCause (told self.old).faults (told self.new).faults result };

    /// Waits for a while where nobody has come yet. A real door waits for at most 1,000 ms, and one in memory not at
    /// all.
    fn rest(&mut self)
        ensures { told self.new ≡ rested (told self.old) };
}

/// What opens doors, and takes them and their wires back.
pub trait Doors {
    type D: Door + Drop;

    /// What the doors tell.
    ghost told: { Self → DoorsTold };

    /// Opens a door at a location.
    fn open(&mut self, location: &str) -> Result<Self::D, Failed>
        ensures untried { IfOk result (λ door. Self.D.told door ≡ untried (told self.old).tally.opened) }
        ensures opened { IfOk result (λ _. (told self.new).tally ≡ with_opened (told self.old).tally) }
        ensures unopened { OnErr result ((told self.new).tally ≡ (told self.old).tally) }
        ensures listed { Lists (told self.old).tries (told self.new).tries
            (try_told location.now (is_ok result) ∷ []) }
        ensures returned { (told self.new).returned ≡ (told self.old).returned }
        ensures returned_doors { (told self.new).returned_doors ≡ (told self.old).returned_doors }
        ensures cause { HasCause (told self.old).faults (told self.new).faults result };

    /// Takes a wire that its user is through with, and closes it.
    fn wire_back(&mut self, wire: <Self::D as Door>::W)
        ensures tally { (told self.new).tally ≡ with_wire (Self.D.W.told wire) (told self.old).tally }
        ensures listed { Lists (told self.old).returned (told self.new).returned (shut_so (Self.D.W.told wire) ∷ []) }
        ensures returned_doors { (told self.new).returned_doors ≡ (told self.old).returned_doors }
        ensures tries { (told self.new).tries ≡ (told self.old).tries }
        ensures faults { (told self.new).faults ≡ (told self.old).faults };

    /// Takes a door that its user is through with, and closes it.
    fn door_back(&mut self, door: Self::D)
        ensures tally { (told self.new).tally ≡ with_door (Self.D.told door) (told self.old).tally }
        ensures listed { Lists (told self.old).returned_doors (told self.new).returned_doors (Self.D.told door ∷ []) }
        ensures tries { (told self.new).tries ≡ (told self.old).tries }
        ensures returned { (told self.new).returned ≡ (told self.old).returned }
        ensures raised { 0 < (Self.D.told door).faults → Rose (told self.old).faults (told self.new).faults }
        ensures unfailed { (Self.D.told door).faults ≡ 0 → (told self.new).faults ≡ (told self.old).faults };
}
