//! The doors of a run.
ghost use Rattle.std.specs.Prelude.{◌≡◌, ◌==◌, not, false};

use outside_doors::Door;
use std::marker::Model;

/// A door of a run, and the service to which it leads.
#[derive(Drop)]
pub struct Listener<D: Door + Drop> {
    pub(crate) service: u32,
    pub(crate) door: D,
    pub(crate) ended: bool,
    pub(crate) failed: bool,
}

impl<D: Door + Drop> Model for Listener<D> {
    ghost use Rattle.std.specs.Prelude.{◌≡◌, ◌==◌, not};
    ghost use Rattle.outside_doors.specs.Counts.{has_ended};
    ghost use Rattle.run_door_front.specs.Keeping.{ListenerTold};

    ghost Value = { ListenerTold };

    ghost view = { λ p. record { service = p.service; door = D.told p.door } };

    ghost invariant = { λ p. (has_ended (D.told p.door) ≡ p.ended) × (not ((D.told p.door).faults == 0) ≡ p.failed) };
}

impl<D: Door + Drop> Listener<D> {
    /// A door that has not ended, and the service to which it leads.
    pub fn new(service: u32, door: D) -> Listener<D>
        requires faultless { (D.told door).faults ≡ 0 }
        requires unclosed { (D.told door).closed ≡ false }
        ensures { result ≡ record { service = service; door = D.told door } }
    {
        Listener {
            service,
            door,
            ended: false,
            failed: false,
        }
    }

    /// Whether a try at the door has failed.
    pub fn failed(&self) -> bool
        ensures { result ≡ not (self.now.door.faults == 0) }
    {
        self.failed
    }

    /// The door.
    pub fn into_door(self) -> D
        ensures { D.told result ≡ self.door }
    {
        let Listener {
            service: _,
            door,
            ended: _,
            failed: _,
        } = self;
        door
    }
}
