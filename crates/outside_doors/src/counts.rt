//! The counts of a door, and those of what opens doors.
ghost use Rattle.std.specs.Prelude.{◌≡◌, ◌≤◌, true};
ghost use Rattle.outside_traits.specs.Causes.{Rose};
ghost use Rattle.outside_doors.specs.Counts.{added, no_tally, rested, untried, with_door, with_opened, with_return};

use std::marker::Model;

/// What a door tells of itself.
#[derive(Drop)]
pub struct DoorCounts {
    place: u64,
    faults: u64,
    wires: u64,
    waits: u64,
    rests: u64,
    waits_in_a_row: u64,
    rests_in_a_row: u64,
    is_closed: bool,
}

impl Model for DoorCounts {
    ghost use Rattle.outside_doors.specs.Counts.{DoorTold};

    ghost Value = { DoorTold };

    ghost view = { λ c. record {
      place = c.place;
      faults = c.faults;
      wires = c.wires;
      waits = c.waits;
      rests = c.rests;
      waits_in_a_row = c.waits_in_a_row;
      rests_in_a_row = c.rests_in_a_row;
      closed = c.is_closed;
    } };
}

impl DoorCounts {
    /// Those of a door of this place that was not tried yet.
    pub fn new(place: u64) -> DoorCounts
        ensures { result ≡ untried place }
    {
        DoorCounts {
            place,
            faults: 0,
            wires: 0,
            waits: 0,
            rests: 0,
            waits_in_a_row: 0,
            rests_in_a_row: 0,
            is_closed: false,
        }
    }

    /// The same counts once more.
    pub(crate) fn copy(&self) -> DoorCounts
        ensures { result ≡ self.now }
    {
        DoorCounts {
            place: self.place,
            faults: self.faults,
            wires: self.wires,
            waits: self.waits,
            rests: self.rests,
            waits_in_a_row: self.waits_in_a_row,
            rests_in_a_row: self.rests_in_a_row,
            is_closed: self.is_closed,
        }
    }

    /// How many doors had been opened before it.
    pub fn place(&self) -> u64
        ensures { result ≡ self.now.place }
    {
        self.place
    }

    /// How often a try has failed.
    pub fn faults(&self) -> u64
        ensures { result ≡ self.now.faults }
    {
        self.faults
    }

    /// How many wires the door gave.
    pub fn wires(&self) -> u64
        ensures { result ≡ self.now.wires }
    {
        self.wires
    }

    /// How often it answered that nobody has come yet.
    pub fn waits(&self) -> u64
        ensures { result ≡ self.now.waits }
    {
        self.waits
    }

    /// How often it was rested at.
    pub fn rests(&self) -> u64
        ensures { result ≡ self.now.rests }
    {
        self.rests
    }

    /// Whether it has answered that nobody comes any more.
    pub fn is_closed(&self) -> bool
        ensures { result ≡ self.now.closed }
    {
        self.is_closed
    }

    /// Counts a try that failed.
    pub fn add_fault(&mut self)
        ensures faults { self.new ≡ record self.old { faults = added self.old.faults 1 } }
        ensures rose { Rose self.old.faults self.new.faults }
        ensures later { self.old.faults ≤ self.new.faults }
    {
        self.faults = self.faults.saturating_add(1);
    }

    /// Counts a wire that the door gave.
    pub fn add_wire(&mut self)
        ensures { self.new ≡ record self.old {
          wires = added self.old.wires 1;
          waits_in_a_row = 0;
          rests_in_a_row = 0;
        } }
    {
        self.wires = self.wires.saturating_add(1);
        self.waits_in_a_row = 0;
        self.rests_in_a_row = 0;
    }

    /// Counts an answer that nobody has come yet.
    pub fn add_wait(&mut self)
        ensures { self.new ≡ record self.old {
          waits = added self.old.waits 1;
          waits_in_a_row = added self.old.waits_in_a_row 1;
        } }
    {
        self.waits = self.waits.saturating_add(1);
        self.waits_in_a_row = self.waits_in_a_row.saturating_add(1);
    }

    /// Counts a rest.
    pub fn add_rest(&mut self)
        ensures { self.new ≡ rested self.old }
    {
        self.rests = self.rests.saturating_add(1);
        self.rests_in_a_row = self.rests_in_a_row.saturating_add(1);
    }

    /// Notes the answer that nobody comes any more.
    pub fn close(&mut self)
        ensures { self.new ≡ record self.old { closed = true } }
    {
        self.is_closed = true;
    }
}

/// What is counted of the doors that were opened, and of the doors and wires that came back.
#[derive(Drop)]
pub struct Counts {
    opened: u64,
    doors_back: u64,
    doors_ended: u64,
    wires_given: u64,
    wires_back: u64,
    wires_lost: u64,
    wires_cut: u64,
    wires_ended: u64,
    waits: u64,
}

impl Model for Counts {
    ghost use Rattle.outside_doors.specs.Counts.{Tally};

    ghost Value = { Tally };

    ghost view = { λ c. record {
      opened = c.opened;
      doors_back = c.doors_back;
      doors_ended = c.doors_ended;
      wires_given = c.wires_given;
      wires_back = c.wires_back;
      wires_lost = c.wires_lost;
      wires_cut = c.wires_cut;
      wires_ended = c.wires_ended;
      waits = c.waits;
    } };
}

impl Counts {
    /// Those before anything was opened.
    pub fn new() -> Counts
        ensures { result ≡ no_tally }
    {
        Counts {
            opened: 0,
            doors_back: 0,
            doors_ended: 0,
            wires_given: 0,
            wires_back: 0,
            wires_lost: 0,
            wires_cut: 0,
            wires_ended: 0,
            waits: 0,
        }
    }

    /// The doors that were opened.
    pub fn opened(&self) -> u64
        ensures { result ≡ self.now.opened }
    {
        self.opened
    }

    /// The doors that came back.
    pub fn doors_back(&self) -> u64
        ensures { result ≡ self.now.doors_back }
    {
        self.doors_back
    }

    /// Those of them that had answered that nobody comes any more, or had failed.
    pub fn doors_ended(&self) -> u64
        ensures { result ≡ self.now.doors_ended }
    {
        self.doors_ended
    }

    /// The wires that the doors which came back had given.
    pub fn wires_given(&self) -> u64
        ensures { result ≡ self.now.wires_given }
    {
        self.wires_given
    }

    /// The wires that came back.
    pub fn wires_back(&self) -> u64
        ensures { result ≡ self.now.wires_back }
    {
        self.wires_back
    }

    /// Those of them of which a read had failed.
    pub fn wires_lost(&self) -> u64
        ensures { result ≡ self.now.wires_lost }
    {
        self.wires_lost
    }

    /// Those of the wires that came back of which a write had failed before they were closed.
    pub fn wires_cut(&self) -> u64
        ensures { result ≡ self.now.wires_cut }
    {
        self.wires_cut
    }

    /// Those of the wires that came back of which a read had told the end of what comes in.
    pub fn wires_ended(&self) -> u64
        ensures { result ≡ self.now.wires_ended }
    {
        self.wires_ended
    }

    /// The waits of the doors and wires that came back.
    pub fn waits(&self) -> u64
        ensures { result ≡ self.now.waits }
    {
        self.waits
    }

    /// Counts a door that was opened.
    pub fn add_opened(&mut self)
        ensures { self.new ≡ with_opened self.old }
    {
        self.opened = self.opened.saturating_add(1);
    }

    /// Counts a door that came back.
    pub fn add_door(&mut self, door: &DoorCounts)
        ensures { self.new ≡ with_door door.now self.old }
    {
        self.doors_back = self.doors_back.saturating_add(1);
        if door.is_closed || door.faults != 0 {
            self.doors_ended = self.doors_ended.saturating_add(1);
        }
        self.wires_given = self.wires_given.saturating_add(door.wires);
        self.waits = self.waits.saturating_add(door.waits);
    }

    /// Counts a wire that came back: whether a read of it had failed, whether a write had, whether it had ended, and how
    /// often it had waited.
    pub fn add_wire(&mut self, is_lost: bool, is_cut: bool, has_ended: bool, waits: u64)
        ensures { self.new ≡ with_return is_lost is_cut has_ended waits self.old }
    {
        self.wires_back = self.wires_back.saturating_add(1);
        self.waits = self.waits.saturating_add(waits);
        if is_lost {
            self.wires_lost = self.wires_lost.saturating_add(1);
        }
        if is_cut {
            self.wires_cut = self.wires_cut.saturating_add(1);
        }
        if has_ended {
            self.wires_ended = self.wires_ended.saturating_add(1);
        }
    }
}
