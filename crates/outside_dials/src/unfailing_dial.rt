ghost use Rattle.std.specs.Prelude.{◌≡◌, [], None, Some, All, IfOk, IfSome, drop, map, option_map, string_bytes, false, true};
ghost use Rattle.outside_traits.specs.Causes.{HasCause};
ghost use Rattle.outside_dials.specs.Dials.{Dials, IsNew, Tells, CountsWire, IsFreshUnfailing, blank_in_memory, unfailed_traffic, next_unfailed, wire_given};

use crate::coming::Coming;
use crate::dial::Dial;
use crate::locations::Locations;
use outside_traits::{Failed, UnfailingWire, Wire};
use std::alloc::Global;
use std::marker::Model;

/// A dialler in memory, which gives wires in order, whatever is dialled. It fails only behind the last of them, and
/// where a wire that had failed comes back.
#[derive(Drop)]
pub struct UnfailingDial {
    coming: Coming<UnfailingWire>,
    dialled: Locations,
    last: Option<UnfailingWire>,
    faults: u64,
}

impl Model for UnfailingDial {
    ghost use Rattle.std.specs.Prelude.{◌≡◌, All, IfSome, true};
    ghost use Rattle.outside_dials.specs.Dials.{UnfailingSwitch, IsFreshUnfailing};

    ghost Value = { UnfailingSwitch };

    ghost view = { λ d. record { coming = d.coming; dialled = d.dialled; last = d.last; faults = d.faults } };

    ghost invariant = { λ d. All IsFreshUnfailing d.coming × IfSome d.last (λ last. last.closed ≡ true) };
}

impl UnfailingDial {
    /// A dialler that gives these wires, which are as they were made.
    pub fn new(alloc: Global, wires: Vec<UnfailingWire>) -> UnfailingDial
        requires { All IsFreshUnfailing wires.items }
        ensures coming { result.coming ≡ wires.items }
        ensures dialled { result.dialled ≡ Some [] }
        ensures last { result.last ≡ None }
        ensures faults { result.faults ≡ 0 }
    {
        UnfailingDial {
            coming: Coming::new(wires),
            dialled: Locations::new(alloc),
            last: None,
            faults: 0,
        }
    }

    /// The locations in order: all, where they are told.
    pub fn dialled(&self) -> &[String]
        ensures { IfSome self.now.dialled (λ locations. map string_bytes result.now ≡ locations) }
    {
        self.dialled.noted()
    }

    /// The last wire that came back, which is closed.
    pub fn last(&self) -> Option<&UnfailingWire>
        ensures wire { option_map (λ wire. wire.now) result ≡ self.now.last }
        ensures closed { IfSome self.now.last (λ last. last.closed ≡ true) }
    {
        self.last.as_ref()
    }
}

impl Dial for UnfailingDial {
    type W = UnfailingWire;

    ghost blank = { blank_in_memory };

    ghost told = { λ d. record { dialled = d.dialled; last = option_map unfailed_traffic d.last; faults = d.faults } };

    fn dial(&mut self, location: &str) -> Result<UnfailingWire, Failed>
        ensures answer { wire_given result ≡ next_unfailed self.old.coming }
        ensures coming { self.new.coming ≡ drop 1 self.old.coming }
        ensures dialled { Dials self.old.dialled self.new.dialled location.now }
        ensures last { option_map unfailed_traffic self.new.last ≡ option_map unfailed_traffic self.old.last }
        ensures blank { IsNew blank_in_memory }
        ensures fresh { IfOk result (λ wire. unfailed_traffic wire ≡ blank_in_memory) }
        ensures open { IfOk result (λ wire. wire.closed ≡ false) }
        ensures cause { HasCause self.old.faults self.new.faults result }
    {
        self.dialled.note(location);
        match self.coming.next() {
            Some(wire) => Ok(wire),
            None => {
                self.faults = self.faults.saturating_add(1);
                Err(Failed)
            }
        }
    }

    fn back(&mut self, mut wire: UnfailingWire)
        ensures closed { IfSome self.new.last (λ last. last.closed ≡ true) }
        ensures dialled { self.new.dialled ≡ self.old.dialled }
        ensures last { Tells (option_map unfailed_traffic self.new.last) (unfailed_traffic wire) }
        ensures counts { CountsWire wire.cut self.old.faults self.new.faults }
    {
        wire.close();
        if wire.is_cut() {
            self.faults = self.faults.saturating_add(1);
        }
        self.last = Some(wire);
    }
}
