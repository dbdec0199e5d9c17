ghost use Rattle.std.specs.Prelude.{◌≡◌, ◌||◌, [], None, Some, All, IfOk, IfSome, drop, map, option_map, string_bytes, false, true};
ghost use Rattle.outside_traits.specs.Causes.{HasCause};
ghost use Rattle.outside_dials.specs.Dials.{Dials, IsNew, Tells, CountsWire, IsFreshScripted, blank_in_memory, next_scripted, scripted_traffic, wire_given};

use crate::coming::Coming;
use crate::dial::Dial;
use crate::locations::Locations;
use outside_traits::{Failed, ScriptedWire, Wire};
use std::alloc::Global;
use std::marker::Model;

/// A dialler in memory, which gives wires in order or fails, as its script says of each call, whatever is dialled. It
/// fails behind the last of the script too, and where a wire that had failed comes back.
#[derive(Drop)]
pub struct ScriptedDial {
    coming: Coming<Option<ScriptedWire>>,
    dialled: Locations,
    last: Option<ScriptedWire>,
    faults: u64,
}

impl Model for ScriptedDial {
    ghost use Rattle.std.specs.Prelude.{◌≡◌, All, IfSome, true};
    ghost use Rattle.outside_dials.specs.Dials.{ScriptedSwitch, IsFreshScripted};

    ghost Value = { ScriptedSwitch };

    ghost view = { λ d. record { coming = d.coming; dialled = d.dialled; last = d.last; faults = d.faults } };

    ghost invariant = { λ d. All (λ o. IfSome o IsFreshScripted) d.coming × IfSome d.last (λ last. last.closed ≡ true) };
}

impl ScriptedDial {
    /// A dialler that gives these wires, which are as they were made, and fails where there is none.
    pub fn new(alloc: Global, script: Vec<Option<ScriptedWire>>) -> ScriptedDial
        requires { All (λ o. IfSome o IsFreshScripted) script.items }
        ensures coming { result.coming ≡ script.items }
        ensures dialled { result.dialled ≡ Some [] }
        ensures last { result.last ≡ None }
        ensures faults { result.faults ≡ 0 }
    {
        ScriptedDial {
            coming: Coming::new(script),
            dialled: Locations::new(alloc),
            last: None,
            faults: 0,
        }
    }

    /// The locations in order: all, where they are told.
    pub fn dialled(&self) -> &[String]
        ensures { IfSome self.now.dialled (λ locations. map string_bytes result.now ≡ locations) }
    {
        self.dialled.noted()
    }

    /// The last wire that came back, which is closed.
    pub fn last(&self) -> Option<&ScriptedWire>
        ensures wire { option_map (λ wire. wire.now) result ≡ self.now.last }
        ensures closed { IfSome self.now.last (λ last. last.closed ≡ true) }
    {
        self.last.as_ref()
    }
}

impl Dial for ScriptedDial {
    type W = ScriptedWire;

    ghost blank = { blank_in_memory };

    ghost told = { λ d. record { dialled = d.dialled; last = option_map scripted_traffic d.last; faults = d.faults } };

    fn dial(&mut self, location: &str) -> Result<ScriptedWire, Failed>
        ensures answer { wire_given result ≡ next_scripted self.old.coming }
        ensures coming { self.new.coming ≡ drop 1 self.old.coming }
        ensures dialled { Dials self.old.dialled self.new.dialled location.now }
        ensures last { option_map scripted_traffic self.new.last ≡ option_map scripted_traffic self.old.last }
        ensures blank { IsNew blank_in_memory }
        ensures fresh { IfOk result (λ wire. scripted_traffic wire ≡ blank_in_memory) }
        ensures open { IfOk result (λ wire. wire.closed ≡ false) }
        ensures cause { HasCause self.old.faults self.new.faults result }
    {
        self.dialled.note(location);
        match next_wire(&mut self.coming) {
            Some(wire) => Ok(wire),
            None => {
                self.faults = self.faults.saturating_add(1);
                Err(Failed)
            }
        }
    }

    fn back(&mut self, mut wire: ScriptedWire)
        ensures closed { IfSome self.new.last (λ last. last.closed ≡ true) }
        ensures dialled { self.new.dialled ≡ self.old.dialled }
        ensures last { Tells (option_map scripted_traffic self.new.last) (scripted_traffic wire) }
        ensures counts { CountsWire (wire.lost || wire.cut) self.old.faults self.new.faults }
    {
        wire.close();
        if wire.is_lost() || wire.is_cut() {
            self.faults = self.faults.saturating_add(1);
        }
        self.last = Some(wire);
    }
}

/// The wire that comes next, none where the call is to fail.
fn next_wire(coming: &mut Coming<Option<ScriptedWire>>) -> Option<ScriptedWire>
    requires { All (λ o. IfSome o IsFreshScripted) coming.old }
    ensures first { result ≡ next_scripted coming.old }
    ensures rest { coming.new ≡ drop 1 coming.old }
    ensures fresh { IfSome result IsFreshScripted }
    ensures left { All (λ o. IfSome o IsFreshScripted) coming.new }
{
    match coming.next() {
        None => None,
        Some(wire) => wire,
    }
}
