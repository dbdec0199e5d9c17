ghost use Rattle.std.specs.Prelude.{◌≡◌, ◌↔◌, ◌≤◌, IfOk, IsTrue, false, Contains};
ghost use Rattle.outside_traits.specs.Causes.{Rose};
ghost use Rattle.outside_traits.specs.Memory.{plan_of, IsNext};

use std::alloc::{AllocError, Global};
use std::marker::Model;

/// Which calls of an object fail: those of these numbers, from 0.
#[derive(Drop)]
pub struct Script {
    failing: Vec<u64>,
    call: u64,
    faults: u64,
}

impl Model for Script {
    ghost use Rattle.outside_traits.specs.Memory.{Plan};

    ghost Value = { Plan };

    ghost view = { λ s. record { failing = s.failing.items; call = s.call; faults = s.faults } };
}

impl Script {
    pub fn new(alloc: Global, failing: &[u64]) -> Result<Script, AllocError>
        ensures { IfOk result (λ script. script ≡ plan_of failing.now) }
    {
        let failing = Vec::from_slice(alloc, failing)?;
        Ok(Script {
            failing,
            call: 0,
            faults: 0,
        })
    }

    /// Whether the next call fails, which is counted then.
    pub(crate) fn fails(&mut self) -> bool
        ensures fails { IsTrue result ↔ Contains self.old.failing self.old.call }
        ensures rose { IsTrue result → Rose self.old.faults self.new.faults }
        ensures later { self.old.faults ≤ self.new.faults }
        ensures unfailed { result ≡ false → self.new.faults ≡ self.old.faults }
        ensures next { IsNext self.old self.new }
    {
        let call = self.call;
        self.call = call.saturating_add(1);
        let fails = self.failing.contains(&call);
        if fails {
            self.faults = self.faults.saturating_add(1);
        }
        fails
    }

    /// Counts a failure of which the script knows nothing.
    pub(crate) fn count_fault(&mut self)
        ensures rose { Rose self.old.faults self.new.faults }
        ensures later { self.old.faults ≤ self.new.faults }
        ensures call { self.new.call ≡ self.old.call }
        ensures failing { self.new.failing ≡ self.old.failing }
    {
        self.faults = self.faults.saturating_add(1);
    }
}
