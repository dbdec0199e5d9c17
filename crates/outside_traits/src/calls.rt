//! The calls of a wire, in their order.
ghost use Rattle.std.specs.Prelude.{◌≡◌, [], ◌∷◌, Some, IfSome};
ghost use Rattle.outside_traits.specs.Told.{Lists};

use std::alloc::Global;
use std::marker::Model;

/// A call of a wire: a read that gave so many bytes, or a write that took so many. It is none where the call failed.
#[derive(Clone, Copy, Debug, PartialEq, Eq)]
pub enum WireCall {
    Read(usize),
    Wrote(usize),
}

/// The calls of a wire, which are noted for as long as there is memory for it.
#[derive(Drop)]
pub(crate) struct Calls {
    noted: Vec<WireCall>,
    is_whole: bool,
}

impl Model for Calls {
    ghost use Rattle.std.specs.Prelude.{Option, None, Some, List, if◌then◌else◌};
    ghost use Rattle.outside_traits.specs.declared.calls.WireCall.{WireCall};

    ghost Value = { Option (List WireCall) };

    ghost view = { λ c. if c.is_whole then Some c.noted.items else None };
}

impl Calls {
    pub(crate) fn new(alloc: Global) -> Calls
        ensures { result ≡ Some [] }
    {
        Calls {
            noted: Vec::new(alloc),
            is_whole: true,
        }
    }

    /// Notes one more call.
    pub(crate) fn note(&mut self, call: WireCall)
        ensures { Lists self.old self.new (call ∷ []) }
    {
        if self.noted.push(call).is_err() {
            self.is_whole = false;
        }
    }

    /// The calls that were noted: all, where they are told.
    pub(crate) fn noted(&self) -> &[WireCall]
        ensures { IfSome self.now (λ calls. result.now ≡ calls) }
    {
        self.noted.as_slice()
    }
}
