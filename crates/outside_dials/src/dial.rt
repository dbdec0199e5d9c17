ghost use Rattle.std.specs.Prelude.{◌≡◌, ◌||◌, false, IfOk};
ghost use Rattle.outside_traits.specs.Causes.{HasCause};
ghost use Rattle.outside_dials.specs.Dials.{CountsWire, DialTold, Dials, IsNew, Tells, WireTraffic, traffic};

use outside_traits::{Failed, Wire};

/// The way to a wire of one's own to a location. Each wire comes back once its user is through with it.
pub trait Dial {
    type W: Wire;

    /// What is told of a wire before anything was done with it.
    ghost blank: { WireTraffic };

    /// What the dialler tells.
    ghost told: { Self → DialTold };

    /// A new wire to a location.
    fn dial(&mut self, location: &str) -> Result<Self::W, Failed>
        ensures dialled { Dials (told self.old).dialled (told self.new).dialled location.now }
        ensures last { (told self.new).last ≡ (told self.old).last }
        ensures blank { IsNew blank }
        ensures fresh { IfOk result (λ wire. traffic (Self.W.told wire) ≡ blank) }
        ensures open { IfOk result (λ wire. (Self.W.told wire).closed ≡ false) }
        ensures cause { HasCause (told self.old).faults (told self.new).faults result };

    /// Takes a wire back, and closes it.
    fn back(&mut self, wire: Self::W)
        ensures dialled { (told self.new).dialled ≡ (told self.old).dialled }
        ensures last { Tells (told self.new).last (traffic (Self.W.told wire)) }
        ensures counts { CountsWire ((Self.W.told wire).read_failed || (Self.W.told wire).write_failed)
            (told self.old).faults (told self.new).faults };
}
