use crate::origin::Origin;
use behaviour_tree::Outcome;

/// How it stands with a message: it has no answer yet, it has one, or the answer was taken out.
#[derive(Drop)]
pub enum Standing {
    Open,
    Answered(Outcome),
    Collected,
}

/// What the book has of a message.
#[derive(Drop)]
pub struct Place {
    pub origin: Origin,
    pub standing: Standing,
}

impl Standing {
    ghost use Rattle.std.specs.Prelude.{◌≡◌};
    ghost use Rattle.std.specs.Option.{option_copied};
    ghost use Rattle.reqresp_book.specs.Standing.{collected, is_waiting, outcome_in};

    /// Whether there is no answer yet.
    pub fn is_open(&self) -> bool
        ensures { result ≡ is_waiting self.now }
    {
        matches!(self, Standing::Open)
    }

    /// The answer, until it was taken out.
    pub fn outcome(&self) -> Option<&Outcome>
        ensures { option_copied result ≡ outcome_in self.now }
    {
        match self {
            Standing::Answered(outcome) => Some(outcome),
            Standing::Open | Standing::Collected => None,
        }
    }

    /// Takes out the answer.
    pub fn collect(&mut self) -> Option<Outcome>
        ensures value { result ≡ outcome_in self.old }
        ensures after { self.new ≡ collected self.old }
    {
        if self.outcome().is_none() {
            return None;
        }
        match std::mem::replace(self, Standing::Collected) {
            Standing::Answered(outcome) => Some(outcome),
            Standing::Open | Standing::Collected => unreachable!(),
        }
    }
}
