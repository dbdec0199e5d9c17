ghost use Rattle.std.specs.Prelude.{◌≡◌, true, None, Some, OnOk, OnErr, false};
ghost use Rattle.office_core.specs.declared.history.Act.TheVariants as act;
ghost use Rattle.office_core.specs.Legal.{is_at_work, is_fetched};
ghost use Rattle.office_plain.specs.View.{setting_of, past_in, Adds};
ghost use Rattle.office_plain.specs.Entries.{entry};

use crate::office::Office;
use behaviour_tree::Outcome;
use office_core::{Act, Entry};
use std::alloc::AllocError;

impl Office {
    /// The worker that fetched a call brings its outcome.
    pub fn answered(
        &mut self,
        actor: u32,
        session: u32,
        call: u32,
        outcome: Outcome,
    ) -> Result<(), AllocError>
        requires works { is_at_work (past_in self.old) actor ≡ true }
        requires fetched { is_fetched (past_in self.old) actor session call ≡ true }
        ensures added { OnOk result (Adds (Some (entry actor (act.Answered session call outcome))) self.old
            self.new) }
        ensures ready { OnOk result (self.new.spent ≡ false) }
        ensures able { OnOk result (self.old.out_of_memory ≡ false) }
        ensures lasting { OnErr result (self.new.out_of_memory ≡ true) }
        ensures unchanged { OnErr result (Adds None self.old self.new) }
    {
        self.begin()?;
        let copy = outcome.copied()?;
        let Some(place) = self.kept.place(session, call) else {
            unreachable!()
        };
        self.kept.outcomes.set(place, Some(copy));
        self.log.put(Entry {
            actor,
            act: Act::Answered {
                session,
                call,
                outcome,
            },
        });
        self.out_of_memory = false;
        Ok(())
    }
}
