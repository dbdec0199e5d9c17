ghost use Rattle.std.specs.Prelude.{◌≡◌, true, None, Some, OnOk, OnErr, false};
ghost use Rattle.office_core.specs.declared.history.Act.TheVariants as act;
ghost use Rattle.office_core.specs.Boxes.{took};
ghost use Rattle.office_core.specs.Answers.{is_open};
ghost use Rattle.office_core.specs.Legal.{is_acting};
ghost use Rattle.office_plain.specs.View.{setting_of, past_in, Adds};
ghost use Rattle.office_plain.specs.Entries.{entry};

use crate::answering::answer_if_open;
use crate::office::Office;
use crate::weights::outcome_weight;
use behaviour_tree::Outcome;
use office_core::{Act, Entry};
use std::alloc::AllocError;

impl Office {
    /// The session answers a message that it took.
    pub fn reply(&mut self, session: u32, message: u32, outcome: Outcome) -> Result<(), AllocError>
        requires acts { is_acting (setting_of self.old) (past_in self.old) session ≡ true }
        requires took { took (past_in self.old) session message ≡ true }
        requires open { is_open (setting_of self.old) (past_in self.old) message ≡ true }
        ensures added { OnOk result (Adds (Some (entry session (act.Reply message outcome))) self.old self.new) }
        ensures ready { OnOk result (self.new.spent ≡ false) }
        ensures able { OnOk result (self.old.out_of_memory ≡ false) }
        ensures lasting { OnErr result (self.new.out_of_memory ≡ true) }
        ensures unchanged { OnErr result (Adds None self.old self.new) }
    {
        self.begin()?;
        let copy = outcome.copied()?;
        let weight = outcome_weight(&outcome);
        self.kept.weight = self.kept.weight.saturating_add(weight);
        answer_if_open(&mut self.kept.book, message, copy);
        self.log.put(Entry {
            actor: session,
            act: Act::Reply { message, outcome },
        });
        self.out_of_memory = false;
        Ok(())
    }
}
