ghost use Rattle.std.specs.Prelude.{◌≡◌, nat_le, true, None, IfOk, OnErr, OnOk, false};
ghost use Rattle.office_core.specs.Limits.{first_worker};
ghost use Rattle.office_core.specs.Keys.{first};
ghost use Rattle.office_core.specs.Answers.{answers};
ghost use Rattle.office_core.specs.Legal.{is_collectable};
ghost use Rattle.office_plain.specs.View.{setting_of, past_in, Adds};
ghost use Rattle.office_plain.specs.Entries.{collect_entry};

use crate::office::Office;
use behaviour_tree::Outcome;
use office_core::{Act, Entry};
use std::alloc::AllocError;

impl Office {
    /// The answer of a message that came in at a port; none where it has none yet.
    pub fn collect(&mut self, actor: u32, message: u32) -> Result<Option<Outcome>, AllocError>
        requires worker { nat_le first_worker actor ≡ true }
        requires collectable { is_collectable (past_in self.old) actor message ≡ true }
        ensures answer { IfOk result (λ o. o ≡ first (answers (setting_of self.old) (past_in self.old) message)) }
        ensures added { IfOk result (λ o. Adds (collect_entry actor message o) self.old self.new) }
        ensures ready { OnOk result (self.new.spent ≡ false) }
        ensures able { OnOk result (self.old.out_of_memory ≡ false) }
        ensures lasting { OnErr result (self.new.out_of_memory ≡ true) }
        ensures unchanged { OnErr result (Adds None self.old self.new) }
    {
        self.begin()?;
        let Some(outcome) = self.kept.book.outcome(message) else {
            self.out_of_memory = false;
            return Ok(None);
        };
        let outcome = outcome.copied()?;
        let answer = self.kept.book.collect(message);
        self.log.put(Entry {
            actor,
            act: Act::Collect { message, outcome },
        });
        self.out_of_memory = false;
        Ok(answer)
    }
}
