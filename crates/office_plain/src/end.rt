ghost use Rattle.std.specs.Prelude.{◌≡◌, true, None, Some, OnOk, OnErr, false};
ghost use Rattle.office_core.specs.declared.history.Act.TheVariants as act;
ghost use Rattle.office_core.specs.Legal.{is_acting};
ghost use Rattle.office_plain.specs.View.{setting_of, past_in, Adds};
ghost use Rattle.office_plain.specs.Entries.{entry};

use crate::answering::answer_waiting;
use crate::kept::end_row;
use crate::office::Office;
use office_core::{Act, Entry};
use std::alloc::AllocError;

impl Office {
    /// The session ends: open messages in its boxes are answered so, and its keys are free.
    pub fn end(&mut self, session: u32) -> Result<(), AllocError>
        requires { is_acting (setting_of self.old) (past_in self.old) session ≡ true }
        ensures added { OnOk result (Adds (Some (entry session act.End)) self.old self.new) }
        ensures ready { OnOk result (self.new.spent ≡ false) }
        ensures able { OnOk result (self.old.out_of_memory ≡ false) }
        ensures lasting { OnErr result (self.new.out_of_memory ≡ true) }
        ensures unchanged { OnErr result (Adds None self.old self.new) }
    {
        self.begin()?;
        end_row(&mut self.kept.sessions, session);
        answer_waiting(&mut self.kept.boxes, &mut self.kept.book, session);
        self.kept.rows.release(session);
        self.log.put(Entry {
            actor: session,
            act: Act::End,
        });
        self.out_of_memory = false;
        Ok(())
    }
}
