ghost use Rattle.std.specs.Prelude.{◌≡◌, true, None, IfOk, OnErr, OnOk, false};
ghost use Rattle.office_core.specs.Legal.{is_acting};
ghost use Rattle.office_plain.specs.View.{setting_of, past_in, Adds};
ghost use Rattle.office_plain.specs.Entries.{take_entry};
ghost use Rattle.office_plain.specs.Replies.{next_mail};

use crate::office::Office;
use office_core::{Act, Entry, Mail};
use std::alloc::AllocError;

impl Office {
    /// The session takes the oldest message of these operations; none where none waits.
    pub fn take(&mut self, session: u32, ops: &[u32]) -> Result<Option<Mail>, AllocError>
        requires { is_acting (setting_of self.old) (past_in self.old) session ≡ true }
        ensures mail { IfOk result (λ m. m ≡ next_mail (past_in self.old) session ops.now) }
        ensures added { IfOk result (λ m. Adds (take_entry session m) self.old self.new) }
        ensures ready { OnOk result (self.new.spent ≡ false) }
        ensures able { OnOk result (self.old.out_of_memory ≡ false) }
        ensures lasting { OnErr result (self.new.out_of_memory ≡ true) }
        ensures unchanged { OnErr result (Adds None self.old self.new) }
    {
        self.begin()?;
        let Some(message) = self.kept.boxes.first(session, ops) else {
            self.out_of_memory = false;
            return Ok(None);
        };
        let mail = self.kept.mail(message)?;
        self.kept.boxes.take(session, ops);
        self.log.put(Entry {
            actor: session,
            act: Act::Take { message },
        });
        self.out_of_memory = false;
        Ok(mail)
    }
}
