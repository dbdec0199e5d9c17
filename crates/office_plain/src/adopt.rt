ghost use Rattle.std.specs.Prelude.{◌≡◌, true, None, IfOk, OnErr, OnOk, false};
ghost use Rattle.office_core.specs.Past.{is_running};
ghost use Rattle.office_plain.specs.View.{setting_of, past_in, Adds};
ghost use Rattle.office_plain.specs.Entries.{adopt_entry};
ghost use Rattle.office_plain.specs.Replies.{birth_of};

use crate::kept::SessionRow;
use crate::office::Office;
use office_core::{Act, Birth, Entry};
use std::alloc::AllocError;

impl Office {
    /// The birth of a session, once; none where it was not born, or was adopted.
    pub fn adopt(&mut self, session: u32) -> Result<Option<Birth>, AllocError>
        requires { is_running (past_in self.old) ≡ true }
        ensures birth { IfOk result (λ b. b ≡ birth_of (setting_of self.old) (past_in self.old) session) }
        ensures added { IfOk result (λ b. Adds (adopt_entry session b) self.old self.new) }
        ensures ready { OnOk result (self.new.spent ≡ false) }
        ensures able { OnOk result (self.old.out_of_memory ≡ false) }
        ensures lasting { OnErr result (self.new.out_of_memory ≡ true) }
        ensures unchanged { OnErr result (Adds None self.old self.new) }
    {
        self.begin()?;
        let Some(row) = self.kept.unadopted(session) else {
            self.out_of_memory = false;
            return Ok(None);
        };
        let service = row.service;
        let adopted = SessionRow {
            adopted: true,
            ..row
        };
        self.kept.sessions.set(session as usize, adopted);
        self.log.put(Entry {
            actor: session,
            act: Act::Adopt { service },
        });
        self.out_of_memory = false;
        Ok(Some(Birth { session, service }))
    }
}
