ghost use Rattle.std.specs.Prelude.{◌≡◌, true, None, Some, IfOk, OnErr, OnOk, false};
ghost use Rattle.office_core.specs.declared.history.Act.TheVariants as act;
ghost use Rattle.office_core.specs.Legal.{bound, has_variable, is_acting};
ghost use Rattle.office_plain.specs.View.{setting_of, past_in, Adds};
ghost use Rattle.office_plain.specs.Entries.{entry};

use crate::office::Office;
use correlation::BindReply;
use jolie_trees::Root;
use office_core::{Act, Entry};
use std::alloc::AllocError;

impl Office {
    /// The session writes a correlation variable, unless it was written, or another session has the key.
    pub fn bind(
        &mut self,
        session: u32,
        variable: u32,
        value: Root,
    ) -> Result<BindReply, AllocError>
        requires acts { is_acting (setting_of self.old) (past_in self.old) session ≡ true }
        requires has { has_variable (setting_of self.old) (past_in self.old) session variable ≡ true }
        ensures reply { IfOk result
            (λ r. Some r ≡ bound (setting_of self.old) (past_in self.old) session variable value) }
        ensures added { IfOk result (λ r. Adds (Some (entry session (act.Bind variable value r))) self.old self.new) }
        ensures ready { OnOk result (self.new.spent ≡ false) }
        ensures able { OnOk result (self.old.out_of_memory ≡ false) }
        ensures lasting { OnErr result (self.new.out_of_memory ≡ true) }
        ensures unchanged { OnErr result (Adds None self.old self.new) }
    {
        self.begin()?;
        let copy = value.copied()?;
        let reply = self.kept.rows.bind(session, variable, copy)?;
        self.log.put(Entry {
            actor: session,
            act: Act::Bind {
                variable,
                value,
                reply,
            },
        });
        self.out_of_memory = false;
        Ok(reply)
    }
}
