ghost use Rattle.std.specs.Prelude.{◌≡◌, true, None, IfOk, OnErr, OnOk, false};
ghost use Rattle.office_core.specs.declared.outgoing.OutKind.TheVariants as outs;
ghost use Rattle.office_core.specs.Legal.{is_at_work};
ghost use Rattle.office_plain.specs.Entries.{fetch_entry};
ghost use Rattle.office_plain.specs.Replies.{next_outgoing};
ghost use Rattle.office_plain.specs.View.{setting_of, past_in, Adds};
ghost use Rattle.office_plain.specs.Ways.{queue_after};

use crate::kept::Kept;
use crate::office::Office;
use office_core::{Act, Entry, OutKind, Outgoing};
use std::alloc::AllocError;

impl Office {
    /// The oldest call of a kind that goes out and that nobody fetched yet; none where none is.
    pub fn fetch(&mut self, actor: u32, kind: OutKind) -> Result<Option<Outgoing>, AllocError>
        requires { is_at_work (past_in self.old) actor ≡ true }
        ensures call { IfOk result (λ c. c ≡ next_outgoing (setting_of self.old) (past_in self.old) kind) }
        ensures added { IfOk result (λ c. Adds (fetch_entry actor c) self.old self.new) }
        ensures ready { OnOk result (self.new.spent ≡ false) }
        ensures able { OnOk result (self.old.out_of_memory ≡ false) }
        ensures lasting { OnErr result (self.new.out_of_memory ≡ true) }
        ensures unchanged { OnErr result (Adds None self.old self.new) }
    {
        self.begin()?;
        let Some(place) = self.kept.first_outgoing(kind) else {
            self.out_of_memory = false;
            return Ok(None);
        };
        let Some(outgoing) = self.kept.outgoing(place)? else {
            self.out_of_memory = false;
            return Ok(None);
        };
        pass(&mut self.kept, kind);
        self.log.put(Entry {
            actor,
            act: Act::Fetch {
                session: outgoing.session,
                call: outgoing.call,
            },
        });
        self.out_of_memory = false;
        Ok(Some(outgoing))
    }
}

/// The call that waits first in the queue of a kind waits no more.
fn pass(kept: &mut Kept, kind: OutKind)
    ensures { kept.new ≡ record kept.old {
      console = queue_after outs.Console kind kept.old.console;
      remote = queue_after outs.Remote kind kept.old.remote;
    } }
{
    match kind {
        OutKind::Console => kept.console.pass(),
        OutKind::Remote => kept.remote.pass(),
    }
}
