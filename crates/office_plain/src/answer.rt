ghost use Rattle.std.specs.Prelude.{◌≡◌, ℕ, true, None, IfOk, OnErr, OnOk, false};
ghost use Rattle.reqresp_book.specs.View.{standing_of, HaveSameOrigins};
ghost use Rattle.office_core.specs.Legal.{is_acting, is_wanted};
ghost use Rattle.office_core.specs.Calls as calls;
ghost use Rattle.office_plain.specs.View.{setting_of, past_in, Adds};
ghost use Rattle.office_plain.specs.Entries.{answer_entry};
ghost use Rattle.office_plain.specs.Rows.{message_of};
ghost use Rattle.office_plain.specs.Taken.{taken_out};

use crate::kept::Kept;
use crate::office::Office;
use behaviour_tree::Outcome;
use office_core::{Act, Entry};
use std::alloc::AllocError;

impl Office {
    /// The session takes the answer of its call; none where it has none yet.
    pub fn take_answer(&mut self, session: u32, call: u32) -> Result<Option<Outcome>, AllocError>
        requires acts { is_acting (setting_of self.old) (past_in self.old) session ≡ true }
        requires wanted { is_wanted (past_in self.old) session call ≡ true }
        ensures answer { IfOk result (λ o. o ≡ calls.result (setting_of self.old) (past_in self.old) session call) }
        ensures added { IfOk result (λ o. Adds (answer_entry session call o) self.old self.new) }
        ensures ready { OnOk result (self.new.spent ≡ false) }
        ensures able { OnOk result (self.old.out_of_memory ≡ false) }
        ensures lasting { OnErr result (self.new.out_of_memory ≡ true) }
        ensures unchanged { OnErr result (Adds None self.old self.new) }
    {
        self.begin()?;
        let Some(outcome) = self.kept.outcome(session, call)? else {
            self.out_of_memory = false;
            return Ok(None);
        };
        let answer = outcome.copied()?;
        take_out(&mut self.kept, session, call);
        self.log.put(Entry {
            actor: session,
            act: Act::Answer { call, outcome },
        });
        self.out_of_memory = false;
        Ok(Some(answer))
    }
}

/// Takes the answer of a call out of the book, where the call went to a service of the program.
fn take_out(kept: &mut Kept, session: u32, call: u32)
    ensures others { kept.new ≡ record kept.old { book = kept.new.book } }
    ensures origins { HaveSameOrigins kept.old.book kept.new.book }
    ensures standings { (n : ℕ) → standing_of kept.new.book n
        ≡ taken_out (message_of kept.old session call) n (standing_of kept.old.book n) }
{
    let Some(message) = kept.message_of(session, call) else {
        return;
    };
    kept.book.collect(message);
}
