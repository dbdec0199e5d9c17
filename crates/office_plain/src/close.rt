ghost use Rattle.std.specs.Prelude.{◌≡◌, true, false, Some, None, if◌then◌else◌};
ghost use Rattle.office_core.specs.declared.history.Act.TheVariants as act;
ghost use Rattle.office_core.specs.Past.{some_entry, closes};
ghost use Rattle.office_core.specs.Legal.{is_at_work};
ghost use Rattle.office_plain.specs.View.{setting_of, past_in, Adds};
ghost use Rattle.office_plain.specs.Entries.{entry};

use crate::answering::answer_below;
use crate::office::Office;
use behaviour_tree::in_u32;
use office_core::{Act, Entry};

impl Office {
    /// Notes the end of input, once.
    pub fn close(&mut self, actor: u32)
        requires { is_at_work (past_in self.old) actor ≡ true }
        ensures added { Adds
            (if some_entry (past_in self.old) closes then None else Some (entry actor act.Close)) self.old self.new }
        ensures ready { self.new.spent ≡ self.old.spent }
        ensures able { self.new.out_of_memory ≡ self.old.out_of_memory }
    {
        if self.closed {
            return;
        }
        self.closed = true;
        self.log.put_kept(Entry {
            actor,
            act: Act::Close,
        });
    }

    /// Stops the run: each open request is answered so.
    pub fn stop(&mut self, actor: u32)
        requires { is_at_work (past_in self.old) actor ≡ true }
        ensures added { Adds (Some (entry actor act.Stop)) self.old self.new }
        ensures ready { self.new.spent ≡ self.old.spent }
        ensures able { self.new.out_of_memory ≡ self.old.out_of_memory }
    {
        answer_below(&mut self.kept.book, in_u32(self.kept.messages.len()));
        self.log.put_kept(Entry {
            actor,
            act: Act::Stop,
        });
    }
}
