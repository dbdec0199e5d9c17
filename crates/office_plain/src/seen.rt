ghost use Rattle.std.specs.Prelude.{◌≡◌, true, false, is_some};
ghost use Rattle.office_core.specs.Legal.{is_acting, is_wanted};
ghost use Rattle.office_core.specs.Calls as calls;
ghost use Rattle.office_plain.specs.View.{setting_of, past_in};
ghost use Rattle.office_plain.specs.Replies.{next_mail};

use crate::office::Office;

impl Office {
    /// Whether the session would take a message of these operations.
    pub fn has_mail(&self, session: u32, ops: &[u32]) -> bool
        requires { is_acting (setting_of self.now) (past_in self.now) session ≡ true }
        ensures { self.now.spent ≡ false → result ≡ is_some (next_mail (past_in self.now) session ops.now) }
    {
        self.kept.boxes.first(session, ops).is_some()
    }

    /// Whether the session would take the answer of its call.
    pub fn has_answer(&self, session: u32, call: u32) -> bool
        requires acts { is_acting (setting_of self.now) (past_in self.now) session ≡ true }
        requires wanted { is_wanted (past_in self.now) session call ≡ true }
        ensures { self.now.spent ≡ false
            → result ≡ is_some (calls.result (setting_of self.now) (past_in self.now) session call) }
    {
        self.kept.has_outcome(session, call)
    }
}
