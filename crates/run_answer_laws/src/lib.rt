//! What a session answered before it ended, and for whom the stop of a run answers.
#![tactic(auto)]

mod laws;

pub use laws::sessions_answer_before_they_end;
