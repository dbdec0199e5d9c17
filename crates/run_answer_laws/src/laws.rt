ghost use Rattle.run_answer_laws.specs.Laws.{AnswersBeforeEnd, StopsLive};

use session_calculus::runs_keep_their_promises;

/// Its clauses say what a session answered before it ended, and that the stop answers for sessions that live.
pub fn sessions_answer_before_they_end()
    ensures answered { AnswersBeforeEnd }
    ensures stopped { StopsLive }
{
    runs_keep_their_promises();
}
