ghost use Rattle.office_core.specs.Laws.{AcceptsByReply, AnswersOnce, GrowsByOne, NumbersCalls, SendsMessages, StaysLegal};

/// Does nothing: its clauses say what holds of every legal history.
pub fn legal_histories_answer_once()
    ensures answered { AnswersOnce }
{}

/// Does nothing: the calls of each session of a legal history are numbered from 0.
pub fn legal_histories_number_calls()
    ensures numbered { NumbersCalls }
{}

/// Does nothing: what sessions of a legal history sent to services of the program are messages.
pub fn legal_histories_send_messages()
    ensures sent { SendsMessages }
{}

/// Does nothing: its clauses say what one entry more makes of a history.
pub fn histories_grow_by_entries()
    ensures grows { GrowsByOne }
    ensures legal { StaysLegal }
{}

/// Does nothing: a legal entry accepts a message exactly where its reply says so.
pub fn legal_entries_accept_by_reply()
    ensures by_reply { AcceptsByReply }
{}
