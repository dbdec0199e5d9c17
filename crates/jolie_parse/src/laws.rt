ghost use Rattle.jolie_parse.specs.Laws.{HaveAnAnswer, HaveOneTree, StopAtOnePlace};
ghost use Rattle.jolie_parse.specs.LeftOut.{StatementsMayBeLeftOut};

/// No tokens are a file in two ways.
pub fn tokens_have_one_tree()
    ensures { HaveOneTree }
{}

/// Tokens are a file, or there is one place where they stop beginning one.
pub fn tokens_stop_at_one_place()
    ensures { StopAtOnePlace }
{}

/// Whatever nesting is allowed, tokens are a file within it, or they have one of the two refusals.
pub fn tokens_have_an_answer()
    ensures { HaveAnAnswer }
{}

/// Statements that stand whole between two semicolons may be left out of what is a file or begins one.
pub fn statements_may_be_left_out()
    ensures { StatementsMayBeLeftOut }
{}
