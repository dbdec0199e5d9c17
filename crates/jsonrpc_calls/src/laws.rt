ghost use Rattle.jsonrpc_calls.specs.Laws.{KeepsCodes, ReadsNames};

/// Does nothing: a code is read as the reason that has it, and no code of a named reason as another.
pub fn codes_are_reasons()
    ensures names { ReadsNames }
    ensures codes { KeepsCodes }
{}
