ghost use Rattle.jsonrpc_text.specs.Laws.{TreesReadBack, TypedTreesReadBack, SaysValues, SaysFaults, SaysRefusals, AnswersAreShallow, PostsSome};

/// A tree that is written and read again is that tree, but for longs in the range of ints; of a type
/// that names the kind of each root it is the same tree once it is widened.
pub fn trees_read_back()
    ensures trees { TreesReadBack }
    ensures typed { TypedTreesReadBack }
{}

/// An answer is the response that it says, and nests no deeper than what is read.
pub fn answers_say_their_outcomes()
    ensures values { SaysValues }
    ensures faults { SaysFaults }
    ensures refusals { SaysRefusals }
    ensures shallow { AnswersAreShallow }
{}

/// A text posts at least one call or refusal, and exactly one where it is no batch.
pub fn texts_post_some()
    ensures { PostsSome }
{}
