ghost use Rattle.run_order_laws.specs.Laws.{AnswersStay, OrderEnds, OrderGoesOn, OrderSoFar, PostedStays, ToldStays};

/// Does nothing: its clauses say what stays in every longer legal history.
pub fn answers_stay()
    ensures answers { AnswersStay }
    ensures told { ToldStays }
{}

/// Does nothing: what was posted stays with entries that are no posts.
pub fn postings_stay()
    ensures { PostedStays }
{}

/// Does nothing: its clauses say in which order postings are told.
pub fn postings_are_told_in_order()
    ensures goes_on { OrderGoesOn }
    ensures ends { OrderEnds }
    ensures early { OrderSoFar }
{}

/// Does nothing: a message that was just posted can be collected.
#[tactic(auto, using(crate::proofs::Accepting::uncollected_first))]
pub fn posts_are_messages() {}
