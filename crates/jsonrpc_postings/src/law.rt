//! What holds of every posting.

ghost use Rattle.std.specs.Prelude.{◌≡◌, ℕ, List, Some};
ghost use Rattle.behaviour_tree.specs.declared.words.Outcome.{Outcome};
ghost use Rattle.office_core.specs.Limits.{Setting, first_worker};
ghost use Rattle.office_core.specs.Past.{Past};
ghost use Rattle.run_record.specs.Postings.{told};
ghost use Rattle.run_theorem.specs.Texts.{Came, posting_of, response};
ghost use Rattle.jsonrpc_postings.specs.Told.{response_told};

/// Where it is told what the calls of a posting came to, the text that answers it is its response by the history.
pub fn told_texts_are_responses()
    ensures { (w : Setting) (past : Past) (came : Came) (j : ℕ) (outcomes : List Outcome)
        → told w past first_worker j (posting_of came) ≡ Some outcomes
        → response_told w.parts came outcomes ≡ response w past first_worker j came }
{}
