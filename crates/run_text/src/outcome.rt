ghost use Rattle.std.specs.Prelude.{◌≡◌, [], ◌∷◌, OnOk, codes, decimal};
ghost use Rattle.run_text.specs.Nodes.{root_text, tree_text};
ghost use Rattle.run_text.specs.Words.{binding_words, outcome_words, placed_words, reason_words, reply_words};
ghost use Rattle.run_text.specs.Writing.{after};

use crate::tree::{push_root, push_tree};
use crate::writer::Writer;
use behaviour_tree::{Outcome, Reason};
use correlation::BindReply;
use jolie_trees::{Root, Tree};
use office_core::{Placed, PostReply};
use std::alloc::AllocError;

impl Writer {
    pub fn tree(&mut self, tree: &Tree) -> Result<(), AllocError>
        ensures { OnOk result (self.new ≡ after self.old (tree_text tree.now ∷ [])) }
    {
        self.push(" ")?;
        push_tree(self, tree)
    }

    pub fn root(&mut self, root: &Root) -> Result<(), AllocError>
        ensures { OnOk result (self.new ≡ after self.old (root_text root.now ∷ [])) }
    {
        self.push(" ")?;
        push_root(self, root)
    }

    pub fn outcome(&mut self, outcome: &Outcome) -> Result<(), AllocError>
        ensures { OnOk result (self.new ≡ after self.old (outcome_words outcome.now)) }
    {
        match outcome {
            Outcome::Value(tree) => {
                self.word("value")?;
                self.tree(tree)
            }
            Outcome::Fault { name, value } => {
                self.word("fault")?;
                self.string(name)?;
                self.tree(value)
            }
            Outcome::Refused(reason) => self.refusal(*reason),
        }
    }

    pub fn post_reply(&mut self, reply: PostReply) -> Result<(), AllocError>
        ensures { OnOk result (self.new ≡ after self.old (reply_words reply)) }
    {
        match reply {
            PostReply::Accepted(message) => self.accepted(message),
            PostReply::Refused(reason) => self.refusal(reason),
        }
    }

    pub fn placed(&mut self, placed: Placed) -> Result<(), AllocError>
        ensures { OnOk result (self.new ≡ after self.old (placed_words placed)) }
    {
        match placed {
            Placed::At(message) => self.accepted(message),
            Placed::Refused(reason) => self.refusal(reason),
            Placed::Out => self.word("out"),
        }
    }

    pub fn binding(&mut self, reply: BindReply) -> Result<(), AllocError>
        ensures { OnOk result (self.new ≡ after self.old (binding_words reply)) }
    {
        match reply {
            BindReply::Bound => self.word("bound"),
            BindReply::Held(session) => {
                self.word("held")?;
                self.number(session.into())
            }
            BindReply::Fixed => self.word("fixed"),
        }
    }

    fn accepted(&mut self, message: u32) -> Result<(), AllocError>
        ensures { OnOk result (self.new ≡ after self.old (codes "ok" ∷ (decimal message ∷ []))) }
    {
        self.word("ok")?;
        self.number(message.into())
    }

    fn refusal(&mut self, reason: Reason) -> Result<(), AllocError>
        ensures { OnOk result (self.new ≡ after self.old (reason_words reason)) }
    {
        self.word("refused")?;
        self.long(reason.code())
    }
}
