ghost use Rattle.std.specs.Prelude.{◌≡◌, OnOk, codes, decimal, [], ◌∷◌};
ghost use Rattle.run_text.specs.Strings.{text_string};
ghost use Rattle.run_text.specs.Nodes.{tree_text};
ghost use Rattle.run_text.specs.Words.{act_words, outcome_words};
ghost use Rattle.run_text.specs.Writing.{after};

use crate::writer::Writer;
use behaviour_tree::Outcome;
use office_core::{Act, Posted};
use std::alloc::AllocError;

impl Writer {
    pub fn act(&mut self, act: &Act) -> Result<(), AllocError>
        ensures { OnOk result (self.new ≡ after self.old (act_words act.now)) }
    {
        match act {
            Act::Post {
                posting,
                index,
                posted,
                reply,
            } => {
                self.word("post")?;
                self.word("p")?;
                self.number(u64::from(*posting))?;
                self.number(u64::from(*index))?;
                self.posted(posted)?;
                self.post_reply(*reply)
            }
            Act::Adopt { service } => self.one("adopt", *service),
            Act::Take { message } => self.one("take", *message),
            Act::Bind {
                variable,
                value,
                reply,
            } => {
                self.one("bind", *variable)?;
                self.root(value)?;
                self.binding(*reply)
            }
            Act::Reply { message, outcome } => self.ended("reply", *message, outcome),
            Act::Send {
                call,
                port,
                op,
                value,
                wants,
                placed,
            } => {
                self.two("send", *call, *port)?;
                self.number(u64::from(*op))?;
                self.tree(value)?;
                self.flag(*wants)?;
                self.placed(*placed)
            }
            Act::Answer { call, outcome } => self.ended("answer", *call, outcome),
            Act::End => self.word("end"),
            Act::Collect { message, outcome } => self.ended("collect", *message, outcome),
            Act::Fetch { session, call } => self.two("fetch", *session, *call),
            Act::Answered {
                session,
                call,
                outcome,
            } => {
                self.two("answered", *session, *call)?;
                self.outcome(outcome)
            }
            Act::Close => self.word("close"),
            Act::Stop => self.word("stop"),
        }
    }

    /// What was posted: its service, its operation and its value.
    fn posted(&mut self, posted: &Posted) -> Result<(), AllocError>
        ensures { OnOk result
            (self.new ≡ after self.old
            (decimal posted.now.service ∷ (text_string posted.now.op ∷ (tree_text posted.now.value ∷ [])))) }
    {
        self.number(u64::from(posted.service))?;
        self.string(&posted.op)?;
        self.tree(&posted.value)
    }

    /// A call of one number.
    fn one(&mut self, name: &str, number: u32) -> Result<(), AllocError>
        ensures { OnOk result (self.new ≡ after self.old (name.now ∷ (decimal number ∷ []))) }
    {
        self.word(name)?;
        self.number(u64::from(number))
    }

    /// A call of two numbers.
    fn two(&mut self, name: &str, first: u32, second: u32) -> Result<(), AllocError>
        ensures { OnOk result (self.new ≡ after self.old (name.now ∷ (decimal first ∷ (decimal second ∷ [])))) }
    {
        self.one(name, first)?;
        self.number(u64::from(second))
    }

    /// A call of one number that ended so.
    fn ended(&mut self, name: &str, number: u32, outcome: &Outcome) -> Result<(), AllocError>
        ensures { OnOk result (self.new ≡ after self.old (name.now ∷ (decimal number ∷ outcome_words outcome.now))) }
    {
        self.one(name, number)?;
        self.outcome(outcome)
    }
}
