//! Words of behaviours.

use behaviour_tree::{Behaviour, Branch, Handler, HandlerKey, Handlers};
use std::alloc::{AllocError, Global};

/// The words so far, with one blank between every two.
#[derive(Drop)]
pub struct Outline {
    alloc: Global,
    text: String,
}

impl Outline {
    pub fn new(alloc: Global) -> Outline {
        Outline {
            alloc,
            text: String::new(alloc),
        }
    }

    pub fn finished(self) -> String {
        let Outline { alloc: _, text } = self;
        text
    }

    pub fn word(&mut self, word: &str) -> Result<(), AllocError> {
        if !self.text.as_str().is_empty() {
            self.text.push_str(" ")?;
        }
        self.text.push_str(word)
    }

    /// A word with a number.
    pub fn numbered(&mut self, word: &str, number: u32) -> Result<(), AllocError> {
        let digits = number.to_string(self.alloc)?;
        self.word(word)?;
        self.text.push_str(":")?;
        self.text.push_str(digits.as_str())
    }

    /// A word with how many things it takes.
    pub fn counted(&mut self, word: &str, count: usize) -> Result<(), AllocError> {
        self.numbered(word, u32::try_from(count).unwrap_or(u32::MAX))
    }

    #[cycle(behaviour)]
    pub fn behaviour(&mut self, behaviour: &Behaviour) -> Result<(), AllocError> {
        match behaviour {
            Behaviour::Nothing => self.word("nothing"),
            Behaviour::Assign { .. } => self.word("assign"),
            Behaviour::Undef { .. } => self.word("undef"),
            Behaviour::Copy { .. } => self.word("copy"),
            Behaviour::Bind { variable, .. } => self.numbered("bind", *variable),
            Behaviour::Sequence(members) => {
                self.behaviours(members)?;
                self.counted("seq", members.len())
            }
            Behaviour::Parallel(members) => {
                self.behaviours(members)?;
                self.counted("par", members.len())
            }
            Behaviour::If { then, other, .. } => {
                self.behaviour(then)?;
                self.behaviour(other)?;
                self.word("if")
            }
            Behaviour::While { body, .. } => {
                self.behaviour(body)?;
                self.word("while")
            }
            Behaviour::Choice(branches) => {
                self.branches(branches)?;
                self.counted("choice", branches.len())
            }
            Behaviour::Notify { op, .. } => self.numbered("notify", *op),
            Behaviour::Solicit { handlers, .. } => {
                self.handlers(handlers)?;
                self.counted("solicit", handlers.list.len())
            }
            Behaviour::Install(handlers) => {
                self.handlers(handlers)?;
                self.counted("install", handlers.list.len())
            }
            Behaviour::Throw { fault, .. } => self.numbered("throw", *fault),
            Behaviour::Comp(scope) => self.numbered("comp", *scope),
            Behaviour::InnerHandler => self.word("cH"),
            Behaviour::Scope { name, body } => {
                self.behaviour(body)?;
                self.numbered("scope", *name)
            }
            Behaviour::Block(body) => {
                self.behaviour(body)?;
                self.word("block")
            }
        }
    }

    #[cycle(behaviour)]
    fn behaviours(&mut self, behaviours: &Vec<Behaviour>) -> Result<(), AllocError> {
        for behaviour in behaviours {
            self.behaviour(behaviour)?;
        }
        Ok(())
    }

    #[cycle(behaviour)]
    fn branches(&mut self, branches: &Vec<Branch>) -> Result<(), AllocError> {
        for branch in branches {
            self.branch(branch)?;
        }
        Ok(())
    }

    #[cycle(behaviour)]
    fn branch(&mut self, branch: &Branch) -> Result<(), AllocError> {
        match &branch.reply {
            None => {
                self.behaviour(&branch.after)?;
                self.numbered("branch", branch.op)
            }
            Some(reply) => {
                self.behaviour(&reply.body)?;
                self.behaviour(&branch.after)?;
                self.numbered("request", branch.op)
            }
        }
    }

    #[cycle(behaviour)]
    pub fn handlers(&mut self, handlers: &Handlers) -> Result<(), AllocError> {
        for handler in &handlers.list {
            self.handler(handler)?;
        }
        Ok(())
    }

    #[cycle(behaviour)]
    fn handler(&mut self, handler: &Handler) -> Result<(), AllocError> {
        self.behaviour(&handler.body)?;
        match handler.key {
            HandlerKey::This => self.word("=this"),
            HandlerKey::Fault(name) => self.numbered("=fault", name),
            HandlerKey::Scope(name) => self.numbered("=scope", name),
        }
    }
}
