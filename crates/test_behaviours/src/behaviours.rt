//! Behaviours out of words.
//!
//! - `nothing`, `assign`, `undef`, `copy`, `bind:N`, `notify:N`, `throw:N`, `comp:N` and `cH` are forms without
//!   parts. Paths are empty in them, and expressions are void.
//! - `seq:N` and `par:N` take the last N behaviours, `if` the last two, and `while`, `scope:N` and `block` the last
//!   one.
//! - `branch:N` makes the last behaviour what comes after operation N, and `request:N` has its body before that;
//!   `choice:N` takes the last N branches.
//! - `=this`, `=fault:N` and `=scope:N` make the last behaviour a handler; `install:N` and `solicit:N` take the last
//!   N handlers.
//! - `times:N` is a sequence of N copies of the last behaviour, and `deep:N` puts it in N blocks.

use behaviour_tree::{Behaviour, Branch, Expr, Handler, HandlerKey, Handlers, PathExpr, ReplyPart};
use jolie_trees::Root;
use std::alloc::{AllocError, Global};
use test_values::WordError;

/// The behaviour that words make.
pub fn read_behaviour(alloc: Global, words: &str) -> Result<Box<Behaviour>, WordError> {
    let mut pile = Pile::new(alloc);
    for word in words.split(' ') {
        pile.word(word)?;
    }
    pile.last()
}

/// The handlers that words make.
pub fn read_handlers(alloc: Global, words: &str) -> Result<Handlers, WordError> {
    let mut pile = Pile::new(alloc);
    for word in words.split(' ') {
        pile.word(word)?;
    }
    Ok(Handlers {
        list: pile.handlers,
    })
}

/// What the words so far made and no later word took.
#[derive(Drop)]
struct Pile {
    alloc: Global,
    behaviours: Vec<Behaviour>,
    branches: Vec<Branch>,
    handlers: Vec<Handler>,
}

impl Pile {
    fn new(alloc: Global) -> Pile {
        Pile {
            alloc,
            behaviours: Vec::new(alloc),
            branches: Vec::new(alloc),
            handlers: Vec::new(alloc),
        }
    }

    fn put(&mut self, behaviour: Behaviour) -> Result<(), WordError> {
        self.behaviours.push(behaviour)?;
        Ok(())
    }

    /// The last behaviour.
    fn last(&mut self) -> Result<Box<Behaviour>, WordError> {
        match self.behaviours.pop() {
            Some(behaviour) => Ok(Box::new(self.alloc, behaviour)?),
            None => Err(WordError::Lacking),
        }
    }

    /// The last so many behaviours.
    fn last_of(&mut self, count: u32) -> Result<Vec<Behaviour>, WordError> {
        match self.behaviours.len().checked_sub(count as usize) {
            Some(first) => Ok(self.behaviours.split_off(first)?),
            None => Err(WordError::Lacking),
        }
    }

    /// The last so many handlers.
    fn handlers_of(&mut self, count: u32) -> Result<Handlers, WordError> {
        match self.handlers.len().checked_sub(count as usize) {
            Some(first) => Ok(Handlers {
                list: self.handlers.split_off(first)?,
            }),
            None => Err(WordError::Lacking),
        }
    }

    fn word(&mut self, word: &str) -> Result<(), WordError> {
        let (form, digits) = word.split_once(':').unwrap_or((word, "0"));
        let number = u32::from_str_radix(digits, 10).map_err(|_| WordError::Unknown)?;
        match form.strip_prefix('=') {
            Some(key) => self.handler(key, number),
            None => self.form(form, number),
        }
    }

    /// A form without parts.
    fn form(&mut self, form: &str, number: u32) -> Result<(), WordError> {
        match form {
            "nothing" => self.put(Behaviour::Nothing),
            "assign" => self.assign(),
            "undef" => self.undef(),
            "copy" => self.copy(),
            "bind" => self.bind(number),
            "notify" => self.notify(number),
            "throw" => self.throw(number),
            "comp" => self.put(Behaviour::Comp(number)),
            "cH" => self.put(Behaviour::InnerHandler),
            _ => self.around(form, number),
        }
    }

    /// A form around behaviours, branches or handlers.
    fn around(&mut self, form: &str, number: u32) -> Result<(), WordError> {
        match form {
            "seq" => self.sequence(number),
            "par" => self.parallel(number),
            "if" => self.either(),
            "while" => self.again(),
            "scope" => self.scope(number),
            "block" => self.block(),
            "branch" => self.branch(number),
            "request" => self.request(number),
            "choice" => self.choice(number),
            "install" => self.install(number),
            "solicit" => self.solicit(number),
            "times" => self.times(number),
            "deep" => self.deep(number),
            _ => Err(WordError::Unknown),
        }
    }

    fn assign(&mut self) -> Result<(), WordError> {
        let path = no_steps(self.alloc);
        self.put(Behaviour::Assign {
            path,
            value: void(),
        })
    }

    fn undef(&mut self) -> Result<(), WordError> {
        let path = no_steps(self.alloc);
        self.put(Behaviour::Undef { path })
    }

    fn copy(&mut self) -> Result<(), WordError> {
        let path = no_steps(self.alloc);
        self.put(Behaviour::Copy {
            path,
            value: void(),
        })
    }

    fn bind(&mut self, variable: u32) -> Result<(), WordError> {
        self.put(Behaviour::Bind {
            variable,
            value: void(),
        })
    }

    fn notify(&mut self, op: u32) -> Result<(), WordError> {
        self.put(Behaviour::Notify {
            port: 0,
            op,
            value: void(),
        })
    }

    fn throw(&mut self, fault: u32) -> Result<(), WordError> {
        self.put(Behaviour::Throw {
            fault,
            value: void(),
        })
    }

    fn sequence(&mut self, count: u32) -> Result<(), WordError> {
        let list = self.last_of(count)?;
        self.put(Behaviour::Sequence(list))
    }

    fn parallel(&mut self, count: u32) -> Result<(), WordError> {
        let list = self.last_of(count)?;
        self.put(Behaviour::Parallel(list))
    }

    fn either(&mut self) -> Result<(), WordError> {
        let other = self.last()?;
        let then = self.last()?;
        self.put(Behaviour::If {
            test: void(),
            then,
            other,
        })
    }

    fn again(&mut self) -> Result<(), WordError> {
        let body = self.last()?;
        self.put(Behaviour::While { test: void(), body })
    }

    fn scope(&mut self, name: u32) -> Result<(), WordError> {
        let body = self.last()?;
        self.put(Behaviour::Scope { name, body })
    }

    fn block(&mut self) -> Result<(), WordError> {
        let body = self.last()?;
        self.put(Behaviour::Block(body))
    }

    fn branch(&mut self, op: u32) -> Result<(), WordError> {
        let after = self.last()?;
        self.branches.push(one_way(op, after))?;
        Ok(())
    }

    fn request(&mut self, op: u32) -> Result<(), WordError> {
        let after = self.last()?;
        let body = self.last()?;
        self.branches.push(request_response(op, body, after))?;
        Ok(())
    }

    fn choice(&mut self, count: u32) -> Result<(), WordError> {
        match self.branches.len().checked_sub(count as usize) {
            Some(first) => {
                let list = self.branches.split_off(first)?;
                self.put(Behaviour::Choice(list))
            }
            None => Err(WordError::Lacking),
        }
    }

    fn handler(&mut self, key: &str, number: u32) -> Result<(), WordError> {
        let body = self.last()?;
        let key = match key {
            "this" => HandlerKey::This,
            "fault" => HandlerKey::Fault(number),
            "scope" => HandlerKey::Scope(number),
            _ => return Err(WordError::Unknown),
        };
        self.handlers.push(Handler {
            key,
            body: Box::into_inner(body),
        })?;
        Ok(())
    }

    fn install(&mut self, count: u32) -> Result<(), WordError> {
        let handlers = self.handlers_of(count)?;
        self.put(Behaviour::Install(handlers))
    }

    fn solicit(&mut self, count: u32) -> Result<(), WordError> {
        let handlers = self.handlers_of(count)?;
        self.put(Behaviour::Solicit {
            port: 0,
            op: 0,
            value: void(),
            target: None,
            handlers,
        })
    }

    fn times(&mut self, count: u32) -> Result<(), WordError> {
        let one = self.last()?;
        let list = copies(self.alloc, &one, count)?;
        self.put(Behaviour::Sequence(list))
    }

    fn deep(&mut self, blocks: u32) -> Result<(), WordError> {
        let body = self.last()?;
        let body = in_blocks(self.alloc, body, blocks)?;
        self.put(Box::into_inner(body))
    }
}

fn void() -> Expr {
    Expr::Value(Root::Void)
}

fn no_steps(alloc: Global) -> PathExpr {
    PathExpr {
        steps: Vec::new(alloc),
    }
}

fn one_way(op: u32, after: Box<Behaviour>) -> Branch {
    Branch {
        op,
        target: None,
        reply: None,
        after: Box::into_inner(after),
    }
}

fn request_response(op: u32, body: Box<Behaviour>, after: Box<Behaviour>) -> Branch {
    Branch {
        op,
        target: None,
        reply: Some(ReplyPart {
            path: None,
            body: Box::into_inner(body),
        }),
        after: Box::into_inner(after),
    }
}

fn copies(alloc: Global, one: &Behaviour, count: u32) -> Result<Vec<Behaviour>, AllocError> {
    let mut list = Vec::new(alloc);
    for _ in 0..count {
        list.push(one.copied()?)?;
    }
    Ok(list)
}

fn in_blocks(
    alloc: Global,
    mut body: Box<Behaviour>,
    blocks: u32,
) -> Result<Box<Behaviour>, AllocError> {
    for _ in 0..blocks {
        body = Box::new(alloc, Behaviour::Block(body))?;
    }
    Ok(body)
}
