ghost use Rattle.std.specs.Prelude.{◌≡◌, map, option_map, IfOk};
ghost use Rattle.behaviour_tree.specs.Data.{assign, choose, copy, repeat, solicit};
ghost use Rattle.behaviour_tree.specs.View.{behaviour_view, branch_view, expr_view, handler_view, handlers_view, path_view, reply_view};

use crate::expr::{Expr, PathExpr};
use std::alloc::AllocError;

/// What a handler stands under: the scope around it, a fault, or (in a completed table) a scope.
#[derive(Clone, Copy, Debug, PartialEq, Eq)]
pub enum HandlerKey {
    This,
    Fault(u32),
    Scope(u32),
}

/// A handler.
#[cycle(behaviour)]
#[derive(Drop)]
pub struct Handler {
    pub key: HandlerKey,
    pub body: Behaviour,
}

/// Handlers in the order of the text.
#[cycle(behaviour)]
#[derive(Drop)]
pub struct Handlers {
    pub list: Vec<Handler>,
}

/// What a branch of a request-response operation has beside: the path of its reply and its body.
#[cycle(behaviour)]
#[derive(Drop)]
pub struct ReplyPart {
    pub path: Option<PathExpr>,
    pub body: Behaviour,
}

/// A branch of a choice.
#[cycle(behaviour)]
#[derive(Drop)]
pub struct Branch {
    pub op: u32,
    pub target: Option<PathExpr>,
    pub reply: Option<ReplyPart>,
    pub after: Behaviour,
}

/// The static forms of a behaviour.
#[cycle(behaviour)]
#[derive(Drop)]
pub enum Behaviour {
    Nothing,
    Assign {
        path: PathExpr,
        value: Expr,
    },
    Undef {
        path: PathExpr,
    },
    Copy {
        path: PathExpr,
        value: Expr,
    },
    Bind {
        variable: u32,
        value: Expr,
    },
    Sequence(Vec<Behaviour>),
    Parallel(Vec<Behaviour>),
    If {
        test: Expr,
        then: Box<Behaviour>,
        other: Box<Behaviour>,
    },
    While {
        test: Expr,
        body: Box<Behaviour>,
    },
    Choice(Vec<Branch>),
    Notify {
        port: u32,
        op: u32,
        value: Expr,
    },
    Solicit {
        port: u32,
        op: u32,
        value: Expr,
        target: Option<PathExpr>,
        handlers: Handlers,
    },
    Install(Handlers),
    Throw {
        fault: u32,
        value: Expr,
    },
    /// The compensation of a scope.
    Comp(u32),
    /// The handler of the same key that stood before: `cH`.
    InnerHandler,
    Scope {
        name: u32,
        body: Box<Behaviour>,
    },
    Block(Box<Behaviour>),
}

impl Behaviour {
    #[cycle(copied)]
    pub fn copied(&self) -> Result<Behaviour, AllocError>
        ensures { IfOk result (λ p. behaviour_view p ≡ behaviour_view self.now) }
    {
        match self {
            Behaviour::Nothing => Ok(Behaviour::Nothing),
            Behaviour::Assign { path, value } => copied_assign(path, value),
            Behaviour::Undef { path } => Ok(Behaviour::Undef {
                path: path.copied()?,
            }),
            Behaviour::Copy { path, value } => copied_copy(path, value),
            Behaviour::Bind { variable, value } => Ok(Behaviour::Bind {
                variable: *variable,
                value: value.copied()?,
            }),
            Behaviour::Sequence(list) => Ok(Behaviour::Sequence(copied_behaviours(list)?)),
            Behaviour::Parallel(list) => Ok(Behaviour::Parallel(copied_behaviours(list)?)),
            Behaviour::If { test, then, other } => {
                let then = copied_in_box(then)?;
                let other = copied_in_box(other)?;
                copied_if(test, then, other)
            }
            Behaviour::While { test, body } => {
                let body = copied_in_box(body)?;
                copied_while(test, body)
            }
            Behaviour::Choice(list) => Ok(Behaviour::Choice(copied_branches(list)?)),
            Behaviour::Notify { port, op, value } => Ok(Behaviour::Notify {
                port: *port,
                op: *op,
                value: value.copied()?,
            }),
            Behaviour::Solicit {
                port,
                op,
                value,
                target,
                handlers,
            } => {
                let handlers = handlers.copied()?;
                copied_solicit(*port, *op, value, target, handlers)
            }
            Behaviour::Install(handlers) => Ok(Behaviour::Install(handlers.copied()?)),
            Behaviour::Throw { fault, value } => Ok(Behaviour::Throw {
                fault: *fault,
                value: value.copied()?,
            }),
            Behaviour::Comp(scope) => Ok(Behaviour::Comp(*scope)),
            Behaviour::InnerHandler => Ok(Behaviour::InnerHandler),
            Behaviour::Scope { name, body } => Ok(Behaviour::Scope {
                name: *name,
                body: copied_in_box(body)?,
            }),
            Behaviour::Block(body) => Ok(Behaviour::Block(copied_in_box(body)?)),
        }
    }
}

/// An assignment with these parts copied.
fn copied_assign(path: &PathExpr, value: &Expr) -> Result<Behaviour, AllocError>
    ensures { IfOk result (λ p. behaviour_view p ≡ assign (path_view path.now) (expr_view value.now)) }
{
    let path = path.copied()?;
    let value = value.copied()?;
    Ok(Behaviour::Assign { path, value })
}

/// A deep copy with these parts copied.
fn copied_copy(path: &PathExpr, value: &Expr) -> Result<Behaviour, AllocError>
    ensures { IfOk result (λ p. behaviour_view p ≡ copy (path_view path.now) (expr_view value.now)) }
{
    let path = path.copied()?;
    let value = value.copied()?;
    Ok(Behaviour::Copy { path, value })
}

/// A choice by a test, whose branches are copied already.
fn copied_if(
    test: &Expr,
    then: Box<Behaviour>,
    other: Box<Behaviour>,
) -> Result<Behaviour, AllocError>
    ensures { IfOk result
        (λ p. behaviour_view p ≡ choose (expr_view test.now) (behaviour_view then.value)
        (behaviour_view other.value)) }
{
    let test = test.copied()?;
    Ok(Behaviour::If { test, then, other })
}

/// A loop whose body is copied already.
fn copied_while(test: &Expr, body: Box<Behaviour>) -> Result<Behaviour, AllocError>
    ensures { IfOk result (λ p. behaviour_view p ≡ repeat (expr_view test.now) (behaviour_view body.value)) }
{
    let test = test.copied()?;
    Ok(Behaviour::While { test, body })
}

/// A call and its wait, with handlers that are copied already.
fn copied_solicit(
    port: u32,
    op: u32,
    value: &Expr,
    target: &Option<PathExpr>,
    handlers: Handlers,
) -> Result<Behaviour, AllocError>
    ensures { IfOk result (λ p. behaviour_view p
        ≡ solicit port op (expr_view value.now) (option_map path_view target.now) (handlers_view handlers)) }
{
    let target = copied_target(target)?;
    let value = value.copied()?;
    Ok(Behaviour::Solicit {
        port,
        op,
        value,
        target,
        handlers,
    })
}

impl Branch {
    #[cycle(copied)]
    fn copied(&self) -> Result<Branch, AllocError>
        ensures { IfOk result (λ branch. branch_view branch ≡ branch_view self.now) }
    {
        let target = copied_target(&self.target)?;
        let after = self.after.copied()?;
        match copied_reply(&self.reply) {
            Ok(reply) => Ok(Branch {
                op: self.op,
                target,
                reply,
                after,
            }),
            Err(error) => {
                drop(after);
                Err(error)
            }
        }
    }
}

#[cycle(copied)]
fn copied_reply(reply: &Option<ReplyPart>) -> Result<Option<ReplyPart>, AllocError>
    ensures { IfOk result (λ copy. option_map reply_view copy ≡ option_map reply_view reply.now) }
{
    match reply {
        None => Ok(None),
        Some(part) => Ok(Some(part.copied()?)),
    }
}

impl ReplyPart {
    #[cycle(copied)]
    fn copied(&self) -> Result<ReplyPart, AllocError>
        ensures { IfOk result (λ part. reply_view part ≡ reply_view self.now) }
    {
        Ok(ReplyPart {
            path: copied_target(&self.path)?,
            body: self.body.copied()?,
        })
    }
}

impl Handler {
    #[cycle(copied)]
    fn copied(&self) -> Result<Handler, AllocError>
        ensures { IfOk result (λ handler. handler_view handler ≡ handler_view self.now) }
    {
        Ok(Handler {
            key: self.key,
            body: self.body.copied()?,
        })
    }
}

impl Handlers {
    #[cycle(copied)]
    pub fn copied(&self) -> Result<Handlers, AllocError>
        ensures { IfOk result (λ handlers. handlers_view handlers ≡ handlers_view self.now) }
    {
        let mut list = Vec::new(*self.list.allocator());
        for handler in &self.list {
            list.push(handler.copied()?)?;
        }
        Ok(Handlers { list })
    }
}

/// A copy in a box of the same allocator.
#[cycle(copied)]
fn copied_in_box(body: &Box<Behaviour>) -> Result<Box<Behaviour>, AllocError>
    ensures { IfOk result (λ copy. behaviour_view copy.value ≡ behaviour_view body.now.value) }
{
    let copy = body.copied()?;
    Ok(Box::new(*Box::allocator(body), copy)?)
}

fn copied_target(target: &Option<PathExpr>) -> Result<Option<PathExpr>, AllocError>
    ensures { IfOk result (λ copy. option_map path_view copy ≡ option_map path_view target.now) }
{
    match target {
        None => Ok(None),
        Some(path) => Ok(Some(path.copied()?)),
    }
}

#[cycle(copied)]
fn copied_behaviours(list: &Vec<Behaviour>) -> Result<Vec<Behaviour>, AllocError>
    ensures { IfOk result (λ v. map behaviour_view v.items ≡ map behaviour_view list.now.items) }
{
    let mut copies = Vec::new(*list.allocator());
    for body in list {
        copies.push(body.copied()?)?;
    }
    Ok(copies)
}

#[cycle(copied)]
fn copied_branches(list: &Vec<Branch>) -> Result<Vec<Branch>, AllocError>
    ensures { IfOk result (λ v. map branch_view v.items ≡ map branch_view list.now.items) }
{
    let mut copies = Vec::new(*list.allocator());
    for branch in list {
        copies.push(branch.copied()?)?;
    }
    Ok(copies)
}
