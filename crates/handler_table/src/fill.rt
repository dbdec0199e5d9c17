ghost use Rattle.std.specs.Prelude.{◌≡◌, map, option_map, IfOk};
ghost use Rattle.behaviour_tree.specs.Data.{choose, repeat, scope};
ghost use Rattle.behaviour_tree.specs.View.{behaviour_view, branch_view, branches_of, expr_view, path_view, procs_of, reply_view};
ghost use Rattle.session_calculus.specs.Tables as spec;
ghost use Rattle.handler_table.specs.Filled.{filled_branch, filled_reply, former_of};

use behaviour_tree::{Behaviour, Branch, Expr, PathExpr, ReplyPart};
use std::alloc::AllocError;

/// A copy of a handler with the former one, or nothing, in place of each cH outside its own inner handlers.
#[cycle(filled)]
pub fn filled(body: &Behaviour, former: Option<&Behaviour>) -> Result<Behaviour, AllocError>
    ensures { IfOk result (λ p. behaviour_view p ≡ spec.filled (former_of former.entry) (behaviour_view body.now)) }
{
    match body {
        Behaviour::Nothing => body.copied(),
        Behaviour::Assign { .. } => body.copied(),
        Behaviour::Undef { .. } => body.copied(),
        Behaviour::Copy { .. } => body.copied(),
        Behaviour::Bind { .. } => body.copied(),
        Behaviour::Sequence(list) => Ok(Behaviour::Sequence(filled_all(list, former)?)),
        Behaviour::Parallel(list) => Ok(Behaviour::Parallel(filled_all(list, former)?)),
        Behaviour::If { test, then, other } => {
            let then_filled = filled_in_box(then, former)?;
            let other_filled = filled_in_box(other, former)?;
            chosen(test, then_filled, other_filled)
        }
        Behaviour::While { test, body } => {
            let body_filled = filled_in_box(body, former)?;
            repeated(test, body_filled)
        }
        Behaviour::Choice(list) => Ok(Behaviour::Choice(filled_branches(list, former)?)),
        Behaviour::Notify { .. } => body.copied(),
        Behaviour::Solicit { .. } => body.copied(),
        Behaviour::Install(_) => body.copied(),
        Behaviour::Throw { .. } => body.copied(),
        Behaviour::Comp(_) => body.copied(),
        Behaviour::InnerHandler => copied_former(former),
        Behaviour::Scope { name, body } => Ok(Behaviour::Scope {
            name: *name,
            body: filled_in_box(body, former)?,
        }),
        Behaviour::Block(body) => Ok(Behaviour::Block(filled_in_box(body, former)?)),
    }
}

/// The same in a box of the same allocator.
#[cycle(filled)]
fn filled_in_box(
    body: &Box<Behaviour>,
    former: Option<&Behaviour>,
) -> Result<Box<Behaviour>, AllocError>
    ensures { IfOk result
        (λ p. behaviour_view p.value ≡ spec.filled (former_of former.entry) (behaviour_view body.now.value)) }
{
    let copy = filled(body, former)?;
    Ok(Box::new(*Box::allocator(body), copy)?)
}

#[cycle(filled)]
fn filled_all(
    list: &Vec<Behaviour>,
    former: Option<&Behaviour>,
) -> Result<Vec<Behaviour>, AllocError>
    ensures { IfOk result
        (λ v. procs_of (map behaviour_view v.items)
        ≡ spec.filled_all (former_of former.entry) (procs_of (map behaviour_view list.now.items))) }
{
    let mut copies = Vec::new(*list.allocator());
    for body in list {
        copies.push(filled(body, former)?)?;
    }
    Ok(copies)
}

#[cycle(filled)]
fn filled_branches(
    list: &Vec<Branch>,
    former: Option<&Behaviour>,
) -> Result<Vec<Branch>, AllocError>
    ensures { IfOk result
        (λ v. branches_of (map branch_view v.items)
        ≡ spec.filled_branches (former_of former.entry) (branches_of (map branch_view list.now.items))) }
{
    let mut copies = Vec::new(*list.allocator());
    for branch in list {
        copies.push(filled_in_branch(branch, former)?)?;
    }
    Ok(copies)
}

#[cycle(filled)]
fn filled_in_branch(branch: &Branch, former: Option<&Behaviour>) -> Result<Branch, AllocError>
    ensures { IfOk result (λ b. branch_view b ≡ filled_branch (former_of former.entry) (branch_view branch.now)) }
{
    let target = copied_path(&branch.target)?;
    let after = filled(&branch.after, former)?;
    match filled_in_answer(&branch.reply, former) {
        Ok(reply) => Ok(Branch {
            op: branch.op,
            target,
            reply,
            after,
        }),
        Err(error) => {
            drop(after);
            Err(error)
        }
    }
}

/// The reply of a branch that has one.
#[cycle(filled)]
fn filled_in_answer(
    reply: &Option<ReplyPart>,
    former: Option<&Behaviour>,
) -> Result<Option<ReplyPart>, AllocError>
    ensures { IfOk result
        (λ r. option_map reply_view r ≡ option_map (filled_reply (former_of former.entry))
        (option_map reply_view reply.now)) }
{
    match reply {
        None => Ok(None),
        Some(reply) => Ok(Some(filled_in_reply(reply, former)?)),
    }
}

#[cycle(filled)]
fn filled_in_reply(reply: &ReplyPart, former: Option<&Behaviour>) -> Result<ReplyPart, AllocError>
    ensures { IfOk result (λ r. reply_view r ≡ filled_reply (former_of former.entry) (reply_view reply.now)) }
{
    Ok(ReplyPart {
        path: copied_path(&reply.path)?,
        body: filled(&reply.body, former)?,
    })
}

/// What stands in place of cH.
fn copied_former(former: Option<&Behaviour>) -> Result<Behaviour, AllocError>
    ensures { IfOk result (λ p. behaviour_view p ≡ former_of former.entry) }
{
    match former {
        None => Ok(Behaviour::Nothing),
        Some(body) => body.copied(),
    }
}

fn chosen(test: &Expr, then: Box<Behaviour>, other: Box<Behaviour>) -> Result<Behaviour, AllocError>
    ensures { IfOk result
        (λ p. behaviour_view p ≡ choose (expr_view test.now) (behaviour_view then.value)
        (behaviour_view other.value)) }
{
    Ok(Behaviour::If {
        test: test.copied()?,
        then,
        other,
    })
}

fn repeated(test: &Expr, body: Box<Behaviour>) -> Result<Behaviour, AllocError>
    ensures { IfOk result (λ p. behaviour_view p ≡ repeat (expr_view test.now) (behaviour_view body.value)) }
{
    Ok(Behaviour::While {
        test: test.copied()?,
        body,
    })
}

fn copied_path(path: &Option<PathExpr>) -> Result<Option<PathExpr>, AllocError>
    ensures { IfOk result (λ copy. option_map path_view copy ≡ option_map path_view path.now) }
{
    match path {
        None => Ok(None),
        Some(path) => Ok(Some(path.copied()?)),
    }
}
