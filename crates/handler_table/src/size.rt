ghost use Rattle.std.specs.Prelude.{◌≡◌, ◌&&◌, [], ◌∷◌, map, nat_le};
ghost use Rattle.behaviour_tree.specs.View.{behaviour_view, branch_view, branches_of, handlers_view, procs_of};
ghost use Rattle.session_calculus.specs.Tables.{filled, filled_all, filled_branches, most_forms, most_levels};
ghost use Rattle.handler_table.specs.Filled.{former_of};
ghost use Rattle.handler_table.specs.Sizes as spec;

use crate::former::Former;
use behaviour_tree::{Behaviour, Branch, Handlers};

/// How large a behaviour is: its forms, and its levels. A number that 32 bits do not hold is the largest that they do.
#[derive(Clone, Copy, Debug, PartialEq, Eq)]
pub struct Size {
    pub forms: u32,
    pub levels: u32,
}

impl Size {
    /// The size of no behaviour at all.
    fn none() -> Size
        ensures { result ≡ spec.sized 0 0 }
    {
        Size {
            forms: 0,
            levels: 0,
        }
    }

    /// The size of a form without parts.
    pub fn one() -> Size
        ensures { result ≡ spec.sized 1 1 }
    {
        Size {
            forms: 1,
            levels: 1,
        }
    }

    /// The size of two behaviours beside each other.
    fn beside(self, other: Size) -> Size
        ensures { result ≡ spec.beside self other }
    {
        Size {
            forms: self.forms.saturating_add(other.forms),
            levels: self.levels.max(other.levels),
        }
    }

    /// The size of a form around parts of this size.
    fn around(self) -> Size
        ensures { result ≡ spec.around self }
    {
        Size {
            forms: self.forms.saturating_add(1),
            levels: self.levels.saturating_add(1),
        }
    }

    /// Whether a handler may be as large.
    pub fn is_allowed(self) -> bool
        ensures { result ≡ (nat_le self.forms most_forms && nat_le self.levels most_levels) }
    {
        self.forms <= 65_536 && self.levels <= 64
    }
}

/// The size of a behaviour with the former handler in place of each cH.
#[cycle(size)]
#[tactic(auto, using(crate::proofs::Sums::wrapped, crate::proofs::Sums::joined))]
pub fn size_of(body: &Behaviour, former: &Former) -> Size
    ensures { result ≡ spec.size_of (filled (former_of former.now.body) (behaviour_view body.now)) }
{
    match body {
        Behaviour::Nothing => Size::one(),
        Behaviour::Assign { .. } => Size::one(),
        Behaviour::Undef { .. } => Size::one(),
        Behaviour::Copy { .. } => Size::one(),
        Behaviour::Bind { .. } => Size::one(),
        Behaviour::Sequence(list) => size_of_all(list, former).around(),
        Behaviour::Parallel(list) => size_of_all(list, former).around(),
        Behaviour::If { then, other, .. } => {
            let size = size_of(then, former).beside(size_of(other, former));
            size.around()
        }
        Behaviour::While { body, .. } => size_of(body, former).around(),
        Behaviour::Choice(list) => size_of_branches(list, former).around(),
        Behaviour::Notify { .. } => Size::one(),
        Behaviour::Solicit { handlers, .. } => size_of_handlers(handlers).around(),
        Behaviour::Install(handlers) => size_of_handlers(handlers).around(),
        Behaviour::Throw { .. } => Size::one(),
        Behaviour::Comp(_) => Size::one(),
        Behaviour::InnerHandler => former.size,
        Behaviour::Scope { body, .. } => size_of(body, former).around(),
        Behaviour::Block(body) => size_of(body, former).around(),
    }
}

#[cycle(size)]
#[tactic(auto, using(crate::proofs::Sums::all_more))]
fn size_of_all(list: &Vec<Behaviour>, former: &Former) -> Size
    ensures { result ≡ spec.size_of_all (filled_all (former_of former.now.body)
        (procs_of (map behaviour_view list.now.items))) }
{
    let mut size = Size::none();
    for body in list {
        size = size.beside(size_of(body, former));
    }
    size
}

#[cycle(size)]
#[tactic(auto, using(crate::proofs::Sums::branches_more))]
fn size_of_branches(list: &Vec<Branch>, former: &Former) -> Size
    ensures { result ≡ spec.size_of_branches
        (filled_branches (former_of former.now.body) (branches_of (map branch_view list.now.items))) }
{
    let mut size = Size::none();
    for branch in list {
        size = size.beside(size_of_branch(branch, former));
    }
    size
}

#[cycle(size)]
#[tactic(auto, using(crate::proofs::Sums::one_branch, crate::proofs::Sums::one_request))]
fn size_of_branch(branch: &Branch, former: &Former) -> Size
    ensures { result ≡ spec.size_of_branches
        (filled_branches (former_of former.now.body) (branches_of (branch_view branch.now ∷ []))) }
{
    match &branch.reply {
        None => size_of(&branch.after, former),
        Some(reply) => size_of(&reply.body, former).beside(size_of(&branch.after, former)),
    }
}

/// The size of handlers, which keep each cH of theirs.
#[cycle(size)]
#[tactic(auto, using(crate::proofs::Sums::handlers_more))]
fn size_of_handlers(handlers: &Handlers) -> Size
    ensures { result ≡ spec.size_of_handlers (handlers_view handlers.now) }
{
    let mut size = Size::none();
    for handler in &handlers.list {
        size = size.beside(size_of(&handler.body, &Former::nothing()));
    }
    size
}
