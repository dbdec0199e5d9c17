ghost use Rattle.std.specs.Prelude.{◌≡◌, ◌≤◌, IfOk, length, map};
ghost use Rattle.behaviour_tree.specs.View.{behaviour_view};
ghost use Rattle.std.specs.Arc.{arc_value};

use behaviour_tree::Behaviour;
use std::alloc::{AllocError, Global};
use std::sync::Arc;

/// The forms that begin after a head: those of a list from a place on. Copies share the list.
#[derive(Drop)]
pub struct Rest {
    list: Arc<Vec<Behaviour>>,
    from: usize,
    pub ghost inside: { from ≤ length (arc_value list).items },
}

impl Rest {
    ghost use Rattle.std.specs.Prelude.{[], ◌∷◌, IfOk, drop, map};
    ghost use Rattle.behaviour_tree.specs.View.{behaviour_view};
    ghost use Rattle.session_forms.specs.Rests.{rest_items};

    fn new(alloc: Global, list: Vec<Behaviour>) -> Result<Rest, AllocError>
        ensures { IfOk result (λ rest. rest_items rest ≡ list.items) }
    {
        let list = Arc::new(alloc, list)?;
        Ok(Rest { list, from: 0 })
    }

    /// A rest of copies of forms.
    pub fn of_copies(alloc: Global, list: &[Behaviour]) -> Result<Rest, AllocError>
        ensures { IfOk result (λ rest. map behaviour_view (rest_items rest) ≡ map behaviour_view list.now) }
    {
        let copies = copied_list(alloc, list)?;
        Rest::new(alloc, copies)
    }

    /// A rest of one form.
    pub fn of_one(alloc: Global, form: &Behaviour) -> Result<Rest, AllocError>
        ensures { IfOk result (λ rest. map behaviour_view (rest_items rest) ≡ behaviour_view form.now ∷ []) }
    {
        let mut list = Vec::new(alloc);
        list.push(form.copied()?)?;
        Rest::new(alloc, list)
    }

    /// The same rest once more.
    pub fn again(&self) -> Result<Rest, AllocError>
        ensures { IfOk result (λ rest. rest_items rest ≡ rest_items self.now) }
    {
        let list = Arc::try_clone(&self.list)?;
        Ok(Rest {
            list,
            from: self.from,
        })
    }

    /// What is left without the first `count` forms.
    pub fn behind(self, count: usize) -> Rest
        requires { count ≤ length (rest_items self) }
        ensures { rest_items result ≡ drop count (rest_items self) }
    {
        let Rest { list, from } = self;
        Rest {
            list,
            from: from + count,
        }
    }

    pub fn as_slice(&self) -> &[Behaviour]
        ensures { result.now ≡ rest_items self.now }
    {
        &self.list[self.from..]
    }
}

/// Copies of behaviours, in order.
fn copied_list(alloc: Global, list: &[Behaviour]) -> Result<Vec<Behaviour>, AllocError>
    ensures { IfOk result (λ v. map behaviour_view v.items ≡ map behaviour_view list.now) }
{
    let mut copies = Vec::new(alloc);
    for behaviour in list {
        copies.push(behaviour.copied()?)?;
    }
    Ok(copies)
}
