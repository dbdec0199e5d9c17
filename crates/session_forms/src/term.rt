use crate::call::Call;
use crate::fault::Fault;
use crate::installed::Installed;
use crate::rest::Rest;
use crate::state::ScopeState;
use behaviour_tree::{Behaviour, PathExpr};
use std::sync::Arc;

/// What runs in a strand.
#[cycle(term)]
#[derive(Drop)]
pub enum Term {
    /// Nothing is left.
    Done,
    /// A form that acts.
    Place(Box<Behaviour>),
    /// A fault that is there to be thrown.
    Thrown(Arc<Fault>),
    /// A head and the forms that begin after it.
    Seq {
        head: Box<Term>,
        rest: Rest,
    },
    /// Members beside each other.
    Par(Vec<Strand>),
    /// A scope with its handlers, its body and its state.
    Scope {
        installed: Box<Installed>,
        body: Box<Term>,
        state: ScopeState,
    },
    /// The body of a request, whose answer stands at a path.
    Exec {
        message: u32,
        op: u32,
        path: Option<PathExpr>,
        body: Box<Term>,
    },
    /// A request whose body was ended by a fault, and what goes on once that is told.
    Fail {
        message: u32,
        fault: Arc<Fault>,
        body: Box<Term>,
    },
    /// A call that waits for its answer.
    Wait(Box<Call>),
    /// Such a call after a kill: only its handlers are still wanted.
    DeadWait(Box<Call>),
    /// What no fault ends any more.
    Prot(Box<Term>),
}

/// A member of a parallel, with the number of its strand.
#[cycle(term)]
#[derive(Drop)]
pub struct Strand {
    pub number: u64,
    pub form: Box<Term>,
}

impl Term {
    ghost use Rattle.std.specs.Prelude.{◌≡◌, IsTrue, ◌↔◌};
    ghost use Rattle.session_calculus.specs.Terms as spec;
    ghost use Rattle.session_forms.specs.Shapes.{is_prot};
    ghost use Rattle.session_forms.specs.View.{term_view};

    /// Whether nothing is left.
    pub fn is_done(&self) -> bool
        ensures { IsTrue result ↔ (term_view self.now ≡ spec.done) }
    {
        matches!(self, Term::Done)
    }

    /// Whether no fault ends the form any more.
    pub fn is_prot(&self) -> bool
        ensures { result ≡ is_prot (term_view self.now) }
    {
        match self {
            Term::Prot(_) => true,
            Term::Done | Term::Place(_) | Term::Thrown(_) | Term::Seq { .. } | Term::Par(_) =>
                false,
            Term::Scope { .. } | Term::Exec { .. } | Term::Fail { .. } => false,
            Term::Wait(_) | Term::DeadWait(_) => false,
        }
    }
}
