//! The forms that only events make, and scopes in any state.

use behaviour_tree::{Behaviour, Handlers};
use handler_table::Table;
use jolie_trees::Tree;
use session_forms::{Call, Fault, Installed, ScopeState, Strand, Term, boxed};
use std::alloc::{AllocError, Global};
use std::sync::Arc;
use test_values::WordError;

/// A fault with a void value.
pub fn fault(alloc: Global, name: u32) -> Result<Arc<Fault>, AllocError> {
    let value = Tree::void(alloc);
    Ok(Arc::new(alloc, Fault { name, value })?)
}

/// A behaviour in its place.
pub fn place(alloc: Global, behaviour: Box<Behaviour>) -> Result<Box<Term>, AllocError> {
    boxed(alloc, Term::Place(behaviour))
}

/// A fault that is there to be thrown.
pub fn thrown(alloc: Global, name: u32) -> Result<Box<Term>, AllocError> {
    let fault = fault(alloc, name)?;
    boxed(alloc, Term::Thrown(fault))
}

/// The body of a request.
pub fn request(alloc: Global, message: u32, body: Box<Term>) -> Result<Box<Term>, AllocError> {
    boxed(
        alloc,
        Term::Exec {
            message,
            op: 0,
            path: None,
            body,
        },
    )
}

/// A failed request.
pub fn failed(
    alloc: Global,
    message: u32,
    name: u32,
    body: Box<Term>,
) -> Result<Box<Term>, AllocError> {
    let fault = fault(alloc, name)?;
    boxed(
        alloc,
        Term::Fail {
            message,
            fault,
            body,
        },
    )
}

/// A call with its handlers.
fn call(alloc: Global, number: u32, handlers: Handlers) -> Result<Box<Call>, AllocError> {
    let call = Call {
        number,
        port: 0,
        op: 0,
        target: None,
        handlers,
    };
    Ok(Box::new(alloc, call)?)
}

/// A call that waits for its answer.
pub fn waiting(alloc: Global, number: u32, handlers: Handlers) -> Result<Box<Term>, AllocError> {
    let call = call(alloc, number, handlers)?;
    boxed(alloc, Term::Wait(call))
}

/// A call that waits for its handlers alone.
pub fn dead(alloc: Global, number: u32, handlers: Handlers) -> Result<Box<Term>, AllocError> {
    let call = call(alloc, number, handlers)?;
    boxed(alloc, Term::DeadWait(call))
}

/// Members, whose strands are numbered on from the given one.
pub fn members(alloc: Global, forms: Vec<Box<Term>>, first: u64) -> Result<Box<Term>, AllocError> {
    let mut strands = Vec::new(alloc);
    let mut number = first;
    for form in forms {
        strands.push(Strand { number, form })?;
        number = number.checked_add(1).ok_or(AllocError)?;
    }
    boxed(alloc, Term::Par(strands))
}

/// A live scope without handlers.
pub fn scope(alloc: Global, scope: u32, body: Box<Term>) -> Result<Box<Term>, AllocError> {
    let table = Table::empty(alloc);
    let installed = Box::new(alloc, Installed { scope, table })?;
    let state = ScopeState::Live;
    boxed(
        alloc,
        Term::Scope {
            installed,
            body,
            state,
        },
    )
}

/// A scope comes into a state.
pub fn put_state(form: &mut Term, by: ScopeState) -> Result<(), WordError> {
    match form {
        Term::Scope { state, .. } => {
            *state = by;
            Ok(())
        }
        _ => Err(WordError::Lacking),
    }
}

/// Handlers are installed in a scope.
pub fn put_handlers(form: &mut Term, handlers: &Handlers) -> Result<(), WordError> {
    match form {
        Term::Scope { installed, .. } => {
            let scope = installed.scope;
            installed
                .table
                .install(handlers, scope)
                .map_err(|_| WordError::Lacking)
        }
        _ => Err(WordError::Lacking),
    }
}
