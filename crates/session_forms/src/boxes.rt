ghost use Rattle.std.specs.Prelude.{◌≡◌, IfOk};
ghost use Rattle.session_calculus.specs.Terms as spec;
ghost use Rattle.session_forms.specs.Shapes.{inner_of};
ghost use Rattle.session_forms.specs.View.{term_view};

use crate::term::Term;
use std::alloc::{AllocError, Global};
use std::mem;

/// A form on the heap.
pub fn boxed(alloc: Global, form: Term) -> Result<Box<Term>, AllocError>
    ensures { IfOk result (λ b. b.value ≡ form) }
{
    Ok(Box::new(alloc, form)?)
}

/// Puts another form in the place of a form.
pub fn put(form: &mut Box<Term>, by: Term)
    ensures { form.new.value ≡ by }
{
    **form = by;
}

/// Puts a form in the place of another, and gives that one.
pub fn replaced(form: &mut Box<Term>, by: Box<Term>) -> Box<Term>
    ensures given { result.value ≡ form.old.value }
    ensures put { form.new.value ≡ by.value }
{
    mem::replace(form, by)
}

/// Nothing is left of a form.
pub fn finish(form: &mut Box<Term>)
    ensures { term_view form.new.value ≡ spec.done }
{
    put(form, Term::Done);
}

/// Takes a form out of its place, where nothing is left.
pub fn taken(form: &mut Box<Term>) -> Term
    ensures given { result ≡ form.old.value }
    ensures left { term_view form.new.value ≡ spec.done }
{
    Box::replace(form, Term::Done)
}

/// No fault ends a form any more. After want of memory nothing is left of it.
pub fn protect(alloc: Global, form: &mut Box<Term>) -> Result<(), AllocError>
    ensures { IfOk result (λ _. term_view form.new.value ≡ spec.prot (term_view form.old.value)) }
{
    let body = boxed(alloc, taken(form))?;
    put(form, Term::Prot(body));
    Ok(())
}

/// The head of a sequence, or what is protected, takes the place of the whole.
pub fn unwrap(form: &mut Box<Term>)
    ensures { term_view form.new.value ≡ inner_of (term_view form.old.value) }
{
    match &mut **form {
        Term::Seq { head: inner, .. } | Term::Prot(inner) => {
            let inner = taken(inner);
            put(form, inner);
        }
        Term::Done | Term::Place(_) | Term::Thrown(_) | Term::Par(_) | Term::Scope { .. } => {}
        Term::Exec { .. } | Term::Fail { .. } | Term::Wait(_) | Term::DeadWait(_) => {}
    }
}
