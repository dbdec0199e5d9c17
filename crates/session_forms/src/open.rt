ghost use Rattle.std.specs.Prelude.{◌≡◌, ◌++◌, IfOk};
ghost use Rattle.session_calculus.specs.Open as spec;
ghost use Rattle.session_calculus.specs.Ready.{rising};
ghost use Rattle.session_forms.specs.View.{members_view, term_view};

use crate::term::{Strand, Term};
use behaviour_tree::Numbers;
use sqlite_items::Items;
use std::alloc::{AllocError, Global};

/// The requests that are still to be answered, and the calls that wait for an answer.
#[derive(Drop)]
struct Held {
    requests: Vec<u32>,
    calls: Vec<u32>,
}

/// The messages of the requests that are being answered, and of those that failed, in rising order.
pub fn open_requests(alloc: Global, term: &Term) -> Result<Numbers, AllocError>
    ensures { IfOk result (λ messages. messages ≡ rising (spec.open_requests (term_view term.now))) }
{
    let Held { requests, calls: _ } = held_by(alloc, term)?;
    Ok(in_rising_order(requests))
}

/// The calls that wait for an answer, those that were killed too, in rising order.
pub fn waiting(alloc: Global, term: &Term) -> Result<Numbers, AllocError>
    ensures { IfOk result (λ calls. calls ≡ rising (spec.waiting (term_view term.now))) }
{
    let Held { requests: _, calls } = held_by(alloc, term)?;
    Ok(in_rising_order(calls))
}

/// Numbers in rising order.
fn in_rising_order(mut numbers: Vec<u32>) -> Numbers
    ensures { result ≡ rising numbers.items }
{
    numbers.sort_unstable();
    Items::from_vec(numbers)
}

/// What a form holds.
fn held_by(alloc: Global, term: &Term) -> Result<Held, AllocError>
    ensures requests { IfOk result (λ held. held.requests.items ≡ spec.open_requests (term_view term.now)) }
    ensures calls { IfOk result (λ held. held.calls.items ≡ spec.waiting (term_view term.now)) }
{
    let mut held = Held {
        requests: Vec::new(alloc),
        calls: Vec::new(alloc),
    };
    held.add(term)?;
    Ok(held)
}

impl Held {
    /// Adds what a form holds.
    #[cycle(held)]
    fn add(&mut self, term: &Term) -> Result<(), AllocError>
        ensures requests { IfOk result
            (λ _. self.new.requests.items ≡ self.old.requests.items ++ spec.open_requests (term_view term.now)) }
        ensures calls { IfOk result
            (λ _. self.new.calls.items ≡ self.old.calls.items ++ spec.waiting (term_view term.now)) }
    {
        match term {
            Term::Exec { message, body, .. } => {
                self.requests.push(*message)?;
                self.add(body)
            }
            Term::Fail { message, body, .. } => {
                self.requests.push(*message)?;
                self.add(body)
            }
            Term::Wait(call) => Ok(self.calls.push(call.number)?),
            Term::DeadWait(call) => Ok(self.calls.push(call.number)?),
            Term::Seq { head, .. } => self.add(head),
            Term::Par(strands) => self.add_among(strands),
            Term::Scope { body, .. } => self.add(body),
            Term::Prot(body) => self.add(body),
            Term::Done | Term::Place(_) | Term::Thrown(_) => Ok(()),
        }
    }

    /// Adds what members hold.
    #[cycle(held)]
    fn add_among(&mut self, strands: &[Strand]) -> Result<(), AllocError>
        ensures requests { IfOk result
            (λ _. self.new.requests.items ≡ self.old.requests.items
            ++ spec.held_among spec.only spec.none (members_view strands.now)) }
        ensures calls { IfOk result
            (λ _. self.new.calls.items ≡ self.old.calls.items
            ++ spec.held_among spec.none spec.only (members_view strands.now)) }
    {
        for member in strands {
            self.add(&member.form)?;
        }
        Ok(())
    }
}
