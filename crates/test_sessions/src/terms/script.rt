//! Terms out of steps.

use crate::terms::forms;
use behaviour_tree::Behaviour;
use session_forms::{
    Begun, Rest, ScopeState, Term, begin, begin_both, begin_rest, boxed, in_sequence, protect,
    started, started_both,
};
use std::alloc::Global;
use test_behaviours::{read_behaviour, read_handlers};
use test_values::WordError;

/// The forms that steps made and no later step took, and the next strand. A step is a line:
///
/// - `begin P` and `begin_both P / P`, `started P` and `started_both P / P` make what these calls give;
///   `begin_rest P` has the members of a sequence for its rests, and `turn P` starts the body of a while, followed by
///   that while.
/// - `done`, `place P`, `thrown F`, `wait K` and `dead K` are forms without parts, the last two with handlers.
/// - `then P` puts a rest after the last form, and `beside N` takes the last N forms as members of a parallel.
/// - `scope S` puts a live scope around the last form, which `caught F`, `term`, `last` and `zombie` bring into
///   another state, and `with K` installs handlers in it.
/// - `exec M`, `fail M F` and `prot` stand around the last form.
#[derive(Drop)]
pub struct Script {
    pub alloc: Global,
    forms: Vec<Box<Term>>,
    pub next: u64,
}

impl Script {
    /// What steps make, where the strands are numbered from 1.
    pub fn of(alloc: Global, steps: &str) -> Result<Script, WordError> {
        let mut script = Script {
            alloc,
            forms: Vec::new(alloc),
            next: 1,
        };
        for step in steps.split('\n') {
            script.step(step)?;
        }
        Ok(script)
    }

    /// The last form, which is taken.
    pub fn last(&mut self) -> Result<Box<Term>, WordError> {
        self.forms.pop().ok_or(WordError::Lacking)
    }

    pub fn put(&mut self, form: Box<Term>) -> Result<(), WordError> {
        self.forms.push(form)?;
        Ok(())
    }

    fn step(&mut self, step: &str) -> Result<(), WordError> {
        let (verb, rest) = step.split_once(' ').unwrap_or((step, ""));
        match verb {
            "begin" => self.begin(rest),
            "begin_both" => self.begin_both(rest),
            "begin_rest" => self.begin_rest(rest),
            "started" => self.started(rest),
            "started_both" => self.started_both(rest),
            "turn" => self.turn(rest),
            "done" => self.done(),
            "place" => self.place(rest),
            "thrown" => self.thrown(number(rest)?),
            "wait" => self.wait(rest),
            "dead" => self.dead(rest),
            _ => self.around(verb, rest),
        }
    }

    /// What stands around the last forms.
    fn around(&mut self, verb: &str, rest: &str) -> Result<(), WordError> {
        match verb {
            "then" => self.then(rest),
            "beside" => self.beside(number(rest)?),
            "scope" => self.scope(number(rest)?),
            "caught" => self.caught(number(rest)?),
            "term" => self.state(ScopeState::Term),
            "last" => self.state(ScopeState::Last),
            "zombie" => self.state(ScopeState::Zombie),
            "with" => self.handlers(rest),
            "exec" => self.request(number(rest)?),
            "fail" => self.failed(rest),
            "prot" => self.protected(),
            _ => Err(WordError::Unknown),
        }
    }

    fn put_begun(&mut self, begun: Begun) -> Result<(), WordError> {
        let Begun { form, next } = begun;
        self.next = next;
        self.put(form)
    }

    fn begin(&mut self, words: &str) -> Result<(), WordError> {
        let behaviour = read_behaviour(self.alloc, words)?;
        let begun = begin(self.alloc, &behaviour, self.next)?;
        self.put_begun(begun)
    }

    fn begin_both(&mut self, words: &str) -> Result<(), WordError> {
        let (first, second) = words.split_once(" / ").ok_or(WordError::Lacking)?;
        let first = read_behaviour(self.alloc, first)?;
        let second = read_behaviour(self.alloc, second)?;
        let begun = begin_both(self.alloc, &first, &second, self.next)?;
        self.put_begun(begun)
    }

    fn begin_rest(&mut self, words: &str) -> Result<(), WordError> {
        let behaviour = read_behaviour(self.alloc, words)?;
        let rest = members_of(self.alloc, &behaviour)?;
        let begun = begin_rest(self.alloc, rest, self.next)?;
        self.put_begun(begun)
    }

    fn started(&mut self, words: &str) -> Result<(), WordError> {
        let behaviour = read_behaviour(self.alloc, words)?;
        let begun = started(self.alloc, &behaviour, self.next)?;
        self.put_begun(begun)
    }

    fn started_both(&mut self, words: &str) -> Result<(), WordError> {
        let (first, second) = words.split_once(" / ").ok_or(WordError::Lacking)?;
        let first = read_behaviour(self.alloc, first)?;
        let second = read_behaviour(self.alloc, second)?;
        let begun = started_both(self.alloc, &first, &second, self.next)?;
        self.put_begun(begun)
    }

    fn turn(&mut self, words: &str) -> Result<(), WordError> {
        let behaviour = read_behaviour(self.alloc, words)?;
        let begun = turn_of(self.alloc, &behaviour, self.next)?;
        self.put_begun(begun)
    }

    fn done(&mut self) -> Result<(), WordError> {
        let form = boxed(self.alloc, Term::Done)?;
        self.put(form)
    }

    fn place(&mut self, words: &str) -> Result<(), WordError> {
        let behaviour = read_behaviour(self.alloc, words)?;
        let form = forms::place(self.alloc, behaviour)?;
        self.put(form)
    }

    fn thrown(&mut self, fault: u32) -> Result<(), WordError> {
        let form = forms::thrown(self.alloc, fault)?;
        self.put(form)
    }

    fn wait(&mut self, words: &str) -> Result<(), WordError> {
        let (call, words) = words.split_once(' ').ok_or(WordError::Lacking)?;
        let handlers = read_handlers(self.alloc, words)?;
        let form = forms::waiting(self.alloc, number(call)?, handlers)?;
        self.put(form)
    }

    fn dead(&mut self, words: &str) -> Result<(), WordError> {
        let (call, words) = words.split_once(' ').ok_or(WordError::Lacking)?;
        let handlers = read_handlers(self.alloc, words)?;
        let form = forms::dead(self.alloc, number(call)?, handlers)?;
        self.put(form)
    }

    fn then(&mut self, words: &str) -> Result<(), WordError> {
        let behaviour = read_behaviour(self.alloc, words)?;
        let head = self.last()?;
        let rest = Rest::of_one(self.alloc, &behaviour)?;
        let form = in_sequence(self.alloc, head, rest)?;
        self.put(form)
    }

    fn beside(&mut self, count: u32) -> Result<(), WordError> {
        let first = self
            .forms
            .len()
            .checked_sub(count as usize)
            .ok_or(WordError::Lacking)?;
        let list = self.forms.split_off(first)?;
        let number = self.next;
        self.next = number.checked_add(count as u64).ok_or(WordError::Lacking)?;
        let form = forms::members(self.alloc, list, number)?;
        self.put(form)
    }

    fn scope(&mut self, name: u32) -> Result<(), WordError> {
        let body = self.last()?;
        let form = forms::scope(self.alloc, name, body)?;
        self.put(form)
    }

    fn caught(&mut self, fault: u32) -> Result<(), WordError> {
        let fault = forms::fault(self.alloc, fault)?;
        self.state(ScopeState::Caught(fault))
    }

    fn state(&mut self, state: ScopeState) -> Result<(), WordError> {
        let mut form = self.last()?;
        forms::put_state(&mut form, state)?;
        self.put(form)
    }

    fn handlers(&mut self, words: &str) -> Result<(), WordError> {
        let handlers = read_handlers(self.alloc, words)?;
        let mut form = self.last()?;
        forms::put_handlers(&mut form, &handlers)?;
        self.put(form)
    }

    fn request(&mut self, message: u32) -> Result<(), WordError> {
        let body = self.last()?;
        let form = forms::request(self.alloc, message, body)?;
        self.put(form)
    }

    fn failed(&mut self, words: &str) -> Result<(), WordError> {
        let (message, fault) = two_numbers(words)?;
        let body = self.last()?;
        let form = forms::failed(self.alloc, message, fault, body)?;
        self.put(form)
    }

    fn protected(&mut self) -> Result<(), WordError> {
        let mut form = self.last()?;
        protect(self.alloc, &mut form)?;
        self.put(form)
    }
}

/// The members of a sequence as rests.
fn members_of(alloc: Global, behaviour: &Behaviour) -> Result<Rest, WordError> {
    match behaviour {
        Behaviour::Sequence(list) => Ok(Rest::of_copies(alloc, list)?),
        _ => Err(WordError::Lacking),
    }
}

/// A turn of a while.
fn turn_of(alloc: Global, place: &Behaviour, next: u64) -> Result<Begun, WordError> {
    match place {
        Behaviour::While { body, .. } => Ok(started_both(alloc, body, place, next)?),
        _ => Err(WordError::Lacking),
    }
}

pub fn number(word: &str) -> Result<u32, WordError> {
    u32::from_str_radix(word, 10).map_err(|_| WordError::Unknown)
}

pub fn two_numbers(words: &str) -> Result<(u32, u32), WordError> {
    let (one, other) = words.split_once(' ').ok_or(WordError::Lacking)?;
    Ok((number(one)?, number(other)?))
}
