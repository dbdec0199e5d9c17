use crate::term::Term;

/// A form that has begun, and the next strand.
#[derive(Drop)]
pub struct Begun {
    pub form: Box<Term>,
    pub next: u64,
}
