//! Lines that change the tables or ask of them.

use behaviour_tree::{Behaviour, Handlers};
use handler_table::Table;
use std::alloc::{AllocError, Global};
use test_behaviours::{Outline, read_handlers};
use test_values::WordError;

/// What the lines give, a line for each.
///
/// A line is `inner` or `outer` with a call of that table, or `end`: the inner scope ends, and what it passes goes over
/// the outer table.
pub fn told(alloc: Global, lines: &str) -> Result<String, WordError> {
    let mut scopes = Scopes::new(alloc);
    let mut all = String::new(alloc);
    for line in lines.split('\n') {
        if !all.as_str().is_empty() {
            all.push('\n')?;
        }
        all.push_str(scopes.line(line)?.as_str())?;
    }
    Ok(all)
}

/// The handlers of a scope and of the one around it.
#[derive(Drop)]
struct Scopes {
    alloc: Global,
    inner: Table,
    outer: Table,
}

impl Scopes {
    fn new(alloc: Global) -> Scopes {
        Scopes {
            alloc,
            inner: Table::empty(alloc),
            outer: Table::empty(alloc),
        }
    }

    fn line(&mut self, line: &str) -> Result<String, WordError> {
        let (table, call) = line.split_once(' ').unwrap_or((line, ""));
        match table {
            "inner" => told_of_call(self.alloc, &mut self.inner, 1, call),
            "outer" => told_of_call(self.alloc, &mut self.outer, 0, call),
            "end" => self.ended(),
            _ => Err(WordError::Unknown),
        }
    }

    fn ended(&mut self) -> Result<String, WordError> {
        let completed = taken(self.alloc, &mut self.inner).completed();
        match u32::try_from(completed.list.len()) {
            Ok(count) => {
                self.outer.reserve(count)?;
                self.outer.merge(completed);
                Ok(String::from_str(self.alloc, "ended")?)
            }
            Err(_) => Err(WordError::Lacking),
        }
    }
}

/// A table, which is empty from then on.
fn taken(alloc: Global, table: &mut Table) -> Table {
    std::mem::replace(table, Table::empty(alloc))
}

fn number(word: &str) -> Result<u32, WordError> {
    u32::from_str_radix(word, 10).map_err(|_| WordError::Unknown)
}

fn told_of_call(
    alloc: Global,
    table: &mut Table,
    scope: u32,
    call: &str,
) -> Result<String, WordError> {
    let (verb, rest) = call.split_once(' ').unwrap_or((call, ""));
    match verb {
        "install" => installed(alloc, table, scope, rest),
        "drop" => Ok(shown(alloc, table.drop_fault(number(rest)?))?),
        "spend" => Ok(shown(alloc, table.spend(number(rest)?))?),
        "completed" => Ok(shown_handlers(alloc, &taken(alloc, table).completed())?),
        _ => asked(alloc, table, scope, verb, rest),
    }
}

fn installed(
    alloc: Global,
    table: &mut Table,
    scope: u32,
    words: &str,
) -> Result<String, WordError> {
    let handlers = read_handlers(alloc, words)?;
    match table.install(&handlers, scope) {
        Ok(()) => Ok(String::from_str(alloc, "installed")?),
        Err(refusal) => Ok(format!(in alloc; "{refusal}")?),
    }
}

/// What the table is asked.
fn asked(
    alloc: Global,
    table: &Table,
    scope: u32,
    verb: &str,
    rest: &str,
) -> Result<String, WordError> {
    match verb {
        "fits" => {
            let handlers = read_handlers(alloc, rest)?;
            Ok(table.fits(&handlers, scope).to_string(alloc)?)
        }
        "fault" => Ok(seen(alloc, table.fault(number(rest)?))?),
        "scope" => Ok(seen(alloc, table.scope(number(rest)?))?),
        _ => Err(WordError::Unknown),
    }
}

fn shown(alloc: Global, found: Option<Behaviour>) -> Result<String, AllocError> {
    seen(alloc, found.as_ref())
}

/// The words of a behaviour, `-` where there is none.
fn seen(alloc: Global, found: Option<&Behaviour>) -> Result<String, AllocError> {
    let mut outline = Outline::new(alloc);
    match found {
        Some(behaviour) => outline.behaviour(behaviour)?,
        None => outline.word("-")?,
    }
    Ok(outline.finished())
}

fn shown_handlers(alloc: Global, handlers: &Handlers) -> Result<String, AllocError> {
    let mut outline = Outline::new(alloc);
    if handlers.list.is_empty() {
        outline.word("-")?;
    }
    outline.handlers(handlers)?;
    Ok(outline.finished())
}
