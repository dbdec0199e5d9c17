//! Lines by which sessions are born, bind their variables, are looked for and released.
ghost use Rattle.std.specs.Prelude.{◌≡◌, ◌<◌};

use crate::keys::shapes::sets_named;
use correlation::{BindReply, Rows, Sought};
use jolie_trees::Root;
use std::alloc::{AllocError, Global};
use std::marker::Brand;
use std::sync::ledger::{Blank, Ledger};
use test_values::{WordError, read_root};

/// What the lines give, a line for each.
///
/// A line is a verb with numbers and values: `birth SESSION SETS`, `bind SESSION VARIABLE VALUE`, `find SET VALUE ..`,
/// `release SESSION`. Of many sessions, whose keys are numbers: `fill COUNT` bears and binds them, `found COUNT` looks
/// for each, `thin COUNT` releases those with even numbers.
pub fn told(alloc: Global, lines: &str) -> Result<String, WordError> {
    let mut script = Script {
        alloc,
        rows: Rows::new(alloc),
    };
    let mut all = String::new(alloc);
    for line in lines.split('\n') {
        if !all.as_str().is_empty() {
            all.push('\n')?;
        }
        all.push_str(script.line(line)?.as_str())?;
    }
    Ok(all)
}

/// The rows of a script.
#[derive(Drop)]
struct Script {
    alloc: Global,
    rows: Rows,
}

impl Script {
    fn line(&mut self, line: &str) -> Result<String, WordError> {
        let (verb, rest) = line.split_once(' ').unwrap_or((line, ""));
        let (first, rest) = rest.split_once(' ').unwrap_or((rest, ""));
        let first = number(first)?;
        match verb {
            "birth" => self.birth(first, rest),
            "bind" => self.bind(first, rest),
            "find" => self.find(first, rest),
            "release" => self.release(first),
            "fill" => self.fill(first),
            "found" => self.found(first),
            "thin" => self.thin(first),
            _ => Err(WordError::Unknown),
        }
    }

    fn birth(&mut self, session: u32, sets: &str) -> Result<String, WordError> {
        if self.rows.is_born(session) {
            return Ok(String::from_str(self.alloc, "born before")?);
        }
        let sets = sets_named(self.alloc, sets)?;
        self.rows.birth(session, sets.as_slice())?;
        Ok(String::from_str(self.alloc, "born")?)
    }

    fn bind(&mut self, session: u32, words: &str) -> Result<String, WordError> {
        if !self.rows.is_live(session) {
            return Ok(String::from_str(self.alloc, "not live")?);
        }
        let (variable, value) = words.split_once(' ').ok_or(WordError::Lacking)?;
        let value = read_root(self.alloc, value)?;
        let reply = self.rows.bind(session, number(variable)?, value)?;
        Ok(shown_reply(self.alloc, reply)?)
    }

    fn find(&mut self, set: u32, words: &str) -> Result<String, WordError> {
        let mut values = Vec::new(self.alloc);
        for word in words.split(' ') {
            values.push(read_root(self.alloc, word)?)?;
        }
        match find_in::<Brand>(&self.rows, set, values.as_slice(), Blank::new(1)) {
            Some(session) => Ok(session.to_string(self.alloc)?),
            None => Ok(String::from_str(self.alloc, "-")?),
        }
    }

    fn release(&mut self, session: u32) -> Result<String, WordError> {
        if !self.rows.is_live(session) {
            return Ok(String::from_str(self.alloc, "not live")?);
        }
        self.rows.release(session);
        Ok(String::from_str(self.alloc, "released")?)
    }

    /// Bears sessions from 0 on, each with a number of its own as its key in set 1.
    fn fill(&mut self, count: u32) -> Result<String, WordError> {
        for session in 0..count {
            if self.rows.is_born(session) {
                return Ok(String::from_str(self.alloc, "born before")?);
            }
            let sets = sets_named(self.alloc, "single")?;
            self.rows.birth(session, sets.as_slice())?;
            if !self.rows.is_live(session) {
                return Ok(String::from_str(self.alloc, "not live")?);
            }
            let reply = self.rows.bind(session, 10, key(session))?;
            if reply != BindReply::Bound {
                return Ok(shown_reply(self.alloc, reply)?);
            }
        }
        Ok(String::from_str(self.alloc, "filled")?)
    }

    fn found(&mut self, count: u32) -> Result<String, WordError> {
        for session in 0..count {
            if find_in::<Brand>(&self.rows, 1, &[key(session)], Blank::new(1)) != Some(session) {
                return Ok(String::from_str(self.alloc, "lost")?);
            }
        }
        Ok(String::from_str(self.alloc, "found")?)
    }

    fn thin(&mut self, count: u32) -> Result<String, WordError> {
        for session in 0..count {
            if session % 2 == 0 && self.rows.is_live(session) {
                self.rows.release(session);
            }
        }
        Ok(String::from_str(self.alloc, "thinned")?)
    }
}

/// The session whose key in a set has these values.
fn find_in<L: Ledger>(rows: &Rows, set: u32, values: &[Root], blank: Blank) -> Option<u32>
    requires name { blank.name ≡ L.name }
    requires parts { blank.parts ≡ L.parts }
    requires some { 0 < blank.parts }
{
    let mut sought = Sought::<L>::new(values, blank);
    rows.find(set, &mut sought)
}

/// A number that no other session below 4,096 has, neither rising nor falling with them.
fn key(session: u32) -> Root {
    Root::Long(i64::from(session ^ 1365))
}

fn number(word: &str) -> Result<u32, WordError> {
    u32::from_str_radix(word, 10).map_err(|_| WordError::Unknown)
}

fn shown_reply(alloc: Global, reply: BindReply) -> Result<String, AllocError> {
    match reply {
        BindReply::Bound => String::from_str(alloc, "bound"),
        BindReply::Held(session) => format!(in alloc; "held by {session}"),
        BindReply::Fixed => String::from_str(alloc, "fixed"),
    }
}
