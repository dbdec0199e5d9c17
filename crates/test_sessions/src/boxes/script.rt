//! Lines that put into boxes and take from them, and that note, answer and collect messages.

use behaviour_tree::{Outcome, Reason};
use post_box::Boxes;
use reqresp_book::{Book, Origin};
use std::alloc::{AllocError, Global};
use test_values::WordError;

/// What the lines give, a line for each.
///
/// A line is a verb with a session or message: `put S OP M`, `fill S COUNT`, `take S OP ..`, `first S OP ..`, `any S`,
/// `len S`; `open M POSTING`, `answer M CODE`, `collect M`, `outcome M`, `state M`, `origin M`.
pub fn told(alloc: Global, lines: &str) -> Result<String, WordError> {
    let mut mail = Mail {
        alloc,
        boxes: Boxes::new(alloc),
        book: Book::new(alloc),
    };
    let mut all = String::new(alloc);
    for line in lines.split('\n') {
        if !all.as_str().is_empty() {
            all.push('\n')?;
        }
        all.push_str(mail.line(line)?.as_str())?;
    }
    Ok(all)
}

/// The boxes and the book of a script.
#[derive(Drop)]
struct Mail {
    alloc: Global,
    boxes: Boxes,
    book: Book,
}

impl Mail {
    fn line(&mut self, line: &str) -> Result<String, WordError> {
        let (verb, rest) = line.split_once(' ').unwrap_or((line, ""));
        let (first, rest) = rest.split_once(' ').unwrap_or((rest, ""));
        let place = number(first)?;
        let numbers = numbers(self.alloc, rest)?;
        match verb {
            "put" => self.put(place, numbers.as_slice()),
            "fill" => self.fill(place, numbers.as_slice()),
            "take" => Ok(shown(self.alloc, self.boxes.take(place, numbers.as_slice()))?),
            "first" => Ok(shown(self.alloc, self.boxes.first(place, numbers.as_slice()))?),
            "any" => Ok(shown(self.alloc, self.boxes.take_any(place))?),
            "len" => Ok(self.boxes.len(place).to_string(self.alloc)?),
            _ => self.noted(verb, place, numbers.as_slice()),
        }
    }

    fn put(&mut self, session: u32, words: &[u32]) -> Result<String, WordError> {
        match words {
            [op, message] => match self.boxes.put(session, *op, *message) {
                Ok(()) => Ok(String::from_str(self.alloc, "put")?),
                Err(refusal) => Ok(format!(in self.alloc; "{refusal}")?),
            },
            _ => Err(WordError::Lacking),
        }
    }

    /// Puts so many messages, of operation 0 and with the numbers from 0 on.
    fn fill(&mut self, session: u32, words: &[u32]) -> Result<String, WordError> {
        match words {
            [count] => {
                for message in 0..*count {
                    if self.boxes.put(session, 0, message).is_err() {
                        return Ok(String::from_str(self.alloc, "refused")?);
                    }
                }
                Ok(String::from_str(self.alloc, "filled")?)
            }
            _ => Err(WordError::Lacking),
        }
    }

    fn noted(&mut self, verb: &str, message: u32, words: &[u32]) -> Result<String, WordError> {
        match verb {
            "open" => self.open(message, words),
            "answer" => self.answer(message, words),
            "collect" => Ok(shown_outcome(self.alloc, self.book.collect(message).as_ref())?),
            "outcome" => Ok(shown_outcome(self.alloc, self.book.outcome(message))?),
            "state" => Ok(String::from_str(self.alloc, state(&self.book, message))?),
            "origin" => Ok(shown_origin(self.alloc, self.book.origin(message))?),
            _ => Err(WordError::Unknown),
        }
    }

    fn open(&mut self, message: u32, words: &[u32]) -> Result<String, WordError> {
        match words {
            [posting] => {
                if self.book.origin(message).is_some() {
                    return Ok(String::from_str(self.alloc, "noted before")?);
                }
                let origin = Origin::Port {
                    posting: *posting,
                    index: 0,
                };
                self.book.open(message, origin)?;
                Ok(String::from_str(self.alloc, "noted")?)
            }
            _ => Err(WordError::Lacking),
        }
    }

    /// Answers a message by a refusal with a code.
    fn answer(&mut self, message: u32, words: &[u32]) -> Result<String, WordError> {
        match words {
            [code] => {
                if !self.book.is_open(message) {
                    return Ok(String::from_str(self.alloc, "not open")?);
                }
                let outcome = Outcome::Refused(Reason::Other(i64::from(*code)));
                self.book.answer(message, outcome);
                Ok(String::from_str(self.alloc, "answered")?)
            }
            _ => Err(WordError::Lacking),
        }
    }
}

fn number(word: &str) -> Result<u32, WordError> {
    u32::from_str_radix(word, 10).map_err(|_| WordError::Unknown)
}

fn numbers(alloc: Global, words: &str) -> Result<Vec<u32>, WordError> {
    let mut list = Vec::new(alloc);
    if words.is_empty() {
        return Ok(list);
    }
    for word in words.split(' ') {
        list.push(number(word)?)?;
    }
    Ok(list)
}

/// The number of a message, `-` where there is none.
fn shown(alloc: Global, message: Option<u32>) -> Result<String, AllocError> {
    match message {
        Some(message) => message.to_string(alloc),
        None => String::from_str(alloc, "-"),
    }
}

/// The code of a refusal, `-` where there is no outcome.
fn shown_outcome(alloc: Global, outcome: Option<&Outcome>) -> Result<String, AllocError> {
    match outcome {
        Some(Outcome::Refused(reason)) => reason.code().to_string(alloc),
        Some(Outcome::Value(_)) | Some(Outcome::Fault { .. }) => String::from_str(alloc, "a value"),
        None => String::from_str(alloc, "-"),
    }
}

fn shown_origin(alloc: Global, origin: Option<&Origin>) -> Result<String, AllocError> {
    match origin {
        Some(Origin::Port { posting, .. }) => posting.to_string(alloc),
        Some(Origin::Session { call, .. }) => call.to_string(alloc),
        None => String::from_str(alloc, "-"),
    }
}

fn state(book: &Book, message: u32) -> &'static str {
    if book.is_open(message) {
        "open"
    } else {
        "not open"
    }
}
