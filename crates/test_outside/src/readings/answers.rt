//! What is said to the requests of a row.
ghost use Rattle.std.specs.Prelude.{None};

use http_port::{Said, Serve};
use jolie_trees::Bytes;
use std::alloc::{AllocError, Global};

/// Says one word after another, of which `nothing` and `later` are no texts, and keeps what it was asked.
#[derive(Drop)]
pub(crate) struct Answers<'a> {
    alloc: Global,
    words: Vec<&'a str>,
    next: usize,
    asked: String,
}

impl<'a> Answers<'a> {
    pub(crate) fn new(alloc: Global, words: &'a str) -> Result<Answers<'a>, AllocError> {
        let words = words.split(' ').collect(alloc)?;
        Ok(Answers {
            alloc,
            words,
            next: 0,
            asked: String::new(alloc),
        })
    }

    /// The bodies that it was handed.
    pub(crate) fn asked(&self) -> &str {
        self.asked.as_str()
    }
}

impl Serve for Answers<'_> {
    ghost heard = { λ _. None };

    ghost said = { λ _. None };

    fn request(&mut self, body: &[u8]) -> Result<Said, AllocError> {
        if !self.asked.as_str().is_empty() {
            self.asked.push_str(", ")?;
        }
        let body = String::from_utf8_lossy(self.alloc, body)?;
        self.asked.push_str(body.as_str())?;
        let word = self.words.get(self.next).copied().unwrap_or("nothing");
        self.next = self.next.saturating_add(1);
        match word {
            "later" => Ok(Said::Later),
            "nothing" => Ok(Said::Nothing),
            text => Ok(Said::Text(Bytes::from_slice(self.alloc, text.as_bytes())?)),
        }
    }
}
