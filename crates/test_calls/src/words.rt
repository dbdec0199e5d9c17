//! Words of lines.

use std::alloc::Global;
use test_values::WordError;

/// A line: who calls, the call, what it is called with, and the answer that is expected.
#[derive(Clone, Copy)]
pub struct Line<'a> {
    pub actor: u32,
    pub call: &'a str,
    pub with: &'a str,
    pub want: &'a str,
}

/// The words that are left.
#[derive(Clone, Copy)]
pub struct Words<'a> {
    pub rest: &'a str,
}

impl<'a> Words<'a> {
    /// The next word.
    pub fn word(&mut self) -> Result<&'a str, WordError> {
        if self.rest.is_empty() {
            return Err(WordError::Lacking);
        }
        let (word, rest) = self.rest.split_once(' ').unwrap_or((self.rest, ""));
        self.rest = rest;
        Ok(word)
    }

    /// The number that the next word is.
    pub fn number(&mut self) -> Result<u32, WordError> {
        number(self.word()?)
    }

    /// The numbers that the next two words are.
    pub fn pair(&mut self) -> Result<(u32, u32), WordError> {
        let first = self.number()?;
        let second = self.number()?;
        Ok((first, second))
    }
}

pub fn number(word: &str) -> Result<u32, WordError> {
    u32::from_str_radix(word, 10).map_err(|_| WordError::Unknown)
}

/// The numbers that words are.
pub fn numbers(alloc: Global, words: &str) -> Result<Vec<u32>, WordError> {
    let mut list = Vec::new(alloc);
    for word in words.split(' ') {
        list.push(number(word)?)?;
    }
    Ok(list)
}

/// What stands after so many words.
pub fn behind(words: &str, count: u32) -> &str {
    let mut rest = words;
    for _ in 0..count {
        rest = rest.split_once(' ').unwrap_or((rest, "")).1;
    }
    rest
}
