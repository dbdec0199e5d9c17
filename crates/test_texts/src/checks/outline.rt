//! A program as words with one blank between every two.

mod behaviours;
mod expressions;
mod services;
mod types;

use behaviour_tree::{Parts, Service};
use jolie_trees::Text;
use std::alloc::{AllocError, Global};

/// The words so far, and whether memory sufficed for all of them.
#[derive(Drop)]
pub struct Outline {
    alloc: Global,
    text: String,
    ended: Result<(), AllocError>,
}

impl Outline {
    pub fn new(alloc: Global) -> Outline {
        Outline {
            alloc,
            text: String::new(alloc),
            ended: Ok(()),
        }
    }

    /// The words, where memory sufficed.
    pub fn finished(self) -> Result<String, AllocError> {
        let Outline {
            alloc: _,
            text,
            ended,
        } = self;
        match ended {
            Ok(()) => Ok(text),
            Err(error) => Err(error),
        }
    }

    /// The part of this name, which may be one of the service of this number.
    pub fn part(&mut self, parts: &Parts, name: &str, number: usize) {
        match name {
            "types" => self.types(&parts.types),
            "interfaces" => self.interfaces(&parts.interfaces),
            "names" => self.texts(&parts.names),
            _ => match parts.services.get(number) {
                Some(service) => self.clause(service, name),
                None => self.word("no service"),
            },
        }
    }

    fn clause(&mut self, service: &Service, name: &str) {
        match name {
            "execution" => self.execution(service.execution),
            "ports" => self.ports(&service.ports),
            "sets" => self.sets(&service.sets),
            "init" => self.behaviour(&service.init),
            "main" => self.behaviour(&service.main),
            _ => self.word("no part"),
        }
    }

    fn word(&mut self, word: &str) {
        if let Err(error) = added(&mut self.text, word) {
            self.ended = Err(error);
        }
    }

    /// A word that is made first.
    fn made(&mut self, word: Result<String, AllocError>) {
        match word {
            Ok(word) => self.word(word.as_str()),
            Err(error) => self.ended = Err(error),
        }
    }

    fn number(&mut self, number: u32) {
        let digits = number.to_string(self.alloc);
        self.made(digits);
    }

    fn numbers(&mut self, numbers: &Vec<u32>) {
        for number in numbers {
            self.number(*number);
        }
    }

    fn texts(&mut self, texts: &Vec<Text>) {
        for text in texts {
            self.word(text.as_str());
        }
    }

    fn dotted(&mut self, name: &Text) {
        let dotted = format!(in self.alloc; ".{}", name.as_str());
        self.made(dotted);
    }
}

/// Adds a word, with a blank before it where there are others.
fn added(text: &mut String, word: &str) -> Result<(), AllocError> {
    if !text.as_str().is_empty() {
        text.push_str(" ")?;
    }
    text.push_str(word)
}
