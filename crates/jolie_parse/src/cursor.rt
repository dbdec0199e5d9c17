ghost use Rattle.std.specs.Prelude.{◌≡◌, ◌+◌, ◌<◌, ◌↔◌, IsTrue, take, [], ◌∷◌, IfOk};
ghost use Rattle.std.specs.List.{All};
ghost use Rattle.jolie_parse.specs.Classes.{begins, spelled, spelled_one, StandsIn};
ghost use Rattle.jolie_parse.specs.Levels.{rest_place};
ghost use Rattle.jolie_parse.specs.Reading.{Outcome, take_token};
ghost use Rattle.jolie_parse.specs.Reads.{Reads, next_class, why, tail, after, opening_token, closed, closing};

use crate::class::{Class, OPEN_BRACKETS};
use crate::stop::Stop;
use crate::taken::Taken;
use crate::word::Word;
use jolie_tokens::{Sign, Token};
use std::alloc::Global;
use std::marker::Model;

/// The tokens that are left.
#[derive(Drop)]
pub struct Cursor<'a> {
    pub alloc: Global,
    text: &'a [u8],
    tokens: &'a [Token],
    /// The class of the next token.
    next: Option<Class>,
}

impl<'a> Model for Cursor<'a> {
    ghost use Rattle.std.specs.Prelude.{List, ◌≡◌};
    ghost use Rattle.std.specs.List.{All};
    ghost use Rattle.jolie_parse.specs.Classes.{Spelled, spelled, StandsIn};
    ghost use Rattle.jolie_parse.specs.Reads.{next_class};

    ghost Value = { List Spelled };

    ghost view = { λ c. spelled c.text.now c.tokens.now };

    ghost invariant = { λ c. All (StandsIn c.text.now) c.tokens.now × (c.next ≡ next_class (spelled c.text.now c.tokens.now)) };
}

/// A token of a text with its bytes.
fn taken<'a>(text: &'a [u8], token: &'a Token) -> Taken<'a>
    requires { StandsIn text.now token.now }
    ensures { result ≡ spelled_one text.now token.now }
{
    let at = token.at as usize;
    let spelling = &text[at..at + token.len as usize];
    Taken::new(token, spelling)
}

/// The class of the first of these tokens.
fn first_class(text: &[u8], tokens: &[Token]) -> Option<Class>
    requires { All (StandsIn text.now) tokens.now }
    ensures { result ≡ next_class (spelled text.now tokens.now) }
{
    match tokens {
        [] => None,
        [token, ..] => Some(taken(text, token).class()),
    }
}

impl<'a> Cursor<'a> {
    pub fn new(alloc: Global, text: &'a [u8], tokens: &'a [Token]) -> Cursor<'a>
        requires { All (StandsIn text.now) tokens.now }
        ensures { result ≡ spelled text.now tokens.now }
    {
        let next = first_class(text, tokens);
        Cursor {
            alloc,
            text,
            tokens,
            next,
        }
    }

    /// Where the next token begins, in a text that ends at `end`.
    pub fn place(&self, end: u32) -> u32
        ensures { result ≡ rest_place end self.now }
    {
        match self.tokens {
            [] => end,
            [token, ..] => token.at,
        }
    }

    pub fn is_empty(&self) -> bool
        ensures { IsTrue result ↔ (self.now ≡ []) }
    {
        self.tokens.is_empty()
    }

    /// Whether the next token is of one of these classes.
    pub fn sees(&self, classes: &[Class]) -> bool
        ensures { result ≡ begins classes.now self.now }
    {
        match self.next {
            Some(class) => class.is_one_of(classes),
            None => false,
        }
    }

    pub fn sees_sign(&self, sign: Sign) -> bool
        ensures { result ≡ begins (Class.Sign sign ∷ []) self.now }
    {
        self.sees(&[Class::Sign(sign)])
    }

    pub fn sees_word(&self, word: Word) -> bool
        ensures { result ≡ begins (Class.Word word ∷ []) self.now }
    {
        self.sees(&[Class::Word(word)])
    }

    /// The next token, which is to be of one of these classes.
    pub fn take(&mut self, classes: &[Class]) -> Result<Taken<'a>, Stop>
        ensures { Reads (take_token classes.now self.old) result self.new }
    {
        if !self.sees(classes) {
            return Err(Stop::Syntax);
        }
        match self.tokens {
            [token, rest @ ..] => {
                let next = taken(self.text, token);
                *self = Cursor::new(self.alloc, self.text, rest);
                Ok(next)
            }
            [] => Err(Stop::Syntax),
        }
    }

    pub fn sign(&mut self, sign: Sign) -> Result<Taken<'a>, Stop>
        ensures { Reads (take_token (Class.Sign sign ∷ []) self.old) result self.new }
    {
        self.take(&[Class::Sign(sign)])
    }

    pub fn word(&mut self, word: Word) -> Result<Taken<'a>, Stop>
        ensures { Reads (take_token (Class.Word word ∷ []) self.old) result self.new }
    {
        self.take(&[Class::Word(word)])
    }

    /// Takes the next token if it is that sign.
    pub fn eat(&mut self, sign: Sign) -> bool
        ensures found { result ≡ begins (Class.Sign sign ∷ []) self.old }
        ensures rest { self.new ≡ after (Class.Sign sign ∷ []) self.old }
    {
        if !self.sees_sign(sign) {
            return false;
        }
        self.pass();
        true
    }

    /// Passes the next token, if there is one.
    fn pass(&mut self)
        ensures { self.new ≡ tail self.old }
    {
        if let [_, rest @ ..] = self.tokens {
            *self = Cursor::new(self.alloc, self.text, rest);
        }
    }

    /// Why nothing that begins with these classes is read where no level is left.
    fn why(&self, classes: &[Class]) -> Stop
        ensures { result ≡ why classes.now self.now }
    {
        if self.sees(classes) {
            Stop::TooDeep
        } else {
            Stop::Syntax
        }
    }

    /// The token that opens a level, with so many levels left.
    pub fn open(&mut self, classes: &[Class], levels: u32) -> Result<Taken<'a>, Stop>
        ensures reads { Reads (opening_token levels classes.now self.old) result self.new }
        ensures opened { IfOk result (λ _. 0 < levels) }
    {
        if levels == 0 {
            return Err(self.why(classes));
        }
        self.take(classes)
    }

    /// What was read in a bracket, when the sign that closes it follows.
    fn close<T: Drop>(&mut self, part: Result<T, Stop>, close: Sign) -> Result<T, Stop>
        ensures { (o : Outcome T) → Reads o part self.old → Reads (closed o (Class.Sign close)) result self.new }
    {
        let value = part?;
        self.sign(close)?;
        Ok(value)
    }

    /// What was read in a bracket, when the sign that closes it follows, with so many levels left in the bracket.
    pub fn closed<T: Drop>(
        &mut self,
        part: Result<T, Stop>,
        close: Sign,
        levels: u32,
    ) -> Result<T, Stop>
        ensures { (o : Outcome T) → Reads o part self.old
            → Reads (closing o (Class.Sign close) levels) result self.new }
    {
        match self.close(part, close) {
            Err(Stop::Syntax) if levels == 0 => Err(self.why(&OPEN_BRACKETS)),
            other => other,
        }
    }
}
