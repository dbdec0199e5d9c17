ghost use Rattle.std.specs.Prelude.{◌≡◌, ◌++◌, [], ◌∷◌, OnOk, decimal};
ghost use Rattle.std.specs.Fmt.{signed_decimal};
ghost use Rattle.run_text.specs.Strings.{text_string, bytes_string};
ghost use Rattle.run_text.specs.Words.{flag_word};
ghost use Rattle.run_text.specs.Writing.{after};

use crate::text::{bytes_string, text_string};
use itoa::Buffer;
use jolie_trees::Text;
use std::alloc::{AllocError, Global};
use std::marker::Model;

/// The text as far as it is written.
#[derive(Drop)]
pub(crate) struct Writer {
    alloc: Global,
    text: String,
}

impl Model for Writer {
    ghost use Rattle.std.specs.Prelude.{List, ℕ, string_bytes};

    ghost Value = { List ℕ };

    ghost view = { λ w. string_bytes w.text };
}

impl Writer {
    pub fn new(alloc: Global) -> Writer
        ensures { result ≡ [] }
    {
        Writer {
            alloc,
            text: String::new(alloc),
        }
    }

    /// Writes on, where the text stands.
    pub fn push(&mut self, text: &str) -> Result<(), AllocError>
        ensures { OnOk result (self.new ≡ self.old ++ text.now) }
    {
        self.text.push_str(text)
    }

    /// A number, where the text stands.
    pub fn push_long(&mut self, number: i64) -> Result<(), AllocError>
        ensures { OnOk result (self.new ≡ self.old ++ signed_decimal number) }
    {
        let mut buffer = Buffer::new();
        self.push(buffer.format(number))
    }

    /// A text in quotes, where the text stands.
    pub fn push_string(&mut self, text: &str) -> Result<(), AllocError>
        ensures { OnOk result (self.new ≡ self.old ++ text_string text.now) }
    {
        let quoted = text_string(self.alloc, text)?;
        self.push(quoted.as_str())
    }

    /// A word after others.
    pub fn word(&mut self, word: &str) -> Result<(), AllocError>
        ensures { OnOk result (self.new ≡ after self.old (word.now ∷ [])) }
    {
        self.push(" ")?;
        self.push(word)
    }

    pub fn number(&mut self, number: u64) -> Result<(), AllocError>
        ensures { OnOk result (self.new ≡ after self.old (decimal number ∷ [])) }
    {
        let mut buffer = Buffer::new();
        self.word(buffer.format(number))
    }

    pub fn long(&mut self, number: i64) -> Result<(), AllocError>
        ensures { OnOk result (self.new ≡ after self.old (signed_decimal number ∷ [])) }
    {
        let mut buffer = Buffer::new();
        self.word(buffer.format(number))
    }

    pub fn flag(&mut self, flag: bool) -> Result<(), AllocError>
        ensures { OnOk result (self.new ≡ after self.old (flag_word flag ∷ [])) }
    {
        self.word(if flag { "1" } else { "0" })
    }

    pub fn string(&mut self, text: &Text) -> Result<(), AllocError>
        ensures { OnOk result (self.new ≡ after self.old (text_string text.now ∷ [])) }
    {
        let quoted = text_string(self.alloc, text.as_str())?;
        self.word(quoted.as_str())
    }

    pub fn bytes(&mut self, bytes: &[u8]) -> Result<(), AllocError>
        ensures { OnOk result (self.new ≡ after self.old (bytes_string bytes.now ∷ [])) }
    {
        let quoted = bytes_string(self.alloc, bytes)?;
        self.word(quoted.as_str())
    }

    pub fn end_line(&mut self) -> Result<(), AllocError>
        ensures { OnOk result (self.new ≡ self.old ++ 10 ∷ []) }
    {
        self.push("\n")
    }

    pub fn finished(self) -> Text
        ensures { result ≡ self }
    {
        Text::from_string(self.text)
    }
}
