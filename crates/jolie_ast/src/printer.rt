ghost use Rattle.std.specs.Prelude.{◌≡◌, ◌++◌, IfOk, OnOk, None, flat_map, string_bytes};
ghost use Rattle.std.specs.Char.{encode_utf8};
ghost use Rattle.jolie_ast.specs.Spacing.{after, with_token, ended};
ghost use Rattle.jolie_ast.specs.PrintedExpressions.{escaped_byte, long_token, name_tokens, quoted_token, truth_token};
ghost use Rattle.jolie_ast.specs.PrintedParts.{int_token};

use crate::name::Name;
use jolie_trees::Text;
use std::alloc::{AllocError, Global};
use std::marker::Model;

/// The text of the tokens so far, with one space between every two; nothing before the first token.
#[derive(Drop)]
pub struct Printer {
    alloc: Global,
    text: Option<String>,
}

impl Model for Printer {
    ghost use Rattle.std.specs.Prelude.{List, ℕ, Option, option_map, string_bytes};

    ghost Value = { Option (List ℕ) };

    ghost view = { λ p. option_map string_bytes p.text };
}

impl Printer {
    pub fn new(alloc: Global) -> Printer
        ensures { result ≡ None }
    {
        Printer { alloc, text: None }
    }

    pub fn token(&mut self, token: &str) -> Result<(), AllocError>
        ensures { OnOk result (self.new ≡ with_token self.old token.now) }
    {
        match &mut self.text {
            Some(text) => {
                text.push_str(" ")?;
                text.push_str(token)?;
            }
            None => self.text = Some(String::from_str(self.alloc, token)?),
        }
        Ok(())
    }

    /// The text, closed by a line feed.
    pub fn finished(self) -> Result<Text, AllocError>
        ensures { IfOk result (λ text. text ≡ ended self) }
    {
        let Printer { alloc, text } = self;
        match text {
            Some(mut text) => {
                text.push_str("\n")?;
                Ok(Text::from_string(text))
            }
            None => Text::new(alloc, "\n"),
        }
    }

    pub fn name(&mut self, name: &Name) -> Result<(), AllocError>
        ensures { OnOk result (self.new ≡ after self.old (name_tokens name.now)) }
    {
        self.token(name.text.as_str())
    }

    pub fn int(&mut self, value: i32) -> Result<(), AllocError>
        ensures { OnOk result (self.new ≡ with_token self.old (int_token value)) }
    {
        let digits = value.to_string(self.alloc)?;
        self.token(digits.as_str())
    }

    pub fn long(&mut self, value: i64) -> Result<(), AllocError>
        ensures { OnOk result (self.new ≡ with_token self.old (long_token value)) }
    {
        let digits = format!(in self.alloc; "{value}L")?;
        self.token(digits.as_str())
    }

    pub fn truth(&mut self, value: bool) -> Result<(), AllocError>
        ensures { OnOk result (self.new ≡ with_token self.old (truth_token value)) }
    {
        if value {
            self.token("true")
        } else {
            self.token("false")
        }
    }

    pub fn quoted(&mut self, text: &Text) -> Result<(), AllocError>
        ensures { OnOk result (self.new ≡ with_token self.old (quoted_token text.now)) }
    {
        let quoted = quoted(self.alloc, text.as_str())?;
        self.token(quoted.as_str())
    }
}

/// A text in quotation marks.
fn quoted(alloc: Global, text: &str) -> Result<String, AllocError>
    ensures { IfOk result (λ quoted. string_bytes quoted ≡ quoted_token text.now) }
{
    let mut quoted = String::from_str(alloc, "\"")?;
    push_escaped(&mut quoted, text)?;
    quoted.push_str("\"")?;
    Ok(quoted)
}

fn push_escaped(quoted: &mut String, text: &str) -> Result<(), AllocError>
    ensures { OnOk result (string_bytes quoted.new ≡ string_bytes quoted.old ++ flat_map escaped_byte text.now) }
{
    for c in text.chars() {
        push_escaped_char(quoted, c)?;
    }
    Ok(())
}

fn push_escaped_char(quoted: &mut String, c: char) -> Result<(), AllocError>
    ensures { OnOk result (string_bytes quoted.new ≡ string_bytes quoted.old
        ++ flat_map escaped_byte (encode_utf8 c)) }
{
    match c {
        '\n' => quoted.push_str("\\n"),
        '\t' => quoted.push_str("\\t"),
        '\r' => quoted.push_str("\\r"),
        '"' => quoted.push_str("\\\""),
        '\\' => quoted.push_str("\\\\"),
        _ => quoted.push(c),
    }
}
