//! Whether tokens of a text begin a file, and whether they are statements that may be left out of it.

ghost use Rattle.std.specs.Prelude.{◌≡◌, ℕ, true, List, [], IfOk};
ghost use Rattle.std.specs.List.{All};
ghost use Rattle.jolie_parse.specs.Classes.{Spelled, spelled, StandsIn};
ghost use Rattle.jolie_parse.specs.ClassNames as c;
ghost use Rattle.jolie_parse.specs.Factored.{one_statement};
ghost use Rattle.jolie_parse.specs.LeftOut.{AreNext, IsBeginning};
ghost use Rattle.jolie_parse.specs.Reads.{Reads, Stops, more};
ghost use Rattle.jolie_parse.specs.Syntax.{behind};
ghost use Rattle.jolie_parse.specs.WholeFiles.{read_file};

use crate::cursor::Cursor;
use crate::stop::Stop;
use jolie_ast::Process;
use jolie_tokens::{Sign, Token};
use sqlite_items::Items;
use std::alloc::{AllocError, Global};

/// What tokens are, read as a file.
#[derive(Clone, Copy, Debug, PartialEq, Eq)]
pub enum Beginning {
    /// They are a file or begin one.
    MayGoOn,
    /// They are none and begin none.
    Stops,
    /// One of them opens a level too many.
    TooDeep,
}

/// Whether tokens of a text are a file or begin one, with so many levels of nesting.
pub fn begin_file(
    alloc: Global,
    text: &[u8],
    tokens: &[Token],
    levels: u32,
) -> Result<Beginning, AllocError>
    requires { All (StandsIn text.now) tokens.now }
    ensures { IfOk result (λ beginning. IsBeginning levels (spelled text.now tokens.now) beginning) }
{
    let mut cursor = Cursor::new(alloc, text, tokens);
    match cursor.file(levels) {
        Ok(_) => Ok(Beginning::MayGoOn),
        Err(stop) => stopped(&cursor, stop),
    }
}

/// What tokens are of which reading is stopped where these are left.
fn stopped(left: &Cursor, stop: Stop) -> Result<Beginning, AllocError>
    ensures { IfOk result (λ beginning. (levels : ℕ) (tokens : List Spelled)
        → Stops (read_file levels tokens) stop left.now → IsBeginning levels tokens beginning) }
{
    match stop {
        Stop::Syntax => {
            if left.is_empty() {
                return Ok(Beginning::MayGoOn);
            }
            Ok(Beginning::Stops)
        }
        Stop::TooDeep => Ok(Beginning::TooDeep),
        Stop::Memory(cause) => Err(cause),
    }
}

impl<'a> Cursor<'a> {
    /// Statements, each after a `;`, as long as there are.
    fn next_statements(&mut self, levels: u32) -> Result<Items<Process>, Stop>
        ensures { Reads (more levels (behind c.sign_semicolon one_statement) [] self.old) result self.new }
    {
        let mut statements = Items::new(self.alloc);
        while self.eat(Sign::Semicolon) {
            statements.push(self.statement(levels)?)?;
        }
        Ok(statements)
    }
}

/// Whether tokens of a text are found to be statements, each after a `;`, with so many levels of nesting.
pub fn are_next_statements(
    alloc: Global,
    text: &[u8],
    tokens: &[Token],
    levels: u32,
) -> Result<bool, AllocError>
    requires { All (StandsIn text.now) tokens.now }
    ensures { IfOk result (λ found. found ≡ true → AreNext levels (spelled text.now tokens.now)) }
{
    let mut cursor = Cursor::new(alloc, text, tokens);
    match cursor.next_statements(levels) {
        Ok(_) => Ok(cursor.is_empty()),
        Err(Stop::Syntax) => Ok(false),
        Err(Stop::TooDeep) => Ok(false),
        Err(Stop::Memory(cause)) => Err(cause),
    }
}
