ghost use Rattle.std.specs.Prelude.{◌≡◌, ◌≤◌, ℕ, List, length, [], Ok, Err, IfOk};
ghost use Rattle.jolie_ast.specs.declared.tree.Definition.{Definition as ADefinition};
ghost use Rattle.jolie_tokens.specs.Texts.{longest, IsRead};
ghost use Rattle.jolie_parse.specs.Classes.{spelled};
ghost use Rattle.jolie_parse.specs.Grammar as spec;
ghost use Rattle.jolie_parse.specs.Reading.{read};
ghost use Rattle.jolie_parse.specs.Reads.{Reads, more};
ghost use Rattle.jolie_parse.specs.Levels.{rest_place};
ghost use Rattle.jolie_parse.specs.Answers.{IsRefusedAt, IsTooDeepAt, UnlessMemory};
ghost use Rattle.jolie_parse.specs.WholeFiles.{read_file, error_at, Gives};

use crate::class::FILE_PART_FIRSTS;
use crate::cursor::Cursor;
use crate::parse_error::ParseError;
use crate::stop::Stop;
use crate::word::Word;
use jolie_ast::{Ast, Definition};
use jolie_tokens::Tokens;
use sqlite_items::Items;
use std::alloc::Global;

/// How deep the parts of a file may nest.
const LEVELS: u32 = 64;

impl<'a> Cursor<'a> {
    #[tactic(auto, using(crate::proofs::Lists::passes, crate::proofs::Lists::stops_then), unfolding(crate::specs::Grammar::file_part, crate::specs::Grammar::type_definition, crate::specs::Grammar::interface))]
    fn file_part(&mut self, levels: u32) -> Result<Definition, Stop>
        ensures { Reads (read levels spec.file_part self.old) result self.new }
    {
        if self.sees_word(Word::Type) {
            return Ok(Definition::Type(self.type_definition(levels)?));
        }
        if self.sees_word(Word::Interface) {
            return Ok(Definition::Interface(self.interface(levels)?));
        }
        Ok(Definition::Service(self.service(levels)?))
    }

    fn file_parts(&mut self, levels: u32) -> Result<Items<Definition>, Stop>
        ensures { Reads (more levels spec.file_part [] self.old) result self.new }
    {
        let mut parts = Items::new(self.alloc);
        while self.sees(&FILE_PART_FIRSTS) {
            parts.push(self.file_part(levels)?)?;
        }
        Ok(parts)
    }

    /// All tokens that are left, as a file.
    pub fn file(&mut self, levels: u32) -> Result<Items<Definition>, Stop>
        ensures { Reads (read_file levels self.old) result self.new }
    {
        let parts = self.file_parts(levels)?;
        if !self.is_empty() {
            return Err(Stop::Syntax);
        }
        Ok(parts)
    }

    /// The error of a text that ends at `end` and is stopped at the next token.
    fn error(&self, stop: Stop, end: u32) -> ParseError
        ensures { result ≡ error_at stop (rest_place end self.now) }
    {
        let at = self.place(end);
        match stop {
            Stop::Syntax => ParseError::Syntax(at),
            Stop::TooDeep => ParseError::TooDeep(at),
            Stop::Memory(cause) => ParseError::Memory(cause),
        }
    }
}

#[tactic(auto, using(crate::proofs::Parses::error_gives))]
fn parse_within(alloc: Global, text: &[u8], tokens: &Tokens, levels: u32) -> Result<Ast, ParseError>
    requires fits { length text.now ≤ longest }
    requires lexed { IsRead text.now tokens.now }
    ensures { Gives (length text.now) (read_file levels (spelled text.now tokens.now)) result }
{
    let mut cursor = Cursor::new(alloc, text, tokens.as_slice());
    match cursor.file(levels) {
        Ok(definitions) => Ok(Ast::new(definitions)),
        Err(stop) => Err(cursor.error(stop, text.len() as u32)),
    }
}

/// The tree of a text that has these tokens.
pub fn parse(alloc: Global, text: &[u8], tokens: &Tokens) -> Result<Ast, ParseError>
    // The tokens are what `lex` gives for the text.
    requires fits { length text.now ≤ longest }
    requires lexed { IsRead text.now tokens.now }
    // What is given derives from the tokens, with nesting at most 64.
    ensures found { IfOk result (λ ast. spec.IsFile 64 (spelled text.now tokens.now) ast) }
    // A file is given, unless memory runs out; no tokens are a file in two ways (`tokens_have_one_tree`).
    ensures complete { (f : List ADefinition) → spec.IsFile 64 (spelled text.now tokens.now) f
        → UnlessMemory result (Ok f) }
    // Syntax at the first token with which those before begin no file, at the text's length where no token is left; and
    // then no token opens level 65.
    ensures syntax { (at : ℕ) → result ≡ Err (ParseError.Syntax at)
        → IsRefusedAt 64 (length text.now) (spelled text.now tokens.now) at }
    // TooDeep at the first token that opens level 65.
    ensures too_deep { (at : ℕ) → result ≡ Err (ParseError.TooDeep at)
        → IsTooDeepAt 64 (length text.now) (spelled text.now tokens.now) at }
    // Where the tokens have the one or the other, it is given, unless memory runs out.
    ensures refused { (at : ℕ) → IsRefusedAt 64 (length text.now) (spelled text.now tokens.now) at
        → UnlessMemory result (Err (ParseError.Syntax at)) }
    ensures deep { (at : ℕ) → IsTooDeepAt 64 (length text.now) (spelled text.now tokens.now) at
        → UnlessMemory result (Err (ParseError.TooDeep at)) }
{
    parse_within(alloc, text, tokens, LEVELS)
}
