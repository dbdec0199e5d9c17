//! Statements in which blocks stand, the blocks, and what is read inside them.

ghost use Rattle.std.specs.Prelude.{◌≡◌};
ghost use Rattle.jolie_parse.specs.ClassNames as c;
ghost use Rattle.jolie_parse.specs.Factored as factored;
ghost use Rattle.jolie_parse.specs.Grammar as spec;
ghost use Rattle.jolie_parse.specs.Meanings as means_as;
ghost use Rattle.jolie_parse.specs.Reading.{read};
ghost use Rattle.jolie_parse.specs.Reads.{Reads};
ghost use Rattle.jolie_parse.specs.Syntax as syntax;

use crate::class::{Class, IDS, STATEMENT_FIRSTS};
use crate::cursor::Cursor;
use crate::list::one;
use crate::simple::ForParts;
use crate::stop::Stop;
use crate::taken::Taken;
use crate::word::Word;
use jolie_ast::{
    Answer, Block, Branch, Expr, Handler, If, Input, Otherwise, Path, Process, Reply, Step,
};
use jolie_tokens::Sign;
use sqlite_items::{Boxed, Items};

/// An `if` behind its word.
#[derive(Drop)]
pub struct IfParts {
    pub test: Expr,
    pub body: Block,
    pub otherwise: Otherwise,
}

fn if_of(word: &Taken, parts: IfParts) -> If
    ensures { result ≡ means_as.if_of word.now parts }
{
    If {
        at: word.at(),
        test: parts.test,
        body: parts.body,
        otherwise: parts.otherwise,
    }
}

fn for_of(word: &Taken, parts: ForParts, body: Block) -> Process
    ensures { result ≡ means_as.for_of word.now parts body }
{
    Process::For {
        at: word.at(),
        path: parts.path,
        first: parts.first,
        test: parts.test,
        stepped: parts.stepped,
        step: parts.step,
        body,
    }
}

/// A choice, at its first bracket.
fn choice_of(branches: Items<Branch>) -> Process
    ensures { result ≡ means_as.choice_of branches }
{
    let at = match branches.get(0) {
        Some(first) => first.at,
        None => 0,
    };
    Process::Choice { at, branches }
}

/// Statements one after the other; one alone is itself.
fn sequence_of(mut statements: Items<Process>) -> Process
    ensures { result ≡ means_as.sequence_of statements }
{
    if statements.len() == 1 {
        return statements.remove(0);
    }
    Process::Sequence(statements)
}

/// Sequences beside one another; one alone is itself.
fn parallel_of(mut sequences: Items<Process>) -> Process
    ensures { result ≡ means_as.parallel_of sequences }
{
    if sequences.len() == 1 {
        return sequences.remove(0);
    }
    Process::Parallel(sequences)
}

impl<'a> Cursor<'a> {
    #[tactic(auto, using(crate::proofs::Lists::passes, crate::proofs::Lists::stops_then, crate::proofs::Inside::opened_stops, crate::proofs::Inside::inside_stops, crate::proofs::Inside::inside_read), unfolding(crate::specs::Grammar::block))]
    #[cycle(process)]
    pub fn block(&mut self, levels: u32) -> Result<Block, Stop>
        ensures { Reads (read levels spec.block self.old) result self.new }
    {
        let open = self.open(&[Class::Sign(Sign::OpenBrace)], levels)?;
        let part = self.body(levels - 1);
        let body = self.closed(part, Sign::CloseBrace, levels - 1)?;
        Ok(Block {
            at: open.at(),
            body,
        })
    }

    /// The inside of a block.
    #[cycle(process)]
    fn body(&mut self, levels: u32) -> Result<Option<Boxed<Process>>, Stop>
        ensures { Reads (read levels (syntax.optional (spec.in_parallel factored.one_statement)) self.old) result
            self.new }
    {
        if !self.sees(&STATEMENT_FIRSTS) {
            return Ok(None);
        }
        let process = self.parallel(levels)?;
        Ok(Some(Boxed::new(self.alloc, process)?))
    }

    /// Sequences with `|` between them.
    #[tactic(auto, using(crate::proofs::Lists::passes, crate::proofs::Lists::stops_then))]
    #[cycle(process)]
    fn parallel(&mut self, levels: u32) -> Result<Process, Stop>
        ensures { Reads (read levels (spec.in_parallel factored.one_statement) self.old) result self.new }
    {
        Ok(parallel_of(self.sequences(levels)?))
    }

    #[cycle(process)]
    fn sequences(&mut self, levels: u32) -> Result<Items<Process>, Stop>
        ensures { Reads (read levels (syntax.separated c.sign_bar (spec.in_sequence factored.one_statement))
            self.old) result self.new }
    {
        let first = self.sequence(levels)?;
        let mut sequences = one(self.alloc, first)?;
        while self.eat(Sign::Bar) {
            sequences.push(self.sequence(levels)?)?;
        }
        Ok(sequences)
    }

    /// Statements with `;` between them.
    #[tactic(auto, using(crate::proofs::Lists::passes, crate::proofs::Lists::stops_then))]
    #[cycle(process)]
    fn sequence(&mut self, levels: u32) -> Result<Process, Stop>
        ensures { Reads (read levels (spec.in_sequence factored.one_statement) self.old) result self.new }
    {
        Ok(sequence_of(self.statements(levels)?))
    }

    #[cycle(process)]
    fn statements(&mut self, levels: u32) -> Result<Items<Process>, Stop>
        ensures { Reads (read levels (syntax.separated c.sign_semicolon factored.one_statement) self.old) result
            self.new }
    {
        let first = self.statement(levels)?;
        let mut statements = one(self.alloc, first)?;
        while self.eat(Sign::Semicolon) {
            statements.push(self.statement(levels)?)?;
        }
        Ok(statements)
    }

    #[cycle(process)]
    pub fn statement(&mut self, levels: u32) -> Result<Process, Stop>
        ensures { Reads (read levels factored.one_statement self.old) result self.new }
    {
        if self.sees_word(Word::NullProcess) {
            return self.nothing();
        }
        if self.sees(&IDS) {
            return self.named(levels);
        }
        self.marked_statement(levels)
    }

    /// A statement that begins with a sign or a reserved word.
    #[cycle(process)]
    fn marked_statement(&mut self, levels: u32) -> Result<Process, Stop>
        ensures { Reads (read levels (spec.marked_statement factored.one_else) self.old) result self.new }
    {
        if self.sees_word(Word::Undef) {
            return self.undefine(levels);
        }
        if self.sees_word(Word::Csets) {
            return self.correlate(levels);
        }
        if self.sees_word(Word::If) {
            return self.conditional(levels);
        }
        if self.sees_word(Word::While) {
            return self.repetition(levels);
        }
        if self.sees_word(Word::For) {
            return self.counted_loop(levels);
        }
        if self.sees_sign(Sign::OpenBracket) {
            return self.choice(levels);
        }
        if self.sees_word(Word::Scope) {
            return self.scope(levels);
        }
        if self.sees_word(Word::Install) {
            return self.install(levels);
        }
        if self.sees_word(Word::Throw) {
            return self.throw(levels);
        }
        if self.sees_word(Word::Comp) {
            return self.compensate(levels);
        }
        if self.sees_word(Word::InnerHandler) {
            return self.inner_handler();
        }
        self.block_statement(levels)
    }

    /// A statement that begins with a name.
    #[tactic(auto, using(crate::proofs::Lists::passes, crate::proofs::Lists::stops_then), unfolding(crate::specs::Grammar::id))]
    #[cycle(process)]
    fn named(&mut self, levels: u32) -> Result<Process, Stop>
        ensures { Reads (read levels factored.named self.old) result self.new }
    {
        let word = self.take(&IDS)?;
        self.named_parts(levels, &word)
    }

    /// What follows the name that a statement begins with.
    #[cycle(process)]
    fn named_parts(&mut self, levels: u32, word: &Taken) -> Result<Process, Stop>
        ensures { Reads (read levels (factored.of_name word.now factored.named_parts) self.old) result self.new }
    {
        if self.sees_sign(Sign::OpenParen) {
            return self.named_input(levels, word);
        }
        if self.sees_sign(Sign::At) {
            return self.named_output(levels, word);
        }
        self.named_assignment(levels, word)
    }

    #[tactic(auto, using(crate::proofs::Lists::passes, crate::proofs::Lists::stops_then))]
    #[cycle(process)]
    fn named_input(&mut self, levels: u32, operation: &Taken) -> Result<Process, Stop>
        ensures { Reads (read levels (factored.of_name operation.now factored.named_input) self.old) result self.new }
    {
        let operation = operation.name(self.alloc)?;
        let (request, reply) = self.input_parts(levels)?;
        Ok(Process::Input(Input {
            operation,
            request,
            reply,
        }))
    }

    #[tactic(auto, using(crate::proofs::Lists::passes, crate::proofs::Lists::stops_then), unfolding(crate::specs::Grammar::output_parts, crate::specs::Grammar::id))]
    #[cycle(process)]
    fn named_output(&mut self, levels: u32, operation: &Taken) -> Result<Process, Stop>
        ensures { Reads (read levels (factored.of_name operation.now factored.named_output) self.old) result
            self.new }
    {
        self.sign(Sign::At)?;
        let port = self.take(&IDS)?;
        let operation = operation.name(self.alloc)?;
        let port = port.name(self.alloc)?;
        let (value, answer) = self.message(levels)?;
        Ok(Process::Output {
            operation,
            port,
            value,
            answer,
        })
    }

    /// What an output sends and awaits.
    #[tactic(auto, using(crate::proofs::Lists::passes, crate::proofs::Lists::stops_then))]
    #[cycle(process)]
    fn message(&mut self, levels: u32) -> Result<(Option<Expr>, Option<Answer>), Stop>
        ensures { Reads (read levels (syntax.both (spec.parens syntax.maybe_expression)
            (syntax.optional spec.answer)) self.old) result self.new }
    {
        let value = self.maybe_expression_in_parens(levels)?;
        let answer = self.maybe_answer(levels)?;
        Ok((value, answer))
    }

    /// An assignment to the path that begins with the word.
    #[tactic(auto, using(crate::proofs::Lists::passes, crate::proofs::Lists::stops_then))]
    fn named_assignment(&mut self, levels: u32, word: &Taken) -> Result<Process, Stop>
        ensures { Reads (read levels (factored.of_name word.now factored.named_assignment) self.old) result self.new }
    {
        let name = word.name(self.alloc)?;
        let (index, rest) = self.path_parts(levels)?;
        let assignment = self.change(levels)?;
        Ok(Process::Assign {
            path: Path {
                first: Step { name, index },
                rest,
            },
            assignment,
        })
    }

    #[tactic(auto, using(crate::proofs::Lists::passes, crate::proofs::Lists::stops_then), unfolding(crate::specs::Grammar::input, crate::specs::Grammar::id))]
    #[cycle(process)]
    fn input(&mut self, levels: u32) -> Result<Input, Stop>
        ensures { Reads (read levels spec.input self.old) result self.new }
    {
        let word = self.take(&IDS)?;
        let operation = word.name(self.alloc)?;
        let (request, reply) = self.input_parts(levels)?;
        Ok(Input {
            operation,
            request,
            reply,
        })
    }

    /// An input after its operation.
    #[tactic(auto, using(crate::proofs::Lists::passes, crate::proofs::Lists::stops_then), unfolding(crate::specs::Grammar::input_parts))]
    #[cycle(process)]
    fn input_parts(&mut self, levels: u32) -> Result<(Option<Path>, Option<Reply>), Stop>
        ensures { Reads (read levels spec.input_parts self.old) result self.new }
    {
        let request = self.maybe_path_in_parens(levels)?;
        let reply = self.maybe_reply(levels)?;
        Ok((request, reply))
    }

    #[cycle(process)]
    fn maybe_reply(&mut self, levels: u32) -> Result<Option<Reply>, Stop>
        ensures { Reads (read levels (syntax.optional spec.reply) self.old) result self.new }
    {
        if !self.sees_sign(Sign::OpenParen) {
            return Ok(None);
        }
        Ok(Some(self.reply(levels)?))
    }

    #[tactic(auto, using(crate::proofs::Lists::passes, crate::proofs::Lists::stops_then), unfolding(crate::specs::Grammar::reply))]
    #[cycle(process)]
    fn reply(&mut self, levels: u32) -> Result<Reply, Stop>
        ensures { Reads (read levels spec.reply self.old) result self.new }
    {
        let path = self.maybe_path_in_parens(levels)?;
        let body = self.block(levels)?;
        Ok(Reply { path, body })
    }

    #[cycle(process)]
    fn maybe_answer(&mut self, levels: u32) -> Result<Option<Answer>, Stop>
        ensures { Reads (read levels (syntax.optional spec.answer) self.old) result self.new }
    {
        if !self.sees_sign(Sign::OpenParen) {
            return Ok(None);
        }
        Ok(Some(self.answer(levels)?))
    }

    /// What an output awaits.
    #[tactic(auto, using(crate::proofs::Lists::passes, crate::proofs::Lists::stops_then), unfolding(crate::specs::Grammar::answer))]
    #[cycle(process)]
    fn answer(&mut self, levels: u32) -> Result<Answer, Stop>
        ensures { Reads (read levels spec.answer self.old) result self.new }
    {
        let path = self.maybe_path_in_parens(levels)?;
        let handlers = self.maybe_handlers(levels)?;
        Ok(Answer { path, handlers })
    }

    #[cycle(process)]
    fn maybe_handlers(&mut self, levels: u32) -> Result<Option<Items<Handler>>, Stop>
        ensures { Reads (read levels (syntax.optional
            (syntax.between c.sign_open_bracket syntax.some_handlers c.sign_close_bracket)) self.old) result
            self.new }
    {
        if !self.sees_sign(Sign::OpenBracket) {
            return Ok(None);
        }
        Ok(Some(self.handlers_in_brackets(levels)?))
    }

    #[tactic(auto, using(crate::proofs::Lists::passes, crate::proofs::Inside::between_unopened, crate::proofs::Inside::between_reads))]
    #[cycle(process)]
    fn handlers_in_brackets(&mut self, levels: u32) -> Result<Items<Handler>, Stop>
        ensures { Reads (read levels (syntax.between c.sign_open_bracket syntax.some_handlers c.sign_close_bracket)
            self.old) result self.new }
    {
        self.open(&[Class::Sign(Sign::OpenBracket)], levels)?;
        let part = self.handlers(levels - 1);
        self.closed(part, Sign::CloseBracket, levels - 1)
    }

    #[tactic(auto, using(crate::proofs::Lists::passes, crate::proofs::Inside::between_unopened, crate::proofs::Inside::between_reads))]
    #[cycle(process)]
    fn handlers_in_parens(&mut self, levels: u32) -> Result<Items<Handler>, Stop>
        ensures { Reads (read levels (spec.parens syntax.some_handlers) self.old) result self.new }
    {
        self.open(&[Class::Sign(Sign::OpenParen)], levels)?;
        let part = self.handlers(levels - 1);
        self.closed(part, Sign::CloseParen, levels - 1)
    }

    /// Handlers with commas between them.
    #[cycle(process)]
    fn handlers(&mut self, levels: u32) -> Result<Items<Handler>, Stop>
        ensures { Reads (read levels (spec.handlers factored.one_statement) self.old) result self.new }
    {
        let first = self.handler(levels)?;
        let mut handlers = one(self.alloc, first)?;
        while self.eat(Sign::Comma) {
            handlers.push(self.handler(levels)?)?;
        }
        Ok(handlers)
    }

    #[cycle(process)]
    fn handler(&mut self, levels: u32) -> Result<Handler, Stop>
        ensures { Reads (read levels (spec.handler factored.one_statement) self.old) result self.new }
    {
        let key = self.handler_key()?;
        self.sign(Sign::Arrow)?;
        let body = self.parallel(levels)?;
        Ok(Handler { key, body })
    }

    /// A choice of one branch or more.
    #[tactic(auto, using(crate::proofs::Lists::passes, crate::proofs::Lists::stops_then), unfolding(crate::specs::Grammar::choice))]
    #[cycle(process)]
    fn choice(&mut self, levels: u32) -> Result<Process, Stop>
        ensures { Reads (read levels spec.choice self.old) result self.new }
    {
        Ok(choice_of(self.branches(levels)?))
    }

    #[cycle(process)]
    fn branches(&mut self, levels: u32) -> Result<Items<Branch>, Stop>
        ensures { Reads (read levels (syntax.some_of spec.branch) self.old) result self.new }
    {
        let first = self.branch(levels)?;
        let mut branches = one(self.alloc, first)?;
        while self.sees_sign(Sign::OpenBracket) {
            branches.push(self.branch(levels)?)?;
        }
        Ok(branches)
    }

    /// An input in brackets, and the block after it.
    #[tactic(auto, using(crate::proofs::Lists::passes, crate::proofs::Lists::stops_then, crate::proofs::Inside::opened_stops, crate::proofs::Inside::inside_stops, crate::proofs::Inside::inside_read), unfolding(crate::specs::Grammar::branch))]
    #[cycle(process)]
    fn branch(&mut self, levels: u32) -> Result<Branch, Stop>
        ensures { Reads (read levels spec.branch self.old) result self.new }
    {
        let open = self.open(&[Class::Sign(Sign::OpenBracket)], levels)?;
        let part = self.input(levels - 1);
        let input = self.closed(part, Sign::CloseBracket, levels - 1)?;
        let after = self.block(levels)?;
        Ok(Branch {
            at: open.at(),
            input,
            after,
        })
    }

    /// An `if` statement.
    #[tactic(auto, using(crate::proofs::Lists::passes, crate::proofs::Lists::stops_then))]
    #[cycle(process)]
    fn conditional(&mut self, levels: u32) -> Result<Process, Stop>
        ensures { Reads (read levels (spec.conditional factored.one_else) self.old) result self.new }
    {
        let word = self.word(Word::If)?;
        let parts = self.if_parts(levels)?;
        Ok(Process::If(if_of(&word, parts)))
    }

    #[tactic(auto, using(crate::proofs::Lists::passes, crate::proofs::Lists::stops_then))]
    #[cycle(process)]
    fn if_parts(&mut self, levels: u32) -> Result<IfParts, Stop>
        ensures { Reads (read levels (spec.if_parts factored.one_else) self.old) result self.new }
    {
        let test = self.expression_in_parens(levels)?;
        let body = self.block(levels)?;
        let otherwise = self.otherwise(levels)?;
        Ok(IfParts {
            test,
            body,
            otherwise,
        })
    }

    /// What may follow an `if` and its block.
    #[cycle(process)]
    fn otherwise(&mut self, levels: u32) -> Result<Otherwise, Stop>
        ensures { Reads (read levels factored.one_else self.old) result self.new }
    {
        if self.sees_word(Word::Else) {
            return self.behind_else(levels);
        }
        Ok(Otherwise::Nothing)
    }

    /// `else` and what stands after it.
    #[tactic(auto, using(crate::proofs::Lists::passes, crate::proofs::Lists::stops_then))]
    #[cycle(process)]
    fn behind_else(&mut self, levels: u32) -> Result<Otherwise, Stop>
        ensures { Reads (read levels (syntax.behind c.the_else factored.alternative) self.old) result self.new }
    {
        self.word(Word::Else)?;
        self.alternative(levels)
    }

    #[cycle(process)]
    fn alternative(&mut self, levels: u32) -> Result<Otherwise, Stop>
        ensures { Reads (read levels factored.alternative self.old) result self.new }
    {
        if self.sees_word(Word::If) {
            return self.else_if(levels);
        }
        Ok(Otherwise::Else(self.block(levels)?))
    }

    /// An `if` behind an `else`.
    #[tactic(auto, using(crate::proofs::Lists::passes, crate::proofs::Lists::stops_then, crate::proofs::Inside::prefix_unopened, crate::proofs::Inside::prefix_stops, crate::proofs::Inside::prefix_read))]
    #[cycle(process)]
    fn else_if(&mut self, levels: u32) -> Result<Otherwise, Stop>
        ensures { Reads (read levels factored.else_if self.old) result self.new }
    {
        let word = self.open(&[Class::Word(Word::If)], levels)?;
        let parts = self.if_parts(levels - 1)?;
        let next = if_of(&word, parts);
        Ok(Otherwise::ElseIf(Boxed::new(self.alloc, next)?))
    }

    /// A `while` statement.
    #[tactic(auto, using(crate::proofs::Lists::passes, crate::proofs::Lists::stops_then), unfolding(crate::specs::Grammar::repetition))]
    #[cycle(process)]
    fn repetition(&mut self, levels: u32) -> Result<Process, Stop>
        ensures { Reads (read levels spec.repetition self.old) result self.new }
    {
        let word = self.word(Word::While)?;
        let test = self.expression_in_parens(levels)?;
        let body = self.block(levels)?;
        Ok(Process::While {
            at: word.at(),
            test,
            body,
        })
    }

    /// A `for` statement.
    #[tactic(auto, using(crate::proofs::Lists::passes, crate::proofs::Lists::stops_then), unfolding(crate::specs::Grammar::counted_loop))]
    #[cycle(process)]
    fn counted_loop(&mut self, levels: u32) -> Result<Process, Stop>
        ensures { Reads (read levels spec.counted_loop self.old) result self.new }
    {
        let word = self.word(Word::For)?;
        let parts = self.loop_parts_in_parens(levels)?;
        let body = self.block(levels)?;
        Ok(for_of(&word, parts, body))
    }

    #[tactic(auto, using(crate::proofs::Lists::passes, crate::proofs::Lists::stops_then), unfolding(crate::specs::Grammar::scope))]
    #[cycle(process)]
    fn scope(&mut self, levels: u32) -> Result<Process, Stop>
        ensures { Reads (read levels spec.scope self.old) result self.new }
    {
        let word = self.word(Word::Scope)?;
        let name = self.name_in_parens(levels)?;
        let body = self.block(levels)?;
        Ok(Process::Scope {
            at: word.at(),
            name,
            body,
        })
    }

    #[tactic(auto, using(crate::proofs::Lists::passes, crate::proofs::Lists::stops_then), unfolding(crate::specs::Grammar::install))]
    #[cycle(process)]
    fn install(&mut self, levels: u32) -> Result<Process, Stop>
        ensures { Reads (read levels spec.install self.old) result self.new }
    {
        let word = self.word(Word::Install)?;
        let handlers = self.handlers_in_parens(levels)?;
        Ok(Process::Install {
            at: word.at(),
            handlers,
        })
    }

    #[tactic(auto, using(crate::proofs::Lists::passes, crate::proofs::Lists::stops_then), unfolding(crate::specs::Grammar::block_statement))]
    #[cycle(process)]
    fn block_statement(&mut self, levels: u32) -> Result<Process, Stop>
        ensures { Reads (read levels spec.block_statement self.old) result self.new }
    {
        Ok(Process::Block(self.block(levels)?))
    }
}
