//! Names, and the statements and parts of statements in which no block stands.

ghost use Rattle.std.specs.Prelude.{◌≡◌};
ghost use Rattle.jolie_parse.specs.ClassNames as c;
ghost use Rattle.jolie_parse.specs.Classes.{place};
ghost use Rattle.jolie_parse.specs.Grammar as spec;
ghost use Rattle.jolie_parse.specs.Meanings as means_as;
ghost use Rattle.jolie_parse.specs.Reading.{read};
ghost use Rattle.jolie_parse.specs.Reads.{Reads};
ghost use Rattle.jolie_parse.specs.Syntax as syntax;

use crate::class::{COUNTS, Class, EXPRESSION_FIRSTS, IDS};
use crate::cursor::Cursor;
use crate::stop::Stop;
use crate::taken::Taken;
use crate::word::Word;
use jolie_ast::{Assignment, Count, Expr, ForStep, HandlerKey, Name, Path, Process};
use jolie_tokens::Sign;

/// What stands in the parentheses of a `for`, in the order of the text.
#[derive(Drop)]
pub struct ForParts {
    pub path: Path,
    pub first: Expr,
    pub test: Expr,
    pub stepped: Path,
    pub step: ForStep,
}

fn count_of(sign: &Taken) -> Count
    ensures { result ≡ means_as.count_of sign.now }
{
    if sign.class().is(Class::Sign(Sign::Increment)) {
        Count::Up
    } else {
        Count::Down
    }
}

impl<'a> Cursor<'a> {
    /// A name alone.
    #[tactic(auto, using(crate::proofs::Lists::passes, crate::proofs::Lists::stops_then), unfolding(crate::specs::Grammar::name, crate::specs::Grammar::id))]
    pub fn name(&mut self) -> Result<Name, Stop>
        ensures { Reads (read 0 spec.name self.old) result self.new }
    {
        let word = self.take(&IDS)?;
        Ok(word.name(self.alloc)?)
    }

    #[tactic(auto, using(crate::proofs::Lists::passes, crate::proofs::Inside::between_unopened, crate::proofs::Inside::between_reads))]
    pub fn name_in_parens(&mut self, levels: u32) -> Result<Name, Stop>
        ensures { Reads (read levels (spec.parens syntax.a_name) self.old) result self.new }
    {
        self.open(&[Class::Sign(Sign::OpenParen)], levels)?;
        let part = self.name();
        self.closed(part, Sign::CloseParen, levels - 1)
    }

    fn maybe_path(&mut self, levels: u32) -> Result<Option<Path>, Stop>
        ensures { Reads (read levels (syntax.optional spec.path) self.old) result self.new }
    {
        if !self.sees(&IDS) {
            return Ok(None);
        }
        Ok(Some(self.path(levels)?))
    }

    #[tactic(auto, using(crate::proofs::Lists::passes, crate::proofs::Inside::between_unopened, crate::proofs::Inside::between_reads))]
    pub fn maybe_path_in_parens(&mut self, levels: u32) -> Result<Option<Path>, Stop>
        ensures { Reads (read levels (spec.parens syntax.maybe_path) self.old) result self.new }
    {
        self.open(&[Class::Sign(Sign::OpenParen)], levels)?;
        let part = self.maybe_path(levels - 1);
        self.closed(part, Sign::CloseParen, levels - 1)
    }

    fn maybe_expression(&mut self, levels: u32) -> Result<Option<Expr>, Stop>
        ensures { Reads (read levels (syntax.optional spec.expr) self.old) result self.new }
    {
        if !self.sees(&EXPRESSION_FIRSTS) {
            return Ok(None);
        }
        Ok(Some(self.expression(levels)?))
    }

    #[tactic(auto, using(crate::proofs::Lists::passes, crate::proofs::Inside::between_unopened, crate::proofs::Inside::between_reads))]
    pub fn maybe_expression_in_parens(&mut self, levels: u32) -> Result<Option<Expr>, Stop>
        ensures { Reads (read levels (spec.parens syntax.maybe_expression) self.old) result self.new }
    {
        self.open(&[Class::Sign(Sign::OpenParen)], levels)?;
        let part = self.maybe_expression(levels - 1);
        self.closed(part, Sign::CloseParen, levels - 1)
    }

    /// `=` and an expression.
    #[tactic(auto, using(crate::proofs::Lists::passes, crate::proofs::Lists::stops_then))]
    fn assigned(&mut self, levels: u32) -> Result<Expr, Stop>
        ensures { Reads (read levels (syntax.behind c.sign_assign spec.expr) self.old) result self.new }
    {
        self.sign(Sign::Assign)?;
        self.expression(levels)
    }

    /// `<<` and an expression.
    #[tactic(auto, using(crate::proofs::Lists::passes, crate::proofs::Lists::stops_then))]
    fn copied(&mut self, levels: u32) -> Result<Expr, Stop>
        ensures { Reads (read levels (syntax.behind c.sign_deep_assign spec.expr) self.old) result self.new }
    {
        self.sign(Sign::DeepAssign)?;
        self.expression(levels)
    }

    /// A comma and an expression.
    #[tactic(auto, using(crate::proofs::Lists::passes, crate::proofs::Lists::stops_then))]
    fn next_expression(&mut self, levels: u32) -> Result<Expr, Stop>
        ensures { Reads (read levels (syntax.behind c.sign_comma spec.expr) self.old) result self.new }
    {
        self.sign(Sign::Comma)?;
        self.expression(levels)
    }

    /// A comma and a path.
    #[tactic(auto, using(crate::proofs::Lists::passes, crate::proofs::Lists::stops_then))]
    fn next_path(&mut self, levels: u32) -> Result<Path, Stop>
        ensures { Reads (read levels (syntax.behind c.sign_comma spec.path) self.old) result self.new }
    {
        self.sign(Sign::Comma)?;
        self.path(levels)
    }

    #[tactic(auto, using(crate::proofs::Lists::passes, crate::proofs::Lists::stops_then), unfolding(crate::specs::Grammar::count))]
    fn count(&mut self) -> Result<Count, Stop>
        ensures { Reads (read 0 (syntax.means means_as.count_of spec.count) self.old) result self.new }
    {
        let sign = self.take(&COUNTS)?;
        Ok(count_of(&sign))
    }

    /// What is done to the path before it.
    #[tactic(auto, using(crate::proofs::Lists::passes, crate::proofs::Lists::stops_then), unfolding(crate::specs::Grammar::change, crate::specs::Grammar::count))]
    pub fn change(&mut self, levels: u32) -> Result<Assignment, Stop>
        ensures { Reads (read levels spec.change self.old) result self.new }
    {
        if self.sees_sign(Sign::Assign) {
            return Ok(Assignment::Root(self.assigned(levels)?));
        }
        if self.sees_sign(Sign::DeepAssign) {
            return Ok(Assignment::Copy(self.copied(levels)?));
        }
        Ok(Assignment::Count(self.count()?))
    }

    /// `csets.v = e`
    #[tactic(auto, using(crate::proofs::Lists::passes, crate::proofs::Lists::stops_then), unfolding(crate::specs::Grammar::correlate, crate::specs::Grammar::id))]
    pub fn correlate(&mut self, levels: u32) -> Result<Process, Stop>
        ensures { Reads (read levels spec.correlate self.old) result self.new }
    {
        let word = self.word(Word::Csets)?;
        self.sign(Sign::Dot)?;
        let name = self.take(&IDS)?;
        let variable = name.name(self.alloc)?;
        let value = self.assigned(levels)?;
        Ok(Process::Correlate {
            at: word.at(),
            variable,
            value,
        })
    }

    /// The last part of a `for`, after its path.
    #[tactic(auto, using(crate::proofs::Lists::passes, crate::proofs::Lists::stops_then), unfolding(crate::specs::Grammar::last_change, crate::specs::Grammar::count))]
    fn last_change(&mut self, levels: u32) -> Result<ForStep, Stop>
        ensures { Reads (read levels spec.last_change self.old) result self.new }
    {
        if self.sees(&COUNTS) {
            return Ok(ForStep::Count(self.count()?));
        }
        Ok(ForStep::Root(self.assigned(levels)?))
    }

    #[tactic(auto, using(crate::proofs::Lists::passes, crate::proofs::Lists::stops_then), unfolding(crate::specs::Grammar::loop_parts))]
    fn loop_parts(&mut self, levels: u32) -> Result<ForParts, Stop>
        ensures { Reads (read levels spec.loop_parts self.old) result self.new }
    {
        let path = self.path(levels)?;
        let first = self.assigned(levels)?;
        let (test, (stepped, step)) = self.turn_parts(levels)?;
        Ok(ForParts {
            path,
            first,
            test,
            stepped,
            step,
        })
    }

    /// The test of a `for` and what it does after each turn.
    #[tactic(auto, using(crate::proofs::Lists::passes, crate::proofs::Lists::stops_then))]
    fn turn_parts(&mut self, levels: u32) -> Result<(Expr, (Path, ForStep)), Stop>
        ensures { Reads (read levels (syntax.both (syntax.behind c.sign_comma spec.expr)
            (syntax.both (syntax.behind c.sign_comma spec.path) spec.last_change)) self.old) result self.new }
    {
        let test = self.next_expression(levels)?;
        let stepped = self.next_path(levels)?;
        let step = self.last_change(levels)?;
        Ok((test, (stepped, step)))
    }

    #[tactic(auto, using(crate::proofs::Lists::passes, crate::proofs::Inside::between_unopened, crate::proofs::Inside::between_reads))]
    pub fn loop_parts_in_parens(&mut self, levels: u32) -> Result<ForParts, Stop>
        ensures { Reads (read levels (spec.parens syntax.for_parts) self.old) result self.new }
    {
        self.open(&[Class::Sign(Sign::OpenParen)], levels)?;
        let part = self.loop_parts(levels - 1);
        self.closed(part, Sign::CloseParen, levels - 1)
    }

    #[tactic(auto, using(crate::proofs::Lists::passes, crate::proofs::Lists::stops_then), unfolding(crate::specs::Grammar::undefine))]
    pub fn undefine(&mut self, levels: u32) -> Result<Process, Stop>
        ensures { Reads (read levels spec.undefine self.old) result self.new }
    {
        let word = self.word(Word::Undef)?;
        let path = self.path_in_parens(levels)?;
        Ok(Process::Undef {
            at: word.at(),
            path,
        })
    }

    /// The data of a fault, after a comma, if any are written.
    fn thrown_value(&mut self, levels: u32) -> Result<Option<Expr>, Stop>
        ensures { Reads (read levels (syntax.optional (syntax.behind c.sign_comma spec.expr)) self.old) result
            self.new }
    {
        if !self.sees_sign(Sign::Comma) {
            return Ok(None);
        }
        Ok(Some(self.next_expression(levels)?))
    }

    /// A fault and its data.
    #[tactic(auto, using(crate::proofs::Lists::passes, crate::proofs::Lists::stops_then), unfolding(crate::specs::Grammar::thrown, crate::specs::Grammar::id))]
    fn thrown(&mut self, levels: u32) -> Result<(Name, Option<Expr>), Stop>
        ensures { Reads (read levels spec.thrown self.old) result self.new }
    {
        let word = self.take(&IDS)?;
        let fault = word.name(self.alloc)?;
        let value = self.thrown_value(levels)?;
        Ok((fault, value))
    }

    #[tactic(auto, using(crate::proofs::Lists::passes, crate::proofs::Inside::between_unopened, crate::proofs::Inside::between_reads))]
    fn thrown_in_parens(&mut self, levels: u32) -> Result<(Name, Option<Expr>), Stop>
        ensures { Reads (read levels (spec.parens syntax.throw_parts) self.old) result self.new }
    {
        self.open(&[Class::Sign(Sign::OpenParen)], levels)?;
        let part = self.thrown(levels - 1);
        self.closed(part, Sign::CloseParen, levels - 1)
    }

    #[tactic(auto, using(crate::proofs::Lists::passes, crate::proofs::Lists::stops_then), unfolding(crate::specs::Grammar::throw))]
    pub fn throw(&mut self, levels: u32) -> Result<Process, Stop>
        ensures { Reads (read levels spec.throw self.old) result self.new }
    {
        let word = self.word(Word::Throw)?;
        let (fault, value) = self.thrown_in_parens(levels)?;
        Ok(Process::Throw {
            at: word.at(),
            fault,
            value,
        })
    }

    #[tactic(auto, using(crate::proofs::Lists::passes, crate::proofs::Lists::stops_then), unfolding(crate::specs::Grammar::compensate))]
    pub fn compensate(&mut self, levels: u32) -> Result<Process, Stop>
        ensures { Reads (read levels spec.compensate self.old) result self.new }
    {
        let word = self.word(Word::Comp)?;
        let scope = self.name_in_parens(levels)?;
        Ok(Process::Compensate {
            at: word.at(),
            scope,
        })
    }

    /// `cH`
    #[tactic(auto, using(crate::proofs::Lists::passes, crate::proofs::Lists::stops_then), unfolding(crate::specs::Grammar::inner_handler))]
    pub fn inner_handler(&mut self) -> Result<Process, Stop>
        ensures { Reads (read 0 spec.inner_handler self.old) result self.new }
    {
        let word = self.word(Word::InnerHandler)?;
        Ok(Process::InnerHandler(word.at()))
    }

    /// `nullProcess`
    #[tactic(auto, using(crate::proofs::Lists::passes, crate::proofs::Lists::stops_then), unfolding(crate::specs::Grammar::nothing))]
    pub fn nothing(&mut self) -> Result<Process, Stop>
        ensures { Reads (read 0 spec.nothing self.old) result self.new }
    {
        let word = self.word(Word::NullProcess)?;
        Ok(Process::Nothing(word.at()))
    }

    /// `this`, as what a handler is for.
    #[tactic(auto, using(crate::proofs::Lists::passes, crate::proofs::Lists::stops_then))]
    fn this(&mut self) -> Result<HandlerKey, Stop>
        ensures { Reads (read 0 (syntax.means (λ t. HandlerKey.This (place t)) (spec.one c.the_this)) self.old)
            result self.new }
    {
        let word = self.word(Word::This)?;
        Ok(HandlerKey::This(word.at()))
    }

    /// What a handler is for.
    #[tactic(auto, using(crate::proofs::Lists::passes, crate::proofs::Lists::stops_then), unfolding(crate::specs::Grammar::handler_key, crate::specs::Grammar::name, crate::specs::Grammar::id))]
    pub fn handler_key(&mut self) -> Result<HandlerKey, Stop>
        ensures { Reads (read 0 spec.handler_key self.old) result self.new }
    {
        if self.sees_word(Word::This) {
            return self.this();
        }
        Ok(HandlerKey::Named(self.name()?))
    }
}
