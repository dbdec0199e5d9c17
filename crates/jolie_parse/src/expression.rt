ghost use Rattle.std.specs.Prelude.{◌≡◌, [], Some, IfOk};
ghost use Rattle.jolie_parse.specs.ClassNames as c;
ghost use Rattle.jolie_parse.specs.Grammar as spec;
ghost use Rattle.jolie_parse.specs.Meanings as means_as;
ghost use Rattle.jolie_parse.specs.Reading.{read};
ghost use Rattle.jolie_parse.specs.Reads.{Reads, more};
ghost use Rattle.jolie_parse.specs.Syntax as syntax;

use crate::class::{
    ADDITIVE, CASTS, COMPARISONS, Class, IDS, MEMBER_FIRSTS, MULTIPLICATIVE, PREFIXES, TRUTHS,
    WORDS,
};
use crate::cursor::Cursor;
use crate::list::one;
use crate::stop::Stop;
use crate::taken::Taken;
use crate::word::Word;
use jolie_ast::{
    Additive, CastTarget, Comparison, Expr, ExprForm, Factor, Member, Multiplicative, Path, Step,
    Term,
};
use jolie_tokens::Sign;
use sqlite_items::{Boxed, Items};
use std::alloc::{AllocError, Global};

fn cast_target(class: Class) -> CastTarget
    ensures { result ≡ means_as.cast_target class }
{
    match class {
        Class::Word(Word::Int) => CastTarget::Int,
        Class::Word(Word::Long) => CastTarget::Long,
        _ => CastTarget::Str,
    }
}

fn multiplicative_of(class: Class) -> Multiplicative
    ensures { result ≡ means_as.multiplicative_of class }
{
    match class {
        Class::Sign(Sign::Star) => Multiplicative::Times,
        Class::Sign(Sign::Slash) => Multiplicative::Divide,
        _ => Multiplicative::Remainder,
    }
}

fn additive_of(class: Class) -> Additive
    ensures { result ≡ means_as.additive_of class }
{
    match class {
        Class::Sign(Sign::Plus) => Additive::Plus,
        _ => Additive::Minus,
    }
}

fn comparison_of(class: Class) -> Comparison
    ensures { result ≡ means_as.comparison_of class }
{
    match class {
        Class::Sign(Sign::Equal) => Comparison::Equal,
        Class::Sign(Sign::NotEqual) => Comparison::NotEqual,
        Class::Sign(Sign::Less) => Comparison::Less,
        Class::Sign(Sign::AtMost) => Comparison::AtMost,
        Class::Sign(Sign::Greater) => Comparison::Greater,
        _ => Comparison::AtLeast,
    }
}

/// Where the first of some operands begins.
fn start_of(operands: &Items<Expr>) -> u32
    ensures { result ≡ means_as.start_of operands.now }
{
    match operands.get(0) {
        Some(first) => first.at,
        None => 0,
    }
}

/// Operands with `||`; one alone is itself.
fn or_of(alloc: Global, mut operands: Items<Expr>) -> Result<Expr, AllocError>
    ensures { IfOk result (λ e. e ≡ means_as.or_of operands) }
{
    if operands.len() == 1 {
        return Ok(operands.remove(0));
    }
    Expr::new(alloc, start_of(&operands), ExprForm::Or(operands))
}

/// Operands with `&&`; one alone is itself.
fn and_of(alloc: Global, mut operands: Items<Expr>) -> Result<Expr, AllocError>
    ensures { IfOk result (λ e. e ≡ means_as.and_of operands) }
{
    if operands.len() == 1 {
        return Ok(operands.remove(0));
    }
    Expr::new(alloc, start_of(&operands), ExprForm::And(operands))
}

/// Operands with `+` and `-`; one alone is itself.
fn sum_of(alloc: Global, first: Expr, rest: Items<Term>) -> Result<Expr, AllocError>
    ensures { IfOk result (λ sum. sum ≡ means_as.sum_of (first, rest)) }
{
    if rest.is_empty() {
        return Ok(first);
    }
    let at = first.at;
    let first = Boxed::new(alloc, first)?;
    Expr::new(alloc, at, ExprForm::Sum { first, rest })
}

/// Operands with `*`, `/` and `%`; one alone is itself.
fn product_of(alloc: Global, first: Expr, rest: Items<Factor>) -> Result<Expr, AllocError>
    ensures { IfOk result (λ product. product ≡ means_as.product_of (first, rest)) }
{
    if rest.is_empty() {
        return Ok(first);
    }
    let at = first.at;
    let first = Boxed::new(alloc, first)?;
    Expr::new(alloc, at, ExprForm::Product { first, rest })
}

/// Two operands and the sign that compares them.
fn compared(alloc: Global, left: Expr, sign: &Taken, right: Expr) -> Result<Expr, AllocError>
    ensures { IfOk result (λ e. e ≡ means_as.comparison_made (left, Some (sign.now, right))) }
{
    let at = left.at;
    let left = Boxed::new(alloc, left)?;
    let right = Boxed::new(alloc, right)?;
    let comparison = comparison_of(sign.class());
    Expr::new(
        alloc,
        at,
        ExprForm::Compare {
            left,
            comparison,
            right,
        },
    )
}

/// `-` or `!` and its operand.
fn prefixed_of(alloc: Global, prefix: &Taken, operand: Expr) -> Result<Expr, AllocError>
    ensures { IfOk result (λ e. e ≡ means_as.prefixed_of (prefix.now, operand)) }
{
    let at = prefix.at();
    let operand = Boxed::new(alloc, operand)?;
    match prefix.class() {
        Class::Sign(Sign::Minus) => Expr::new(alloc, at, ExprForm::Minus(operand)),
        _ => Expr::new(alloc, at, ExprForm::Not(operand)),
    }
}

impl<'a> Cursor<'a> {
    #[tactic(auto, using(crate::proofs::Lists::passes, crate::proofs::Lists::stops_then), unfolding(crate::specs::Grammar::whole_number))]
    fn whole_number(&mut self) -> Result<Expr, Stop>
        ensures { Reads (read 0 spec.whole_number self.old) result self.new }
    {
        let token = self.take(&[Class::Int])?;
        let form = ExprForm::Int(token.int());
        Ok(Expr::new(self.alloc, token.at(), form)?)
    }

    #[tactic(auto, using(crate::proofs::Lists::passes, crate::proofs::Lists::stops_then), unfolding(crate::specs::Grammar::long_number))]
    fn long_number(&mut self) -> Result<Expr, Stop>
        ensures { Reads (read 0 spec.long_number self.old) result self.new }
    {
        let token = self.take(&[Class::Long])?;
        let form = ExprForm::Long(token.long());
        Ok(Expr::new(self.alloc, token.at(), form)?)
    }

    #[tactic(auto, using(crate::proofs::Lists::passes, crate::proofs::Lists::stops_then), unfolding(crate::specs::Grammar::quoted_text))]
    fn quoted_text(&mut self) -> Result<Expr, Stop>
        ensures { Reads (read 0 spec.quoted_text self.old) result self.new }
    {
        let token = self.take(&[Class::Str])?;
        let text = token.text(self.alloc)?;
        Ok(Expr::new(self.alloc, token.at(), ExprForm::Str(text))?)
    }

    #[tactic(auto, using(crate::proofs::Lists::passes, crate::proofs::Lists::stops_then), unfolding(crate::specs::Grammar::truth))]
    fn truth(&mut self) -> Result<Expr, Stop>
        ensures { Reads (read 0 spec.truth self.old) result self.new }
    {
        let token = self.take(&TRUTHS)?;
        let form = ExprForm::Bool(token.is(Word::True));
        Ok(Expr::new(self.alloc, token.at(), form)?)
    }

    #[tactic(auto, using(crate::proofs::Lists::passes, crate::proofs::Lists::stops_then), unfolding(crate::specs::Grammar::path_value))]
    #[cycle(expression)]
    fn path_value(&mut self, levels: u32) -> Result<Expr, Stop>
        ensures { Reads (read levels spec.path_value self.old) result self.new }
    {
        let path = self.path(levels)?;
        let at = path.first.name.at;
        Ok(Expr::new(self.alloc, at, ExprForm::Path(path))?)
    }

    /// `#` and a path.
    #[tactic(auto, using(crate::proofs::Lists::passes, crate::proofs::Lists::stops_then), unfolding(crate::specs::Grammar::size))]
    #[cycle(expression)]
    fn size(&mut self, levels: u32) -> Result<Expr, Stop>
        ensures { Reads (read levels spec.size self.old) result self.new }
    {
        let hash = self.sign(Sign::Hash)?;
        let path = self.path(levels)?;
        Ok(Expr::new(self.alloc, hash.at(), ExprForm::Size(path))?)
    }

    #[tactic(auto, using(crate::proofs::Lists::passes, crate::proofs::Lists::stops_then), unfolding(crate::specs::Grammar::defined_test))]
    #[cycle(expression)]
    fn defined_test(&mut self, levels: u32) -> Result<Expr, Stop>
        ensures { Reads (read levels spec.defined_test self.old) result self.new }
    {
        let word = self.word(Word::IsDefined)?;
        let path = self.path_in_parens(levels)?;
        Ok(Expr::new(self.alloc, word.at(), ExprForm::IsDefined(path))?)
    }

    #[tactic(auto, using(crate::proofs::Lists::passes, crate::proofs::Lists::stops_then), unfolding(crate::specs::Grammar::cast))]
    #[cycle(expression)]
    fn cast(&mut self, levels: u32) -> Result<Expr, Stop>
        ensures { Reads (read levels spec.cast self.old) result self.new }
    {
        let word = self.take(&CASTS)?;
        let target = cast_target(word.class());
        let operand = self.expression_in_parens(levels)?;
        let operand = Boxed::new(self.alloc, operand)?;
        Ok(Expr::new(self.alloc, word.at(), ExprForm::Cast { target, operand })?)
    }

    /// An expression in parentheses, which leave nothing but their place, and that is its place then.
    #[tactic(auto, using(crate::proofs::Lists::passes, crate::proofs::Lists::stops_then, crate::proofs::Inside::opened_stops, crate::proofs::Inside::inside_stops, crate::proofs::Inside::inside_read), unfolding(crate::specs::Grammar::grouped))]
    #[cycle(expression)]
    fn grouped(&mut self, levels: u32) -> Result<Expr, Stop>
        ensures { Reads (read levels spec.grouped self.old) result self.new }
    {
        let open = self.open(&[Class::Sign(Sign::OpenParen)], levels)?;
        let part = self.expression(levels - 1);
        let inside = self.closed(part, Sign::CloseParen, levels - 1)?;
        Ok(Expr {
            at: open.at(),
            form: inside.form,
        })
    }

    #[tactic(auto, using(crate::proofs::Lists::passes, crate::proofs::Lists::stops_then, crate::proofs::Inside::opened_stops, crate::proofs::Inside::inside_stops, crate::proofs::Inside::inside_read), unfolding(crate::specs::Grammar::literal))]
    #[cycle(expression)]
    fn literal(&mut self, levels: u32) -> Result<Expr, Stop>
        ensures { Reads (read levels spec.literal self.old) result self.new }
    {
        let open = self.open(&[Class::Sign(Sign::OpenBrace)], levels)?;
        let part = self.members(levels - 1);
        let members = self.closed(part, Sign::CloseBrace, levels - 1)?;
        Ok(Expr::new(self.alloc, open.at(), ExprForm::Literal(members))?)
    }

    /// An operand without a prefix.
    #[cycle(expression)]
    fn primary(&mut self, levels: u32) -> Result<Expr, Stop>
        ensures { Reads (read levels spec.primary self.old) result self.new }
    {
        if self.sees(&[Class::Int]) {
            return self.whole_number();
        }
        if self.sees(&[Class::Long]) {
            return self.long_number();
        }
        if self.sees(&[Class::Str]) {
            return self.quoted_text();
        }
        if self.sees(&TRUTHS) {
            return self.truth();
        }
        if self.sees(&IDS) {
            return self.path_value(levels);
        }
        if self.sees_sign(Sign::Hash) {
            return self.size(levels);
        }
        if self.sees_word(Word::IsDefined) {
            return self.defined_test(levels);
        }
        if self.sees(&CASTS) {
            return self.cast(levels);
        }
        if self.sees_sign(Sign::OpenParen) {
            return self.grouped(levels);
        }
        self.literal(levels)
    }

    #[tactic(auto, using(crate::proofs::Lists::passes, crate::proofs::Lists::stops_then, crate::proofs::Inside::prefix_unopened, crate::proofs::Inside::prefix_stops, crate::proofs::Inside::prefix_read), unfolding(crate::specs::Grammar::prefixed_operand))]
    #[cycle(expression)]
    fn prefixed_operand(&mut self, levels: u32) -> Result<Expr, Stop>
        ensures { Reads (read levels spec.prefixed_operand self.old) result self.new }
    {
        let prefix = self.open(&PREFIXES, levels)?;
        let operand = self.unary(levels - 1)?;
        Ok(prefixed_of(self.alloc, &prefix, operand)?)
    }

    #[cycle(expression)]
    fn unary(&mut self, levels: u32) -> Result<Expr, Stop>
        ensures { Reads (read levels spec.unary self.old) result self.new }
    {
        if self.sees(&PREFIXES) {
            self.prefixed_operand(levels)
        } else {
            self.primary(levels)
        }
    }

    #[tactic(auto, using(crate::proofs::Lists::passes, crate::proofs::Lists::stops_then), unfolding(crate::specs::Grammar::factor))]
    #[cycle(expression)]
    fn factor(&mut self, levels: u32) -> Result<Factor, Stop>
        ensures { Reads (read levels spec.factor self.old) result self.new }
    {
        let sign = self.take(&MULTIPLICATIVE)?;
        let operand = self.unary(levels)?;
        Ok(Factor {
            operator: multiplicative_of(sign.class()),
            operand,
        })
    }

    #[cycle(expression)]
    fn factors(&mut self, levels: u32) -> Result<Items<Factor>, Stop>
        ensures { Reads (more levels spec.factor [] self.old) result self.new }
    {
        let mut factors = Items::new(self.alloc);
        while self.sees(&MULTIPLICATIVE) {
            factors.push(self.factor(levels)?)?;
        }
        Ok(factors)
    }

    #[tactic(auto, using(crate::proofs::Lists::passes, crate::proofs::Lists::stops_then), unfolding(crate::specs::Grammar::product, crate::specs::Reads::more))]
    #[cycle(expression)]
    fn product(&mut self, levels: u32) -> Result<Expr, Stop>
        ensures { Reads (read levels spec.product self.old) result self.new }
    {
        let first = self.unary(levels)?;
        let rest = self.factors(levels)?;
        Ok(product_of(self.alloc, first, rest)?)
    }

    #[tactic(auto, using(crate::proofs::Lists::passes, crate::proofs::Lists::stops_then), unfolding(crate::specs::Grammar::term))]
    #[cycle(expression)]
    fn term(&mut self, levels: u32) -> Result<Term, Stop>
        ensures { Reads (read levels spec.term self.old) result self.new }
    {
        let sign = self.take(&ADDITIVE)?;
        let operand = self.product(levels)?;
        Ok(Term {
            operator: additive_of(sign.class()),
            operand,
        })
    }

    #[cycle(expression)]
    fn terms(&mut self, levels: u32) -> Result<Items<Term>, Stop>
        ensures { Reads (more levels spec.term [] self.old) result self.new }
    {
        let mut terms = Items::new(self.alloc);
        while self.sees(&ADDITIVE) {
            terms.push(self.term(levels)?)?;
        }
        Ok(terms)
    }

    #[tactic(auto, using(crate::proofs::Lists::passes, crate::proofs::Lists::stops_then), unfolding(crate::specs::Grammar::sum, crate::specs::Reads::more))]
    #[cycle(expression)]
    fn sum(&mut self, levels: u32) -> Result<Expr, Stop>
        ensures { Reads (read levels spec.sum self.old) result self.new }
    {
        let first = self.product(levels)?;
        let rest = self.terms(levels)?;
        Ok(sum_of(self.alloc, first, rest)?)
    }

    #[tactic(auto, using(crate::proofs::Lists::passes, crate::proofs::Lists::stops_then), unfolding(crate::specs::Grammar::comparison, crate::specs::Grammar::comparand))]
    #[cycle(expression)]
    fn comparison(&mut self, levels: u32) -> Result<Expr, Stop>
        ensures { Reads (read levels spec.comparison self.old) result self.new }
    {
        let left = self.sum(levels)?;
        if !self.sees(&COMPARISONS) {
            return Ok(left);
        }
        let sign = self.take(&COMPARISONS)?;
        let right = self.sum(levels)?;
        Ok(compared(self.alloc, left, &sign, right)?)
    }

    /// Comparisons with `&&` between them.
    #[cycle(expression)]
    fn comparisons(&mut self, levels: u32) -> Result<Items<Expr>, Stop>
        ensures { Reads (read levels (syntax.separated c.sign_and spec.comparison) self.old) result self.new }
    {
        let first = self.comparison(levels)?;
        let mut operands = one(self.alloc, first)?;
        while self.eat(Sign::And) {
            operands.push(self.comparison(levels)?)?;
        }
        Ok(operands)
    }

    #[tactic(auto, using(crate::proofs::Lists::passes, crate::proofs::Lists::stops_then), unfolding(crate::specs::Grammar::conjunction))]
    #[cycle(expression)]
    fn conjunction(&mut self, levels: u32) -> Result<Expr, Stop>
        ensures { Reads (read levels spec.conjunction self.old) result self.new }
    {
        let operands = self.comparisons(levels)?;
        Ok(and_of(self.alloc, operands)?)
    }

    /// Conjunctions with `||` between them.
    #[cycle(expression)]
    fn conjunctions(&mut self, levels: u32) -> Result<Items<Expr>, Stop>
        ensures { Reads (read levels (syntax.separated c.sign_or spec.conjunction) self.old) result self.new }
    {
        let first = self.conjunction(levels)?;
        let mut operands = one(self.alloc, first)?;
        while self.eat(Sign::Or) {
            operands.push(self.conjunction(levels)?)?;
        }
        Ok(operands)
    }

    #[tactic(auto, using(crate::proofs::Lists::passes, crate::proofs::Lists::stops_then), unfolding(crate::specs::Grammar::expr))]
    #[cycle(expression)]
    pub fn expression(&mut self, levels: u32) -> Result<Expr, Stop>
        ensures { Reads (read levels spec.expr self.old) result self.new }
    {
        let operands = self.conjunctions(levels)?;
        Ok(or_of(self.alloc, operands)?)
    }

    #[cycle(expression)]
    fn index(&mut self, levels: u32) -> Result<Option<Boxed<Expr>>, Stop>
        ensures { Reads (read levels spec.index self.old) result self.new }
    {
        if !self.sees_sign(Sign::OpenBracket) {
            return Ok(None);
        }
        let index = self.expression_in_brackets(levels)?;
        Ok(Some(Boxed::new(self.alloc, index)?))
    }

    #[tactic(auto, using(crate::proofs::Lists::passes, crate::proofs::Lists::stops_then), unfolding(crate::specs::Grammar::step, crate::specs::Grammar::word))]
    #[cycle(expression)]
    fn step(&mut self, levels: u32) -> Result<Step, Stop>
        ensures { Reads (read levels spec.step self.old) result self.new }
    {
        self.sign(Sign::Dot)?;
        let word = self.take(&WORDS)?;
        let name = word.name(self.alloc)?;
        let index = self.index(levels)?;
        Ok(Step { name, index })
    }

    #[cycle(expression)]
    fn steps(&mut self, levels: u32) -> Result<Items<Step>, Stop>
        ensures { Reads (more levels spec.step [] self.old) result self.new }
    {
        let mut steps = Items::new(self.alloc);
        while self.sees_sign(Sign::Dot) {
            steps.push(self.step(levels)?)?;
        }
        Ok(steps)
    }

    /// A path after its first name.
    #[tactic(auto, using(crate::proofs::Lists::passes, crate::proofs::Lists::stops_then), unfolding(crate::specs::Grammar::path_parts, crate::specs::Reads::more))]
    #[cycle(expression)]
    pub fn path_parts(&mut self, levels: u32) -> Result<(Option<Boxed<Expr>>, Items<Step>), Stop>
        ensures { Reads (read levels spec.path_parts self.old) result self.new }
    {
        let index = self.index(levels)?;
        let rest = self.steps(levels)?;
        Ok((index, rest))
    }

    #[tactic(auto, using(crate::proofs::Lists::passes, crate::proofs::Lists::stops_then), unfolding(crate::specs::Grammar::path, crate::specs::Grammar::id))]
    #[cycle(expression)]
    pub fn path(&mut self, levels: u32) -> Result<Path, Stop>
        ensures { Reads (read levels spec.path self.old) result self.new }
    {
        let word = self.take(&IDS)?;
        let name = word.name(self.alloc)?;
        let (index, rest) = self.path_parts(levels)?;
        Ok(Path {
            first: Step { name, index },
            rest,
        })
    }

    #[tactic(auto, using(crate::proofs::Lists::passes, crate::proofs::Inside::between_unopened, crate::proofs::Inside::between_reads))]
    #[cycle(expression)]
    pub fn path_in_parens(&mut self, levels: u32) -> Result<Path, Stop>
        ensures { Reads (read levels (spec.parens syntax.a_path) self.old) result self.new }
    {
        self.open(&[Class::Sign(Sign::OpenParen)], levels)?;
        let part = self.path(levels - 1);
        self.closed(part, Sign::CloseParen, levels - 1)
    }

    #[tactic(auto, using(crate::proofs::Lists::passes, crate::proofs::Inside::between_unopened, crate::proofs::Inside::between_reads))]
    #[cycle(expression)]
    pub fn expression_in_parens(&mut self, levels: u32) -> Result<Expr, Stop>
        ensures { Reads (read levels (spec.parens syntax.an_expression) self.old) result self.new }
    {
        self.open(&[Class::Sign(Sign::OpenParen)], levels)?;
        let part = self.expression(levels - 1);
        self.closed(part, Sign::CloseParen, levels - 1)
    }

    #[tactic(auto, using(crate::proofs::Lists::passes, crate::proofs::Inside::between_unopened, crate::proofs::Inside::between_reads))]
    #[cycle(expression)]
    fn expression_in_brackets(&mut self, levels: u32) -> Result<Expr, Stop>
        ensures { Reads (read levels (syntax.between c.sign_open_bracket syntax.an_expression c.sign_close_bracket)
            self.old) result self.new }
    {
        self.open(&[Class::Sign(Sign::OpenBracket)], levels)?;
        let part = self.expression(levels - 1);
        self.closed(part, Sign::CloseBracket, levels - 1)
    }

    #[cycle(expression)]
    fn member(&mut self, levels: u32) -> Result<Member, Stop>
        ensures { Reads (read levels spec.member self.old) result self.new }
    {
        self.eat(Sign::Dot);
        let word = self.take(&WORDS)?;
        let name = word.name(self.alloc)?;
        self.sign(Sign::Assign)?;
        let value = self.expression(levels)?;
        Ok(Member { name, value })
    }

    /// Members with commas between them.
    #[cycle(expression)]
    fn some_members(&mut self, levels: u32) -> Result<Items<Member>, Stop>
        ensures { Reads (read levels (syntax.separated c.sign_comma spec.member) self.old) result self.new }
    {
        let first = self.member(levels)?;
        let mut members = one(self.alloc, first)?;
        while self.eat(Sign::Comma) {
            members.push(self.member(levels)?)?;
        }
        Ok(members)
    }

    #[cycle(expression)]
    fn members(&mut self, levels: u32) -> Result<Items<Member>, Stop>
        ensures { Reads (read levels spec.members self.old) result self.new }
    {
        if !self.sees(&MEMBER_FIRSTS) {
            return Ok(Items::new(self.alloc));
        }
        self.some_members(levels)
    }
}
