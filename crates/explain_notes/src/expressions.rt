//! What expressions mention.

ghost use Rattle.std.specs.Prelude.{◌≡◌, ◌++◌, ◌&&◌, not, OnOk, flat_map};
ghost use Rattle.std.specs.List.{list_any};
ghost use Rattle.explain_notes.specs.Expressions as spec;
ghost use Rattle.explain_notes.specs.Mentions.{fails_at};
ghost use Rattle.explain_notes.specs.Parts as parts;
ghost use Rattle.explain_notes.specs.Expressions.{expr_mentions, path_mentions, path_walked};
ghost use Rattle.explain_notes.specs.Parts.{factor_mentions, form_mentions, index_mentions, member_mentions, term_mentions};

use crate::list::Mentions;
use crate::role::Role;
use jolie_ast::{CastTarget, Comparison, Expr, ExprForm, Factor, Member, Path, Step, Term};
use std::alloc::AllocError;

impl<'a> Mentions<'a> {
    /// ExprFault at a place, where an expression there may have no value.
    pub(crate) fn failing(&mut self, fails: bool, at: u32) -> Result<(), AllocError>
        ensures { OnOk result (self.new ≡ self.old ++ fails_at fails at) }
    {
        if !fails {
            return Ok(());
        }
        self.put(Role::Failing, at, "ExprFault")
    }

    #[cycle(expression)]
    #[tactic(auto, using(crate::proofs::ExpressionForms::expr_is, crate::proofs::Lists::behind_two))]
    pub(crate) fn expr(&mut self, expr: &'a Expr) -> Result<(), AllocError>
        ensures { OnOk result (self.new ≡ self.old ++ expr_mentions expr.now) }
    {
        self.failing(may_fail(expr.form.get()), expr.at)?;
        self.form(expr.form.get())
    }

    #[cycle(expression)]
    #[tactic(auto, using(crate::proofs::ExpressionForms::int_is, crate::proofs::ExpressionForms::long_is, crate::proofs::ExpressionForms::text_is, crate::proofs::ExpressionForms::truth_is, crate::proofs::ExpressionForms::path_form_is, crate::proofs::ExpressionForms::size_is, crate::proofs::ExpressionForms::defined_is, crate::proofs::ExpressionForms::cast_is, crate::proofs::ExpressionForms::literal_is, crate::proofs::ExpressionForms::minus_is, crate::proofs::ExpressionForms::not_is, crate::proofs::ExpressionForms::product_is, crate::proofs::ExpressionForms::sum_is, crate::proofs::ExpressionForms::compare_is, crate::proofs::ExpressionForms::and_is, crate::proofs::ExpressionForms::or_is, crate::proofs::Lists::behind_two))]
    fn form(&mut self, form: &'a ExprForm) -> Result<(), AllocError>
        ensures { OnOk result (self.new ≡ self.old ++ form_mentions form.now) }
    {
        match form {
            ExprForm::Int(_) => Ok(()),
            ExprForm::Long(_) => Ok(()),
            ExprForm::Str(_) => Ok(()),
            ExprForm::Bool(_) => Ok(()),
            ExprForm::Path(path) => self.path(read_role(path.rest.as_slice()), path),
            ExprForm::Size(path) => self.path(read_role(path.rest.as_slice()), path),
            ExprForm::IsDefined(path) => self.path(read_role(path.rest.as_slice()), path),
            ExprForm::Cast { operand, .. } => self.expr(operand.get()),
            ExprForm::Literal(members) => self.members(members.as_slice()),
            ExprForm::Minus(value) => self.expr(value.get()),
            ExprForm::Not(value) => self.expr(value.get()),
            ExprForm::Product { first, rest } => {
                self.expr(first.get())?;
                self.factors(rest.as_slice())
            }
            ExprForm::Sum { first, rest } => {
                self.expr(first.get())?;
                self.terms(rest.as_slice())
            }
            ExprForm::Compare { left, right, .. } => {
                self.expr(left.get())?;
                self.expr(right.get())
            }
            ExprForm::And(values) => self.exprs(values.as_slice()),
            ExprForm::Or(values) => self.exprs(values.as_slice()),
        }
    }

    #[cycle(expression)]
    fn exprs(&mut self, values: &'a [Expr]) -> Result<(), AllocError>
        ensures { OnOk result (self.new ≡ self.old ++ flat_map expr_mentions values.now) }
    {
        for value in values {
            self.expr(value)?;
        }
        Ok(())
    }

    #[cycle(expression)]
    #[tactic(auto, using(crate::proofs::ExpressionForms::factor_is))]
    fn factors(&mut self, factors: &'a [Factor]) -> Result<(), AllocError>
        ensures { OnOk result (self.new ≡ self.old ++ flat_map factor_mentions factors.now) }
    {
        for factor in factors {
            self.expr(&factor.operand)?;
        }
        Ok(())
    }

    #[cycle(expression)]
    #[tactic(auto, using(crate::proofs::ExpressionForms::term_is))]
    fn terms(&mut self, terms: &'a [Term]) -> Result<(), AllocError>
        ensures { OnOk result (self.new ≡ self.old ++ flat_map term_mentions terms.now) }
    {
        for term in terms {
            self.expr(&term.operand)?;
        }
        Ok(())
    }

    #[cycle(expression)]
    #[tactic(auto, using(crate::proofs::ExpressionForms::member_is))]
    fn members(&mut self, members: &'a [Member]) -> Result<(), AllocError>
        ensures { OnOk result (self.new ≡ self.old ++ flat_map member_mentions members.now) }
    {
        for member in members {
            self.expr(&member.value)?;
        }
        Ok(())
    }

    /// A path whose variable has this role.
    #[cycle(expression)]
    #[tactic(auto, using(crate::proofs::ExpressionForms::variable_is, crate::proofs::Lists::behind_one))]
    pub(crate) fn path(&mut self, role: Role, path: &'a Path) -> Result<(), AllocError>
        ensures { OnOk result (self.new ≡ self.old ++ path_mentions role path.now) }
    {
        self.add(role, &path.first.name)?;
        self.indices(path)
    }

    /// What the indices of a path mention.
    #[cycle(expression)]
    #[tactic(auto, using(crate::proofs::ExpressionForms::indices_are, crate::proofs::Lists::behind_two))]
    pub(crate) fn indices(&mut self, path: &'a Path) -> Result<(), AllocError>
        ensures { OnOk result (self.new ≡ self.old ++ (path_walked path.now).indices) }
    {
        self.index(&path.first)?;
        self.steps(path.rest.as_slice())
    }

    #[cycle(expression)]
    fn steps(&mut self, steps: &'a [Step]) -> Result<(), AllocError>
        ensures { OnOk result (self.new ≡ self.old ++ flat_map index_mentions steps.now) }
    {
        for step in steps {
            self.index(step)?;
        }
        Ok(())
    }

    #[cycle(expression)]
    #[tactic(auto, using(crate::proofs::ExpressionForms::step_is))]
    fn index(&mut self, step: &'a Step) -> Result<(), AllocError>
        ensures { OnOk result (self.new ≡ self.old ++ index_mentions step.now) }
    {
        match &step.index {
            Some(index) => self.index_after(step.name.at, index.get()),
            None => Ok(()),
        }
    }

    /// An index after a name at this place.
    #[cycle(expression)]
    #[tactic(auto, using(crate::proofs::Lists::behind_two))]
    fn index_after(&mut self, at: u32, index: &'a Expr) -> Result<(), AllocError>
        ensures { OnOk result (self.new ≡ self.old
            ++ (fails_at (not (parts.is_number index.now)) at ++ expr_mentions index.now)) }
    {
        self.failing(!is_number(index), at)?;
        self.expr(index)
    }
}

/// Whether a form may have no value though its parts have one.
fn may_fail(form: &ExprForm) -> bool
    ensures { result ≡ parts.may_fail form.now }
{
    match form {
        ExprForm::Int(_) => false,
        ExprForm::Long(_) => false,
        ExprForm::Str(_) => false,
        ExprForm::Bool(_) => false,
        ExprForm::Path(_) => false,
        ExprForm::Size(_) => false,
        ExprForm::IsDefined(_) => false,
        ExprForm::Cast { target, .. } => casts_number(*target),
        ExprForm::Literal(_) => false,
        ExprForm::Minus(value) => !is_number(value.get()),
        ExprForm::Not(_) => false,
        ExprForm::Product { .. } => true,
        ExprForm::Sum { first, rest } => !texts_join(first.get(), rest.as_slice()),
        ExprForm::Compare {
            left,
            comparison,
            right,
        } => is_order(*comparison) && !are_numbers(left.get(), right.get()),
        ExprForm::And(_) => false,
        ExprForm::Or(_) => false,
    }
}

/// Whether a cast is one to a number.
fn casts_number(target: CastTarget) -> bool
    ensures { result ≡ spec.casts_number target }
{
    match target {
        CastTarget::Int => true,
        CastTarget::Long => true,
        CastTarget::Str => false,
    }
}

/// Whether a comparison is one by order.
fn is_order(comparison: Comparison) -> bool
    ensures { result ≡ spec.is_order comparison }
{
    match comparison {
        Comparison::Equal => false,
        Comparison::NotEqual => false,
        Comparison::Less => true,
        Comparison::AtMost => true,
        Comparison::Greater => true,
        Comparison::AtLeast => true,
    }
}

/// Whether both are numbers in digits, or sizes of paths.
fn are_numbers(left: &Expr, right: &Expr) -> bool
    ensures { result ≡ parts.is_number left.now && parts.is_number right.now }
{
    is_number(left) && is_number(right)
}

/// Whether an expression is a number in digits, or the size of a path.
fn is_number(value: &Expr) -> bool
    ensures { result ≡ parts.is_number value.now }
{
    match value.form.get() {
        ExprForm::Int(_) => true,
        ExprForm::Long(_) => true,
        ExprForm::Str(_) => false,
        ExprForm::Bool(_) => false,
        ExprForm::Path(_) => false,
        ExprForm::Size(_) => true,
        ExprForm::IsDefined(_) => false,
        ExprForm::Cast { .. } => false,
        ExprForm::Literal(_) => false,
        ExprForm::Minus(_) => false,
        ExprForm::Not(_) => false,
        ExprForm::Product { .. } => false,
        ExprForm::Sum { .. } => false,
        ExprForm::Compare { .. } => false,
        ExprForm::And(_) => false,
        ExprForm::Or(_) => false,
    }
}

/// Whether a sum puts texts together: one of its operands is a text in quotes.
fn texts_join(first: &Expr, rest: &[Term]) -> bool
    ensures { result ≡ parts.texts_join first.now rest.now }
{
    is_text(first) || add_text(rest)
}

/// Whether one of the operands after the first is a text in quotes.
fn add_text(terms: &[Term]) -> bool
    ensures { result ≡ list_any parts.adds_text terms.now }
{
    terms.iter().any(|term| adds_text(term))
}

/// Whether an operand after the first is a text in quotes.
fn adds_text(term: &Term) -> bool
    ensures { result ≡ parts.adds_text term.now }
{
    is_text(&term.operand)
}

/// Whether an expression is a text in quotes.
fn is_text(value: &Expr) -> bool
    ensures { result ≡ parts.is_text value.now }
{
    match value.form.get() {
        ExprForm::Int(_) => false,
        ExprForm::Long(_) => false,
        ExprForm::Str(_) => true,
        ExprForm::Bool(_) => false,
        ExprForm::Path(_) => false,
        ExprForm::Size(_) => false,
        ExprForm::IsDefined(_) => false,
        ExprForm::Cast { .. } => false,
        ExprForm::Literal(_) => false,
        ExprForm::Minus(_) => false,
        ExprForm::Not(_) => false,
        ExprForm::Product { .. } => false,
        ExprForm::Sum { .. } => false,
        ExprForm::Compare { .. } => false,
        ExprForm::And(_) => false,
        ExprForm::Or(_) => false,
    }
}

/// The role of a variable that is read, by what stands after it.
fn read_role(rest: &[Step]) -> Role
    ensures { result ≡ spec.read_role rest.now }
{
    match rest {
        [] => Role::Read,
        _ => Role::FieldRead,
    }
}
