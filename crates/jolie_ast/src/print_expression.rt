ghost use Rattle.std.specs.Prelude.{◌≡◌, OnOk, flat_map, codes};
ghost use Rattle.jolie_ast.specs.Spacing.{after, separated, with_token};
ghost use Rattle.jolie_ast.specs.PrintedExpressions.{additive_token, cast_token, comparison_token, multiplicative_token, expr_tokens, factor_tokens, form_shown, member_tokens, operand_tokens, path_tokens, step_tokens, term_tokens, in_parens};

use crate::expression::{
    Additive, CastTarget, Comparison, Expr, ExprForm, Factor, Member, Multiplicative, Path, Step,
    Term,
};
use crate::printer::Printer;
use std::alloc::AllocError;

impl Printer {
    fn additive(&mut self, operator: Additive) -> Result<(), AllocError>
        ensures { OnOk result (self.new ≡ with_token self.old (additive_token operator)) }
    {
        self.token(match operator {
            Additive::Plus => "+",
            Additive::Minus => "-",
        })
    }

    fn multiplicative(&mut self, operator: Multiplicative) -> Result<(), AllocError>
        ensures { OnOk result (self.new ≡ with_token self.old (multiplicative_token operator)) }
    {
        self.token(match operator {
            Multiplicative::Times => "*",
            Multiplicative::Divide => "/",
            Multiplicative::Remainder => "%",
        })
    }

    fn comparison(&mut self, comparison: Comparison) -> Result<(), AllocError>
        ensures { OnOk result (self.new ≡ with_token self.old (comparison_token comparison)) }
    {
        self.token(match comparison {
            Comparison::Equal => "==",
            Comparison::NotEqual => "!=",
            Comparison::Less => "<",
            Comparison::AtMost => "<=",
            Comparison::Greater => ">",
            Comparison::AtLeast => ">=",
        })
    }

    fn cast_target(&mut self, target: CastTarget) -> Result<(), AllocError>
        ensures { OnOk result (self.new ≡ with_token self.old (cast_token target)) }
    {
        self.token(match target {
            CastTarget::Int => "int",
            CastTarget::Long => "long",
            CastTarget::Str => "string",
        })
    }

    /// An expression that is no operand.
    #[cycle(expression)]
    #[tactic(auto, using(crate::proofs::PrintedExpressions::expr_is))]
    pub fn expr(&mut self, expr: &Expr) -> Result<(), AllocError>
        ensures { OnOk result (self.new ≡ after self.old (expr_tokens expr.now)) }
    {
        self.form(expr.form.get())
    }

    #[cycle(expression)]
    #[tactic(auto, using(crate::proofs::Spacing::after_append, crate::proofs::PrintedExpressions::int_shown, crate::proofs::PrintedExpressions::long_shown, crate::proofs::PrintedExpressions::literal_shown, crate::proofs::PrintedExpressions::compare_shown))]
    fn form(&mut self, form: &ExprForm) -> Result<(), AllocError>
        ensures { OnOk result (self.new ≡ after self.old (form_shown form.now).tokens) }
    {
        match form {
            ExprForm::Int(value) => self.int(*value),
            ExprForm::Long(value) => self.long(*value),
            ExprForm::Str(text) => self.quoted(text),
            ExprForm::Bool(value) => self.truth(*value),
            ExprForm::Path(path) => self.path(path),
            ExprForm::Size(path) => {
                self.token("#")?;
                self.path(path)
            }
            ExprForm::IsDefined(path) => {
                self.token("is_defined")?;
                self.path_in_parens(path)
            }
            ExprForm::Cast { target, operand } => {
                self.cast_target(*target)?;
                self.in_parens(operand.get())
            }
            ExprForm::Literal(members) => {
                self.token("{")?;
                self.members(members.as_slice())?;
                self.token("}")
            }
            ExprForm::Minus(value) => {
                self.token("-")?;
                self.operand(value.get())
            }
            ExprForm::Not(value) => {
                self.token("!")?;
                self.operand(value.get())
            }
            ExprForm::Product { first, rest } => {
                self.operand(first.get())?;
                self.factors(rest.as_slice())
            }
            ExprForm::Sum { first, rest } => {
                self.operand(first.get())?;
                self.terms(rest.as_slice())
            }
            ExprForm::Compare {
                left,
                comparison,
                right,
            } => {
                self.operand(left.get())?;
                self.comparison(*comparison)?;
                self.operand(right.get())
            }
            ExprForm::And(values) => self.operands("&&", values.as_slice()),
            ExprForm::Or(values) => self.operands("||", values.as_slice()),
        }
    }

    #[cycle(expression)]
    #[tactic(auto, using(crate::proofs::PrintedExpressions::expr_is))]
    fn operand(&mut self, operand: &Expr) -> Result<(), AllocError>
        ensures { OnOk result (self.new ≡ after self.old (operand_tokens operand.now)) }
    {
        if is_operation(operand.form.get()) {
            self.in_parens(operand)
        } else {
            self.expr(operand)
        }
    }

    #[cycle(expression)]
    #[tactic(auto, using(crate::proofs::Spacing::after_append))]
    pub fn in_parens(&mut self, expr: &Expr) -> Result<(), AllocError>
        ensures { OnOk result (self.new ≡ after self.old (in_parens (expr_tokens expr.now))) }
    {
        self.token("(")?;
        self.expr(expr)?;
        self.token(")")
    }

    #[cycle(expression)]
    #[tactic(auto, using(crate::proofs::Spacing::after_append))]
    pub fn path_in_parens(&mut self, path: &Path) -> Result<(), AllocError>
        ensures { OnOk result (self.new ≡ after self.old (in_parens (path_tokens path.now))) }
    {
        self.token("(")?;
        self.path(path)?;
        self.token(")")
    }

    #[cycle(expression)]
    #[tactic(auto, using(crate::proofs::Spacing::after_append, crate::proofs::Spacing::after_more))]
    fn operands(&mut self, sign: &str, values: &[Expr]) -> Result<(), AllocError>
        ensures { OnOk result (self.new ≡ after self.old (separated sign.now operand_tokens values.now)) }
    {
        if let [first, rest @ ..] = values {
            self.operand(first)?;
            for value in rest {
                self.token(sign)?;
                self.operand(value)?;
            }
        }
        Ok(())
    }

    #[cycle(expression)]
    #[tactic(auto, using(crate::proofs::Spacing::after_append, crate::proofs::Spacing::after_more, crate::proofs::PrintedExpressions::factor_is))]
    fn factors(&mut self, factors: &[Factor]) -> Result<(), AllocError>
        ensures { OnOk result (self.new ≡ after self.old (flat_map factor_tokens factors.now)) }
    {
        for factor in factors {
            self.multiplicative(factor.operator)?;
            self.operand(&factor.operand)?;
        }
        Ok(())
    }

    #[cycle(expression)]
    #[tactic(auto, using(crate::proofs::Spacing::after_append, crate::proofs::Spacing::after_more, crate::proofs::PrintedExpressions::term_is))]
    fn terms(&mut self, terms: &[Term]) -> Result<(), AllocError>
        ensures { OnOk result (self.new ≡ after self.old (flat_map term_tokens terms.now)) }
    {
        for term in terms {
            self.additive(term.operator)?;
            self.operand(&term.operand)?;
        }
        Ok(())
    }

    #[cycle(expression)]
    #[tactic(auto, using(crate::proofs::Spacing::after_append, crate::proofs::Spacing::after_more))]
    fn members(&mut self, members: &[Member]) -> Result<(), AllocError>
        ensures { OnOk result (self.new ≡ after self.old (separated (codes ",") member_tokens members.now)) }
    {
        if let [first, rest @ ..] = members {
            self.member(first)?;
            for member in rest {
                self.token(",")?;
                self.member(member)?;
            }
        }
        Ok(())
    }

    #[cycle(expression)]
    #[tactic(auto, using(crate::proofs::Spacing::after_append, crate::proofs::PrintedExpressions::member_is))]
    fn member(&mut self, member: &Member) -> Result<(), AllocError>
        ensures { OnOk result (self.new ≡ after self.old (member_tokens member.now)) }
    {
        self.token(member.name.text.as_str())?;
        self.token("=")?;
        self.expr(&member.value)
    }

    #[cycle(expression)]
    #[tactic(auto, using(crate::proofs::Spacing::after_append, crate::proofs::Spacing::after_more, crate::proofs::PrintedExpressions::path_is))]
    pub fn path(&mut self, path: &Path) -> Result<(), AllocError>
        ensures { OnOk result (self.new ≡ after self.old (path_tokens path.now)) }
    {
        self.step(&path.first)?;
        for step in path.rest.as_slice() {
            self.token(".")?;
            self.step(step)?;
        }
        Ok(())
    }

    #[cycle(expression)]
    #[tactic(auto, using(crate::proofs::Spacing::after_append, crate::proofs::PrintedExpressions::step_is))]
    fn step(&mut self, step: &Step) -> Result<(), AllocError>
        ensures { OnOk result (self.new ≡ after self.old (step_tokens step.now)) }
    {
        self.token(step.name.text.as_str())?;
        if let Some(index) = &step.index {
            self.token("[")?;
            self.expr(index.get())?;
            self.token("]")?;
        }
        Ok(())
    }
}

/// Whether it has two or more operands.
fn is_operation(form: &ExprForm) -> bool
    ensures { result ≡ (form_shown form.now).several }
{
    match form {
        ExprForm::Int(_) => false,
        ExprForm::Long(_) => false,
        ExprForm::Str(_) => false,
        ExprForm::Bool(_) => false,
        ExprForm::Path(_) => false,
        ExprForm::Size(_) => false,
        ExprForm::IsDefined(_) => false,
        ExprForm::Cast { .. } => false,
        ExprForm::Literal(_) => false,
        ExprForm::Minus(_) => false,
        ExprForm::Not(_) => false,
        ExprForm::Product { .. } => true,
        ExprForm::Sum { .. } => true,
        ExprForm::Compare { .. } => true,
        ExprForm::And(_) => true,
        ExprForm::Or(_) => true,
    }
}
