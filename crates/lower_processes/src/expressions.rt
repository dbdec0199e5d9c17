ghost use Rattle.std.specs.Prelude.{◌≡◌, map, IfOk};
ghost use Rattle.behaviour_tree.specs.View.{expr_view, member_view, mul_part_view, path_view, step_view, sum_part_view};
ghost use Rattle.lower_processes.specs.Expressions.{cast_kind, compare_op, lowered_expr, lowered_factor, lowered_form, lowered_if_written, lowered_member, lowered_path, lowered_place, lowered_term, mul_op, sum_op};

use behaviour_tree::{
    CastKind, CompareOp, Expr, Member, MulOp, MulPart, PathExpr, PathStep, SumOp, SumPart,
};
use jolie_ast::{
    Additive, CastTarget, Comparison, ExprForm, Factor, Multiplicative, Path, Step, Term,
};
use jolie_trees::Root;
use std::alloc::{AllocError, Global};

pub fn sum_op(operator: Additive) -> SumOp
    ensures { result ≡ sum_op operator }
{
    match operator {
        Additive::Plus => SumOp::Plus,
        Additive::Minus => SumOp::Minus,
    }
}

fn mul_op(operator: Multiplicative) -> MulOp
    ensures { result ≡ mul_op operator }
{
    match operator {
        Multiplicative::Times => MulOp::Times,
        Multiplicative::Divide => MulOp::Over,
        Multiplicative::Remainder => MulOp::Rest,
    }
}

fn compare_op(comparison: Comparison) -> CompareOp
    ensures { result ≡ compare_op comparison }
{
    match comparison {
        Comparison::Equal => CompareOp::Equal,
        Comparison::NotEqual => CompareOp::Unequal,
        Comparison::Less => CompareOp::Less,
        Comparison::AtMost => CompareOp::AtMost,
        Comparison::Greater => CompareOp::More,
        Comparison::AtLeast => CompareOp::AtLeast,
    }
}

fn cast_kind(target: CastTarget) -> CastKind
    ensures { result ≡ cast_kind target }
{
    match target {
        CastTarget::Int => CastKind::Int,
        CastTarget::Long => CastKind::Long,
        CastTarget::Str => CastKind::Text,
    }
}

/// The expression that an expression of the text means.
#[cycle(expression)]
#[tactic(auto, using(crate::proofs::LoweredExpressions::expr_is))]
pub fn lowered_expr(alloc: Global, expr: &jolie_ast::Expr) -> Result<Expr, AllocError>
    ensures { IfOk result (λ e. expr_view e ≡ lowered_expr expr.now) }
{
    lowered_form(alloc, expr.form.get())
}

#[cycle(expression)]
fn lowered_form(alloc: Global, form: &ExprForm) -> Result<Expr, AllocError>
    ensures { IfOk result (λ e. expr_view e ≡ lowered_form form.now) }
{
    match form {
        ExprForm::Int(value) => Ok(Expr::Value(Root::Int(*value))),
        ExprForm::Long(value) => Ok(Expr::Value(Root::Long(*value))),
        ExprForm::Str(text) => Ok(Expr::Value(Root::Text(text.copied()?))),
        ExprForm::Bool(value) => Ok(Expr::Value(Root::Bool(*value))),
        ExprForm::Path(path) => Ok(Expr::Path(lowered_path(alloc, path)?)),
        ExprForm::Size(path) => Ok(Expr::Count(lowered_path(alloc, path)?)),
        ExprForm::IsDefined(path) => Ok(Expr::IsDefined(lowered_path(alloc, path)?)),
        ExprForm::Cast { target, operand } => Ok(Expr::Cast {
            to: cast_kind(*target),
            value: lowered_operand(alloc, operand.get())?,
        }),
        ExprForm::Literal(members) => Ok(Expr::Literal(lowered_members(
            alloc,
            members.as_slice(),
        )?)),
        ExprForm::Minus(operand) => Ok(Expr::Minus(lowered_operand(alloc, operand.get())?)),
        ExprForm::Not(operand) => Ok(Expr::Not(lowered_operand(alloc, operand.get())?)),
        ExprForm::Product { first, rest } => Ok(Expr::Product {
            first: lowered_operand(alloc, first.get())?,
            rest: lowered_factors(alloc, rest.as_slice())?,
        }),
        ExprForm::Sum { first, rest } => Ok(Expr::Sum {
            first: lowered_operand(alloc, first.get())?,
            rest: lowered_terms(alloc, rest.as_slice())?,
        }),
        ExprForm::Compare {
            left,
            comparison,
            right,
        } => Ok(Expr::Compare {
            left: lowered_operand(alloc, left.get())?,
            op: compare_op(*comparison),
            right: lowered_operand(alloc, right.get())?,
        }),
        ExprForm::And(operands) => Ok(Expr::And(lowered_exprs(alloc, operands.as_slice())?)),
        ExprForm::Or(operands) => Ok(Expr::Or(lowered_exprs(alloc, operands.as_slice())?)),
    }
}

#[cycle(expression)]
fn lowered_operand(alloc: Global, expr: &jolie_ast::Expr) -> Result<Box<Expr>, AllocError>
    ensures { IfOk result (λ b. expr_view b.value ≡ lowered_expr expr.now) }
{
    let operand = lowered_expr(alloc, expr)?;
    Ok(Box::new(alloc, operand)?)
}

#[cycle(expression)]
fn lowered_exprs(alloc: Global, exprs: &[jolie_ast::Expr]) -> Result<Vec<Expr>, AllocError>
    ensures { IfOk result (λ v. map expr_view v.items ≡ map lowered_expr exprs.now) }
{
    let mut lowered = Vec::new(alloc);
    for expr in exprs {
        lowered.push(lowered_expr(alloc, expr)?)?;
    }
    Ok(lowered)
}

#[cycle(expression)]
fn lowered_factors(alloc: Global, factors: &[Factor]) -> Result<Vec<MulPart>, AllocError>
    ensures { IfOk result (λ v. map mul_part_view v.items ≡ map lowered_factor factors.now) }
{
    let mut lowered = Vec::new(alloc);
    for factor in factors {
        lowered.push(lowered_factor(alloc, factor)?)?;
    }
    Ok(lowered)
}

#[cycle(expression)]
fn lowered_factor(alloc: Global, factor: &Factor) -> Result<MulPart, AllocError>
    ensures { IfOk result (λ p. mul_part_view p ≡ lowered_factor factor.now) }
{
    Ok(MulPart {
        op: mul_op(factor.operator),
        value: lowered_expr(alloc, &factor.operand)?,
    })
}

#[cycle(expression)]
fn lowered_terms(alloc: Global, terms: &[Term]) -> Result<Vec<SumPart>, AllocError>
    ensures { IfOk result (λ v. map sum_part_view v.items ≡ map lowered_term terms.now) }
{
    let mut lowered = Vec::new(alloc);
    for term in terms {
        lowered.push(lowered_term(alloc, term)?)?;
    }
    Ok(lowered)
}

#[cycle(expression)]
fn lowered_term(alloc: Global, term: &Term) -> Result<SumPart, AllocError>
    ensures { IfOk result (λ p. sum_part_view p ≡ lowered_term term.now) }
{
    Ok(SumPart {
        op: sum_op(term.operator),
        value: lowered_expr(alloc, &term.operand)?,
    })
}

#[cycle(expression)]
fn lowered_members(alloc: Global, members: &[jolie_ast::Member]) -> Result<Vec<Member>, AllocError>
    ensures { IfOk result (λ v. map member_view v.items ≡ map lowered_member members.now) }
{
    let mut lowered = Vec::new(alloc);
    for member in members {
        lowered.push(lowered_member(alloc, member)?)?;
    }
    Ok(lowered)
}

#[cycle(expression)]
fn lowered_member(alloc: Global, member: &jolie_ast::Member) -> Result<Member, AllocError>
    ensures { IfOk result (λ m. member_view m ≡ lowered_member member.now) }
{
    Ok(Member {
        name: member.name.text.copied()?,
        value: lowered_expr(alloc, &member.value)?,
    })
}

/// The path that a path of the text means.
#[cycle(expression)]
pub fn lowered_path(alloc: Global, path: &Path) -> Result<PathExpr, AllocError>
    ensures { IfOk result (λ p. path_view p ≡ lowered_path path.now) }
{
    let mut steps = Vec::new(alloc);
    steps.push(lowered_place(alloc, &path.first)?)?;
    for step in path.rest.as_slice() {
        steps.push(lowered_place(alloc, step)?)?;
    }
    Ok(PathExpr { steps })
}

#[cycle(expression)]
fn lowered_place(alloc: Global, step: &Step) -> Result<PathStep, AllocError>
    ensures { IfOk result (λ s. step_view s ≡ lowered_place step.now) }
{
    let name = step.name.text.copied()?;
    match &step.index {
        None => Ok(PathStep { name, index: None }),
        Some(index) => Ok(PathStep {
            name,
            index: Some(lowered_expr(alloc, index.get())?),
        }),
    }
}

/// An expression that may be left out, which is void then.
pub fn lowered_if_written(alloc: Global, expr: &Option<jolie_ast::Expr>) -> Result<Expr, AllocError>
    ensures { IfOk result (λ e. expr_view e ≡ lowered_if_written expr.now) }
{
    match expr {
        None => Ok(Expr::Value(Root::Void)),
        Some(expr) => lowered_expr(alloc, expr),
    }
}
