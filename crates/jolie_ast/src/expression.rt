ghost use Rattle.std.specs.Prelude.{◌≡◌, IfOk};
ghost use Rattle.jolie_ast.specs.declared.expression.Expr.{roll-Expr};

use crate::name::Name;
use jolie_trees::Text;
use sqlite_items::{Boxed, Items};
use std::alloc::{AllocError, Global};

#[derive(Clone, Copy, Debug, PartialEq, Eq)]
pub enum Additive {
    Plus,
    Minus,
}

#[derive(Clone, Copy, Debug, PartialEq, Eq)]
pub enum Multiplicative {
    Times,
    Divide,
    Remainder,
}

#[derive(Clone, Copy, Debug, PartialEq, Eq)]
pub enum Comparison {
    Equal,
    NotEqual,
    Less,
    AtMost,
    Greater,
    AtLeast,
}

/// What a cast turns a value into.
#[derive(Clone, Copy, Debug, PartialEq, Eq)]
pub enum CastTarget {
    Int,
    Long,
    Str,
}

/// An expression and the place of its first token, be it a parenthesis that left no node.
///
/// Its form stands in a box, so that an expression is small where it is owned.
#[cycle(expression)]
#[derive(Drop)]
pub struct Expr {
    pub at: u32,
    pub form: Boxed<ExprForm>,
}

impl Expr {
    pub fn new(alloc: Global, at: u32, form: ExprForm) -> Result<Expr, AllocError>
        ensures { IfOk result (λ e. e ≡ roll-Expr (record { at = at; form = form })) }
    {
        Ok(Expr {
            at,
            form: Boxed::new(alloc, form)?,
        })
    }
}

/// The forms of an expression.
#[cycle(expression)]
#[derive(Drop)]
pub enum ExprForm {
    Int(i32),
    Long(i64),
    Str(Text),
    Bool(bool),
    Path(Path),
    /// `#p`
    Size(Path),
    IsDefined(Path),
    Cast {
        target: CastTarget,
        operand: Boxed<Expr>,
    },
    Literal(Items<Member>),
    Minus(Boxed<Expr>),
    Not(Boxed<Expr>),
    Product {
        first: Boxed<Expr>,
        rest: Items<Factor>,
    },
    Sum {
        first: Boxed<Expr>,
        rest: Items<Term>,
    },
    Compare {
        left: Boxed<Expr>,
        comparison: Comparison,
        right: Boxed<Expr>,
    },
    /// Two or more operands.
    And(Items<Expr>),
    /// Two or more operands.
    Or(Items<Expr>),
}

/// A later operand of a product.
#[cycle(expression)]
#[derive(Drop)]
pub struct Factor {
    pub operator: Multiplicative,
    pub operand: Expr,
}

/// A later operand of a sum.
#[cycle(expression)]
#[derive(Drop)]
pub struct Term {
    pub operator: Additive,
    pub operand: Expr,
}

/// A member of a literal.
#[cycle(expression)]
#[derive(Drop)]
pub struct Member {
    pub name: Name,
    pub value: Expr,
}

/// A path, which has at least its first step.
#[cycle(expression)]
#[derive(Drop)]
pub struct Path {
    pub first: Step,
    pub rest: Items<Step>,
}

/// A step of a path, with its index if one is written.
#[cycle(expression)]
#[derive(Drop)]
pub struct Step {
    pub name: Name,
    pub index: Option<Boxed<Expr>>,
}
