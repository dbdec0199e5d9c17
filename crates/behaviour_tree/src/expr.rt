ghost use Rattle.std.specs.Prelude.{◌≡◌, map, IfOk};
ghost use Rattle.behaviour_tree.specs.View.{expr_view, member_view, mul_part_view, path_view, step_view, sum_part_view};

use jolie_trees::{Root, Text};
use std::alloc::AllocError;

/// How two values are compared.
#[derive(Clone, Copy, Debug, PartialEq, Eq)]
pub enum CompareOp {
    Equal,
    Unequal,
    Less,
    AtMost,
    More,
    AtLeast,
}

/// What a sum does with a part.
#[derive(Clone, Copy, Debug, PartialEq, Eq)]
pub enum SumOp {
    Plus,
    Minus,
}

/// What a product does with a part.
#[derive(Clone, Copy, Debug, PartialEq, Eq)]
pub enum MulOp {
    Times,
    Over,
    Rest,
}

/// The kind that a cast makes.
#[derive(Clone, Copy, Debug, PartialEq, Eq)]
pub enum CastKind {
    Int,
    Long,
    Text,
}

/// A step of a path in the text of a program.
#[cycle(expr)]
#[derive(Drop)]
pub struct PathStep {
    pub name: Text,
    pub index: Option<Expr>,
}

/// A path in the text of a program.
#[cycle(expr)]
#[derive(Drop)]
pub struct PathExpr {
    pub steps: Vec<PathStep>,
}

/// A part of a sum behind its first operand.
#[cycle(expr)]
#[derive(Drop)]
pub struct SumPart {
    pub op: SumOp,
    pub value: Expr,
}

/// A part of a product behind its first operand.
#[cycle(expr)]
#[derive(Drop)]
pub struct MulPart {
    pub op: MulOp,
    pub value: Expr,
}

/// A member of a literal.
#[cycle(expr)]
#[derive(Drop)]
pub struct Member {
    pub name: Text,
    pub value: Expr,
}

/// An expression. Operands of one level are a list and are taken from the left.
#[cycle(expr)]
#[derive(Drop)]
pub enum Expr {
    Value(Root),
    Path(PathExpr),
    Count(PathExpr),
    IsDefined(PathExpr),
    Literal(Vec<Member>),
    Or(Vec<Expr>),
    And(Vec<Expr>),
    Compare {
        left: Box<Expr>,
        op: CompareOp,
        right: Box<Expr>,
    },
    Sum {
        first: Box<Expr>,
        rest: Vec<SumPart>,
    },
    Product {
        first: Box<Expr>,
        rest: Vec<MulPart>,
    },
    Minus(Box<Expr>),
    Not(Box<Expr>),
    Cast {
        to: CastKind,
        value: Box<Expr>,
    },
}

impl PathExpr {
    #[cycle(copied)]
    pub fn copied(&self) -> Result<PathExpr, AllocError>
        ensures { IfOk result (λ path. path_view path ≡ path_view self.now) }
    {
        let mut steps = Vec::new(*self.steps.allocator());
        for step in &self.steps {
            steps.push(step.copied()?)?;
        }
        Ok(PathExpr { steps })
    }
}

impl PathStep {
    #[cycle(copied)]
    fn copied(&self) -> Result<PathStep, AllocError>
        ensures { IfOk result (λ step. step_view step ≡ step_view self.now) }
    {
        let name = self.name.copied()?;
        match &self.index {
            None => Ok(PathStep { name, index: None }),
            Some(index) => Ok(PathStep {
                name,
                index: Some(index.copied()?),
            }),
        }
    }
}

impl SumPart {
    #[cycle(copied)]
    fn copied(&self) -> Result<SumPart, AllocError>
        ensures { IfOk result (λ part. sum_part_view part ≡ sum_part_view self.now) }
    {
        Ok(SumPart {
            op: self.op,
            value: self.value.copied()?,
        })
    }
}

impl MulPart {
    #[cycle(copied)]
    fn copied(&self) -> Result<MulPart, AllocError>
        ensures { IfOk result (λ part. mul_part_view part ≡ mul_part_view self.now) }
    {
        Ok(MulPart {
            op: self.op,
            value: self.value.copied()?,
        })
    }
}

impl Member {
    #[cycle(copied)]
    fn copied(&self) -> Result<Member, AllocError>
        ensures { IfOk result (λ member. member_view member ≡ member_view self.now) }
    {
        Ok(Member {
            name: self.name.copied()?,
            value: self.value.copied()?,
        })
    }
}

impl Expr {
    #[cycle(copied)]
    pub fn copied(&self) -> Result<Expr, AllocError>
        ensures { IfOk result (λ expr. expr_view expr ≡ expr_view self.now) }
    {
        match self {
            Expr::Value(root) => Ok(Expr::Value(root.copied()?)),
            Expr::Path(path) => Ok(Expr::Path(path.copied()?)),
            Expr::Count(path) => Ok(Expr::Count(path.copied()?)),
            Expr::IsDefined(path) => Ok(Expr::IsDefined(path.copied()?)),
            Expr::Literal(members) => Ok(Expr::Literal(copied_members(members)?)),
            Expr::Or(list) => Ok(Expr::Or(copied_exprs(list)?)),
            Expr::And(list) => Ok(Expr::And(copied_exprs(list)?)),
            Expr::Compare { left, op, right } => Ok(Expr::Compare {
                left: copied_in_box(left)?,
                op: *op,
                right: copied_in_box(right)?,
            }),
            Expr::Sum { first, rest } => Ok(Expr::Sum {
                first: copied_in_box(first)?,
                rest: copied_sum_parts(rest)?,
            }),
            Expr::Product { first, rest } => Ok(Expr::Product {
                first: copied_in_box(first)?,
                rest: copied_mul_parts(rest)?,
            }),
            Expr::Minus(inner) => Ok(Expr::Minus(copied_in_box(inner)?)),
            Expr::Not(inner) => Ok(Expr::Not(copied_in_box(inner)?)),
            Expr::Cast { to, value } => Ok(Expr::Cast {
                to: *to,
                value: copied_in_box(value)?,
            }),
        }
    }
}

/// A copy in a box of the same allocator.
#[cycle(copied)]
fn copied_in_box(expr: &Box<Expr>) -> Result<Box<Expr>, AllocError>
    ensures { IfOk result (λ copy. expr_view copy.value ≡ expr_view expr.now.value) }
{
    let copy = expr.copied()?;
    Ok(Box::new(*Box::allocator(expr), copy)?)
}

#[cycle(copied)]
fn copied_exprs(list: &Vec<Expr>) -> Result<Vec<Expr>, AllocError>
    ensures { IfOk result (λ v. map expr_view v.items ≡ map expr_view list.now.items) }
{
    let mut copies = Vec::new(*list.allocator());
    for expr in list {
        copies.push(expr.copied()?)?;
    }
    Ok(copies)
}

#[cycle(copied)]
fn copied_members(list: &Vec<Member>) -> Result<Vec<Member>, AllocError>
    ensures { IfOk result (λ v. map member_view v.items ≡ map member_view list.now.items) }
{
    let mut copies = Vec::new(*list.allocator());
    for member in list {
        copies.push(member.copied()?)?;
    }
    Ok(copies)
}

#[cycle(copied)]
fn copied_sum_parts(list: &Vec<SumPart>) -> Result<Vec<SumPart>, AllocError>
    ensures { IfOk result (λ v. map sum_part_view v.items ≡ map sum_part_view list.now.items) }
{
    let mut copies = Vec::new(*list.allocator());
    for part in list {
        copies.push(part.copied()?)?;
    }
    Ok(copies)
}

#[cycle(copied)]
fn copied_mul_parts(list: &Vec<MulPart>) -> Result<Vec<MulPart>, AllocError>
    ensures { IfOk result (λ v. map mul_part_view v.items ≡ map mul_part_view list.now.items) }
{
    let mut copies = Vec::new(*list.allocator());
    for part in list {
        copies.push(part.copied()?)?;
    }
    Ok(copies)
}
