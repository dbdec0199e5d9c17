//! Expressions as words.

use crate::error::WordError;
use crate::root::read_root;
use behaviour_tree::{
    CastKind, CompareOp, Expr, Member, MulOp, MulPart, PathExpr, PathStep, SumOp, SumPart,
};
use jolie_trees::{Root, Text};
use std::alloc::{AllocError, Global};

/// The expression that words make in reverse Polish order: operands first, then their operator.
///
/// - A root is written as in a tree; `longest` is a text of 65,536 letters, and `toolong` one of a letter more.
/// - `.name` is a step of a path without an index, and `@name` one whose index is the last operand. `get`, `count` and
///   `defined` are the value at the path of the steps so far, how many trees stand there and whether any does.
/// - `{}` is a literal, and `:name` makes the last operand a member of the literal before it.
/// - `int`, `long` and `string` are casts, `neg` is the sign and `!` the negation; an operator of two operands extends
/// the
///   left one where that is of its own level.
pub fn read_expression(alloc: Global, words: &str) -> Result<Box<Expr>, WordError> {
    let mut pile = Pile::new(alloc);
    for word in words.split(' ') {
        pile.word(word)?;
    }
    pile.last()
}

/// The path whose steps words make.
pub fn read_path(alloc: Global, words: &str) -> Result<PathExpr, WordError> {
    let mut pile = Pile::new(alloc);
    for word in words.split(' ') {
        pile.word(word)?;
    }
    Ok(pile.path())
}

/// The operands so far, and the steps of the path that is not yet used.
#[derive(Drop)]
struct Pile {
    alloc: Global,
    operands: Vec<Box<Expr>>,
    steps: Vec<PathStep>,
}

impl Pile {
    fn new(alloc: Global) -> Pile {
        Pile {
            alloc,
            operands: Vec::new(alloc),
            steps: Vec::new(alloc),
        }
    }

    fn last(&mut self) -> Result<Box<Expr>, WordError> {
        self.operands.pop().ok_or(WordError::Lacking)
    }

    fn put(&mut self, operand: Expr) -> Result<(), WordError> {
        let operand = Box::new(self.alloc, operand)?;
        self.operands.push(operand)?;
        Ok(())
    }

    /// The path of the steps so far.
    fn path(&mut self) -> PathExpr {
        let none = Vec::new(self.alloc);
        PathExpr {
            steps: std::mem::replace(&mut self.steps, none),
        }
    }

    fn word(&mut self, word: &str) -> Result<(), WordError> {
        match word {
            "longest" => self.put_letters(65_536),
            "toolong" => self.put_letters(65_537),
            "get" => self.put_value(),
            "count" => self.put_count(),
            "defined" => self.put_presence(),
            "{}" => self.put(Expr::Literal(Vec::new(self.alloc))),
            "||" => self.either(),
            "&&" => self.each(),
            "neg" => self.sign(),
            "!" => self.negation(),
            _ => self.operator(word),
        }
    }

    fn put_letters(&mut self, letters: u32) -> Result<(), WordError> {
        let text = letters_of(self.alloc, letters)?;
        self.put(Expr::Value(Root::Text(text)))
    }

    fn put_value(&mut self) -> Result<(), WordError> {
        let path = self.path();
        self.put(Expr::Path(path))
    }

    fn put_count(&mut self) -> Result<(), WordError> {
        let path = self.path();
        self.put(Expr::Count(path))
    }

    fn put_presence(&mut self) -> Result<(), WordError> {
        let path = self.path();
        self.put(Expr::IsDefined(path))
    }

    fn either(&mut self) -> Result<(), WordError> {
        let right = self.last()?;
        let left = self.last()?;
        let either = in_or(self.alloc, left, right)?;
        self.operands.push(either)?;
        Ok(())
    }

    fn each(&mut self) -> Result<(), WordError> {
        let right = self.last()?;
        let left = self.last()?;
        let each = in_and(self.alloc, left, right)?;
        self.operands.push(each)?;
        Ok(())
    }

    fn sign(&mut self) -> Result<(), WordError> {
        let operand = self.last()?;
        self.put(Expr::Minus(operand))
    }

    fn negation(&mut self) -> Result<(), WordError> {
        let operand = self.last()?;
        self.put(Expr::Not(operand))
    }

    /// A cast or an operator of two operands, else a step, a member or a root.
    fn operator(&mut self, word: &str) -> Result<(), WordError> {
        if let Some(to) = cast_kind(word) {
            return self.cast(to);
        }
        if let Some(op) = sum_op(word) {
            return self.add(op);
        }
        if let Some(op) = mul_op(word) {
            return self.multiply(op);
        }
        match compare_op(word) {
            Some(op) => self.compare(op),
            None => self.operand(word),
        }
    }

    fn cast(&mut self, to: CastKind) -> Result<(), WordError> {
        let value = self.last()?;
        self.put(Expr::Cast { to, value })
    }

    fn add(&mut self, op: SumOp) -> Result<(), WordError> {
        let value = self.last()?;
        let left = self.last()?;
        let sum = in_sum(self.alloc, left, op, value)?;
        self.operands.push(sum)?;
        Ok(())
    }

    fn multiply(&mut self, op: MulOp) -> Result<(), WordError> {
        let value = self.last()?;
        let left = self.last()?;
        let product = in_product(self.alloc, left, op, value)?;
        self.operands.push(product)?;
        Ok(())
    }

    fn compare(&mut self, op: CompareOp) -> Result<(), WordError> {
        let right = self.last()?;
        let left = self.last()?;
        self.put(Expr::Compare { left, op, right })
    }

    fn operand(&mut self, word: &str) -> Result<(), WordError> {
        if let Some(name) = word.strip_prefix('.') {
            return self.step(name);
        }
        if let Some(name) = word.strip_prefix('@') {
            return self.step_at(name);
        }
        if let Some(name) = word.strip_prefix(':') {
            return self.member(name);
        }
        let root = read_root(self.alloc, word)?;
        self.put(Expr::Value(root))
    }

    fn step(&mut self, name: &str) -> Result<(), WordError> {
        let name = Text::new(self.alloc, name)?;
        self.steps.push(PathStep { name, index: None })?;
        Ok(())
    }

    fn step_at(&mut self, name: &str) -> Result<(), WordError> {
        let name = Text::new(self.alloc, name)?;
        let index = self.last()?;
        self.steps.push(PathStep {
            name,
            index: Some(Box::into_inner(index)),
        })?;
        Ok(())
    }

    fn member(&mut self, name: &str) -> Result<(), WordError> {
        let name = Text::new(self.alloc, name)?;
        let value = self.last()?;
        match self.operands.last_mut() {
            Some(literal) => add_member(literal, name, value),
            None => Err(WordError::Lacking),
        }
    }
}

fn letters_of(alloc: Global, letters: u32) -> Result<Text, AllocError> {
    let mut text = String::new(alloc);
    for _ in 0..letters {
        text.push_str("x")?;
    }
    Ok(Text::from_string(text))
}

fn add_member(literal: &mut Expr, name: Text, value: Box<Expr>) -> Result<(), WordError> {
    match literal {
        Expr::Literal(members) => {
            members.push(Member {
                name,
                value: Box::into_inner(value),
            })?;
            Ok(())
        }
        _ => Err(WordError::Lacking),
    }
}

fn in_or(alloc: Global, mut left: Box<Expr>, right: Box<Expr>) -> Result<Box<Expr>, AllocError> {
    if let Expr::Or(list) = &mut *left {
        list.push(Box::into_inner(right))?;
        return Ok(left);
    }
    Ok(Box::new(alloc, Expr::Or(pair(alloc, left, right)?))?)
}

fn in_and(alloc: Global, mut left: Box<Expr>, right: Box<Expr>) -> Result<Box<Expr>, AllocError> {
    if let Expr::And(list) = &mut *left {
        list.push(Box::into_inner(right))?;
        return Ok(left);
    }
    Ok(Box::new(alloc, Expr::And(pair(alloc, left, right)?))?)
}

fn pair(alloc: Global, left: Box<Expr>, right: Box<Expr>) -> Result<Vec<Expr>, AllocError> {
    let mut list = Vec::new(alloc);
    list.push(Box::into_inner(left))?;
    list.push(Box::into_inner(right))?;
    Ok(list)
}

fn in_sum(
    alloc: Global,
    mut left: Box<Expr>,
    op: SumOp,
    value: Box<Expr>,
) -> Result<Box<Expr>, AllocError> {
    if let Expr::Sum { rest, .. } = &mut *left {
        rest.push(sum_part(op, value))?;
        return Ok(left);
    }
    let mut rest = Vec::new(alloc);
    rest.push(sum_part(op, value))?;
    Ok(Box::new(alloc, Expr::Sum { first: left, rest })?)
}

fn sum_part(op: SumOp, value: Box<Expr>) -> SumPart {
    SumPart {
        op,
        value: Box::into_inner(value),
    }
}

fn in_product(
    alloc: Global,
    mut left: Box<Expr>,
    op: MulOp,
    value: Box<Expr>,
) -> Result<Box<Expr>, AllocError> {
    if let Expr::Product { rest, .. } = &mut *left {
        rest.push(mul_part(op, value))?;
        return Ok(left);
    }
    let mut rest = Vec::new(alloc);
    rest.push(mul_part(op, value))?;
    Ok(Box::new(alloc, Expr::Product { first: left, rest })?)
}

fn mul_part(op: MulOp, value: Box<Expr>) -> MulPart {
    MulPart {
        op,
        value: Box::into_inner(value),
    }
}

fn cast_kind(word: &str) -> Option<CastKind> {
    match word {
        "int" => Some(CastKind::Int),
        "long" => Some(CastKind::Long),
        "string" => Some(CastKind::Text),
        _ => None,
    }
}

fn sum_op(word: &str) -> Option<SumOp> {
    match word {
        "+" => Some(SumOp::Plus),
        "-" => Some(SumOp::Minus),
        _ => None,
    }
}

fn mul_op(word: &str) -> Option<MulOp> {
    match word {
        "*" => Some(MulOp::Times),
        "/" => Some(MulOp::Over),
        "%" => Some(MulOp::Rest),
        _ => None,
    }
}

fn compare_op(word: &str) -> Option<CompareOp> {
    match word {
        "==" => Some(CompareOp::Equal),
        "!=" => Some(CompareOp::Unequal),
        "<" => Some(CompareOp::Less),
        "<=" => Some(CompareOp::AtMost),
        ">" => Some(CompareOp::More),
        ">=" => Some(CompareOp::AtLeast),
        _ => None,
    }
}
