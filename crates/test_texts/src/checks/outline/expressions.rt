//! Expressions as words.

use crate::checks::outline::Outline;
use behaviour_tree::{
    CastKind, CompareOp, Expr, Member, MulOp, MulPart, PathExpr, PathStep, SumOp, SumPart,
};
use jolie_trees::{Root, Text};

impl Outline {
    fn root(&mut self, root: &Root) {
        match root {
            Root::Void => self.word("void"),
            Root::Bool(true) => self.word("true"),
            Root::Bool(false) => self.word("false"),
            Root::Int(n) => self.int(*n),
            Root::Long(n) => self.long(*n),
            Root::Text(text) => self.quoted(text),
        }
    }

    fn int(&mut self, n: i32) {
        let digits = n.to_string(self.alloc);
        self.made(digits);
    }

    fn long(&mut self, n: i64) {
        let digits = format!(in self.alloc; "{n}L");
        self.made(digits);
    }

    fn quoted(&mut self, text: &Text) {
        let quoted = format!(in self.alloc; "'{}'", text.as_str());
        self.made(quoted);
    }

    #[cycle(expression)]
    pub(super) fn path(&mut self, path: &PathExpr) {
        for step in &path.steps {
            self.step(step);
        }
    }

    #[cycle(expression)]
    fn step(&mut self, step: &PathStep) {
        self.dotted(&step.name);
        match &step.index {
            Some(index) => {
                self.word("[");
                self.expr(index);
                self.word("]");
            }
            None => {}
        }
    }

    #[cycle(expression)]
    pub(super) fn expr(&mut self, expr: &Expr) {
        match expr {
            Expr::Value(root) => self.root(root),
            Expr::Path(path) => self.path(path),
            Expr::Count(path) => {
                self.word("#");
                self.path(path);
            }
            Expr::IsDefined(path) => {
                self.word("is_defined");
                self.path(path);
            }
            Expr::Literal(members) => {
                self.word("( literal");
                self.members(members);
                self.word(")");
            }
            Expr::Or(operands) => {
                self.word("( or");
                self.operands(operands);
                self.word(")");
            }
            Expr::And(operands) => {
                self.word("( and");
                self.operands(operands);
                self.word(")");
            }
            Expr::Compare { left, op, right } => {
                self.word("(");
                self.comparison(*op);
                self.expr(left);
                self.expr(right);
                self.word(")");
            }
            Expr::Sum { first, rest } => {
                self.word("( sum");
                self.expr(first);
                self.sum_parts(rest);
                self.word(")");
            }
            Expr::Product { first, rest } => {
                self.word("( product");
                self.expr(first);
                self.mul_parts(rest);
                self.word(")");
            }
            Expr::Minus(operand) => {
                self.word("( minus");
                self.expr(operand);
                self.word(")");
            }
            Expr::Not(operand) => {
                self.word("( not");
                self.expr(operand);
                self.word(")");
            }
            Expr::Cast { to, value } => {
                self.word("(");
                self.cast(*to);
                self.expr(value);
                self.word(")");
            }
        }
    }

    #[cycle(expression)]
    fn operands(&mut self, operands: &Vec<Expr>) {
        for operand in operands {
            self.expr(operand);
        }
    }

    #[cycle(expression)]
    fn members(&mut self, members: &Vec<Member>) {
        for member in members {
            self.member(member);
        }
    }

    #[cycle(expression)]
    fn member(&mut self, member: &Member) {
        self.word(member.name.as_str());
        self.word("=");
        self.expr(&member.value);
    }

    #[cycle(expression)]
    fn sum_parts(&mut self, parts: &Vec<SumPart>) {
        for part in parts {
            self.sum_part(part);
        }
    }

    #[cycle(expression)]
    fn sum_part(&mut self, part: &SumPart) {
        self.word(match part.op {
            SumOp::Plus => "+",
            SumOp::Minus => "-",
        });
        self.expr(&part.value);
    }

    #[cycle(expression)]
    fn mul_parts(&mut self, parts: &Vec<MulPart>) {
        for part in parts {
            self.mul_part(part);
        }
    }

    #[cycle(expression)]
    fn mul_part(&mut self, part: &MulPart) {
        self.word(match part.op {
            MulOp::Times => "*",
            MulOp::Over => "/",
            MulOp::Rest => "%",
        });
        self.expr(&part.value);
    }

    fn comparison(&mut self, op: CompareOp) {
        self.word(match op {
            CompareOp::Equal => "==",
            CompareOp::Unequal => "!=",
            CompareOp::Less => "<",
            CompareOp::AtMost => "<=",
            CompareOp::More => ">",
            CompareOp::AtLeast => ">=",
        })
    }

    fn cast(&mut self, to: CastKind) {
        self.word(match to {
            CastKind::Int => "int",
            CastKind::Long => "long",
            CastKind::Text => "string",
        })
    }
}
