use crate::expression::{Expr, Path};
use crate::name::Name;
use sqlite_items::{Boxed, Items};

/// `++` or `--`.
#[derive(Clone, Copy, Debug, PartialEq, Eq)]
pub enum Count {
    Up,
    Down,
}

/// What an assignment does to its path.
#[derive(Drop)]
pub enum Assignment {
    /// `= e`
    Root(Expr),
    /// `<< e`
    Copy(Expr),
    Count(Count),
}

/// What the last part of a `for` does to its path.
#[derive(Drop)]
pub enum ForStep {
    /// `= e`
    Root(Expr),
    Count(Count),
}

/// What a handler stands under.
#[derive(Debug, Drop)]
pub enum HandlerKey {
    /// `this`, at its place
    This(u32),
    Named(Name),
}

/// A statement, or several in a sequence or in parallel.
#[cycle(process)]
#[derive(Drop)]
pub enum Process {
    /// `nullProcess`, at its place
    Nothing(u32),
    Assign {
        path: Path,
        assignment: Assignment,
    },
    Undef {
        at: u32,
        path: Path,
    },
    /// `csets.v = e`
    Correlate {
        at: u32,
        variable: Name,
        value: Expr,
    },
    If(If),
    While {
        at: u32,
        test: Expr,
        body: Block,
    },
    For {
        at: u32,
        path: Path,
        first: Expr,
        test: Expr,
        stepped: Path,
        step: ForStep,
        body: Block,
    },
    /// An input that stands alone.
    Input(Input),
    Choice {
        at: u32,
        branches: Items<Branch>,
    },
    Output {
        operation: Name,
        port: Name,
        value: Option<Expr>,
        answer: Option<Answer>,
    },
    Scope {
        at: u32,
        name: Name,
        body: Block,
    },
    Install {
        at: u32,
        handlers: Items<Handler>,
    },
    Throw {
        at: u32,
        fault: Name,
        value: Option<Expr>,
    },
    /// `comp(q)`
    Compensate {
        at: u32,
        scope: Name,
    },
    /// `cH`, at its place
    InnerHandler(u32),
    Block(Block),
    /// Two or more statements.
    Sequence(Items<Process>),
    /// Two or more members.
    Parallel(Items<Process>),
}

/// Braces, and what stands between them if anything does.
#[cycle(process)]
#[derive(Drop)]
pub struct Block {
    pub at: u32,
    pub body: Option<Boxed<Process>>,
}

/// An `if`, or what follows an `else` as one; its place is that of the word `if`.
#[cycle(process)]
#[derive(Drop)]
pub struct If {
    pub at: u32,
    pub test: Expr,
    pub body: Block,
    pub otherwise: Otherwise,
}

/// What an `if` does where its test fails.
#[cycle(process)]
#[derive(Drop)]
pub enum Otherwise {
    /// Nothing is written.
    Nothing,
    ElseIf(Boxed<If>),
    Else(Block),
}

#[cycle(process)]
#[derive(Drop)]
pub struct Input {
    pub operation: Name,
    pub request: Option<Path>,
    /// Second parentheses and their block.
    pub reply: Option<Reply>,
}

#[cycle(process)]
#[derive(Drop)]
pub struct Reply {
    pub path: Option<Path>,
    pub body: Block,
}

/// A branch of a choice.
#[cycle(process)]
#[derive(Drop)]
pub struct Branch {
    pub at: u32,
    pub input: Input,
    pub after: Block,
}

/// The second parentheses of an output, and its handlers if a list is written.
#[cycle(process)]
#[derive(Drop)]
pub struct Answer {
    pub path: Option<Path>,
    pub handlers: Option<Items<Handler>>,
}

#[cycle(process)]
#[derive(Drop)]
pub struct Handler {
    pub key: HandlerKey,
    pub body: Process,
}
