//! The tree of a main program.

/// A program: its variables in order, its initial assignments in order, the statements between `GS_On` and `GS_Off`,
/// and the line of `GS_Off`.
#[derive(Drop)]
pub struct Tree {
    pub vars: Vec<Var>,
    pub first: Vec<Assign>,
    pub body: Vec<Stmt>,
    pub off: u32,
}

/// A name and its line.
#[derive(Drop)]
pub struct Ident {
    pub line: u32,
    pub name: Vec<u8>,
}

/// A declared variable.
#[derive(Drop)]
pub struct Var {
    pub name: Ident,
    pub kind: VarKind,
}

/// The kinds of variables.
#[derive(Clone, Copy, PartialEq, Eq, Debug)]
pub enum VarKind {
    Int,
    Str,
    Handle,
}

/// An assignment of a value to a variable.
#[derive(Drop)]
pub struct Assign {
    pub to: Ident,
    pub value: Expr,
}

/// How a file is opened: to read, to write, or to append.
#[derive(Clone, Copy, PartialEq, Eq, Debug)]
pub enum Mode {
    R,
    W,
    A,
}

/// A statement. A body is the list of a block's statements, or of the one statement.
#[derive(Drop)]
pub enum Stmt {
    Empty {
        line: u32,
    },
    Block {
        line: u32,
        body: Vec<Stmt>,
    },
    Set {
        a: Assign,
    },
    If {
        line: u32,
        cond: Expr,
        yes: Vec<Stmt>,
        no: Option<Vec<Stmt>>,
    },
    While {
        line: u32,
        cond: Expr,
        body: Vec<Stmt>,
    },
    For {
        line: u32,
        first: Option<Assign>,
        cond: Option<Expr>,
        step: Option<Assign>,
        body: Vec<Stmt>,
    },
    OpenFile {
        line: u32,
        to: Ident,
        path: Expr,
        mode: Mode,
    },
    ReadLine {
        line: u32,
        got: Ident,
        handle: Ident,
        to: Ident,
    },
    CloseFile {
        line: u32,
        handle: Ident,
    },
    Barrier {
        line: u32,
    },
    Print {
        line: u32,
        format: Format,
        args: Vec<Expr>,
    },
    PrintFile {
        line: u32,
        handle: Ident,
        format: Format,
        args: Vec<Expr>,
    },
    PrintStr {
        line: u32,
        to: Ident,
        format: Format,
        args: Vec<Expr>,
    },
    Call {
        op: Ident,
        args: Vec<Argument>,
    },
}

impl Stmt {
    ghost use Rattle.std.specs.Prelude.{◌≡◌};
    ghost use Rattle.gs_tree.specs.Lines.{line_of};
    ghost use Rattle.gs_tree.specs.View.{code_of};

    /// The statement's line: that of an assignment's variable, that of a task call's name.
    pub fn line(&self) -> u32
        ensures { result ≡ line_of (code_of self.now) }
    {
        match self {
            Stmt::Empty { line } => *line,
            Stmt::Block { line, .. } => *line,
            Stmt::Set { a } => a.to.line,
            Stmt::If { line, .. } => *line,
            Stmt::While { line, .. } => *line,
            Stmt::For { line, .. } => *line,
            Stmt::OpenFile { line, .. } => *line,
            Stmt::ReadLine { line, .. } => *line,
            Stmt::CloseFile { line, .. } => *line,
            Stmt::Barrier { line } => *line,
            Stmt::Print { line, .. } => *line,
            Stmt::PrintFile { line, .. } => *line,
            Stmt::PrintStr { line, .. } => *line,
            Stmt::Call { op, .. } => op.line,
        }
    }
}

/// An argument of a task call, with the line of its first token; `by_address` where `&` stood before it.
#[derive(Drop)]
pub struct Argument {
    pub line: u32,
    pub by_address: bool,
    pub e: Expr,
}

/// A format: the bytes of its string after the escapes.
#[derive(Drop)]
pub struct Format {
    pub line: u32,
    pub s: Vec<u8>,
}

/// An expression. The bytes of a `Lit` are those after the escapes.
#[derive(Drop)]
pub enum Expr {
    Num { line: u32, v: i64 },
    Lit { line: u32, s: Vec<u8> },
    Name { id: Ident },
    Atoi { e: Box<Expr> },
    Strcmp { a: Box<Expr>, b: Box<Expr> },
    Neg { e: Box<Expr> },
    Not { e: Box<Expr> },
    Two { op: Op, a: Box<Expr>, b: Box<Expr> },
}

/// The binary operators.
#[derive(Clone, Copy, PartialEq, Eq, Debug)]
pub enum Op {
    Or,
    And,
    Eq,
    Ne,
    Lt,
    Le,
    Gt,
    Ge,
    Add,
    Sub,
    Mul,
    Div,
    Rem,
}
