// The tree of a text. Names and numbers are parts of the text; statements have their offsets.

mod spelling;

// A part of the text that is a name or a number.
#[derive(Clone, Copy, PartialEq, Eq, Debug)]
pub struct Name {
    pub at: usize,
    pub len: usize,
}

#[derive(Clone, Copy)]
pub enum Operator {
    Same,
    Less,
    Plus,
    Minus,
    Times,
}

#[derive(Drop)]
pub enum Expr {
    Use(Name),
    Number(Name),
    Negated(Box<Expr>),
    Both(Operator, Box<Expr>, Box<Expr>),
}

// A statement without blocks.
#[derive(Drop)]
pub enum Simple {
    Var(Name),
    Set(Name, Expr),
    Call(Name, Vec<Name>),
    Next(Name),
    Know(Name),
    Throw(Name),
}

// What stands before the blocks of a statement that has one or two.
#[derive(Drop)]
pub enum Head {
    Plain,
    If(Expr),
    While(Expr),
    Try(Name),
    Take(Name, Name),
}

// Statements and the lists of them. A list is a chain of boxes and no `Vec`: with a `Vec<Stmt>` in a statement no definition
// can match on a statement, and the grammar, names and unfolding are defined by an equation for each statement.
// The second block is the else block of an if and the catch block of a try, and otherwise empty.
#[cycle(stmt)]
#[derive(Drop)]
pub enum Stmt {
    One(usize, Simple),
    Two(usize, Head, Box<Block>, Box<Block>),
    Par(usize, Box<Blocks>),
}

#[cycle(stmt)]
#[derive(Drop)]
pub enum Block {
    Nil,
    Seq(Box<Stmt>, Box<Block>),
}

// The branches of a par.
#[cycle(stmt)]
#[derive(Drop)]
pub enum Blocks {
    Last,
    Also(Box<Block>, Box<Blocks>),
}

#[derive(Clone, Copy)]
pub struct Param {
    pub reference: bool,
    pub name: Name,
}

#[derive(Drop)]
pub struct Proc {
    pub name: Name,
    pub params: Vec<Param>,
    pub body: Block,
}

#[derive(Drop)]
pub struct Tree {
    pub procs: Vec<Proc>,
    pub main: Block,
}
