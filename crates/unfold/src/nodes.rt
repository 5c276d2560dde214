// The unfolded text: a tree of statements over cells, in which each call is followed by its procedure's block.
use grammar::tree::Name;
use tables::expr::Expr;
use tables::stmt::Copied;

// A cell that a statement brings: its home, and the name recorded there.
#[derive(Clone, Copy)]
pub struct New {
    pub home: usize,
    pub name: Name,
}

// A variable that a branch of a par got; `from` is the parent's own cell that a new own cell copies.
#[derive(Clone, Copy)]
pub struct Got {
    pub name: Name,
    pub own: usize,
    pub home: usize,
    pub from: Option<usize>,
}

// What a statement without blocks does.
#[derive(Drop)]
pub enum Action {
    Var(usize),
    Set(usize, Expr),
    Know,
    Next(usize, usize),
}

// What stands before the blocks of a statement; a call has its copies and its by-reference arguments.
#[derive(Drop)]
pub enum Part {
    Plain,
    Calls(Vec<Copied>, Vec<Name>),
    Tests(Expr),
    Loops(Expr),
    Tries(Name),
    Takes(usize, usize),
}

// Each statement has its offset and the cells that it brings. A list is a chain of boxes and no `Vec`, as in the tree of a
// text, so that definitions match on statements.
#[cycle(node)]
#[derive(Drop)]
pub enum Node {
    One(usize, Vec<New>, Action),
    Throws(usize, Name),
    Two(usize, Vec<New>, Part, Box<Nodes>, Box<Nodes>),
    Par(usize, Vec<New>, Box<Branches>),
}

#[cycle(node)]
#[derive(Drop)]
pub enum Nodes {
    Nil,
    Seq(Box<Node>, Box<Nodes>),
}

// The branches of a par, each with the variables that it got.
#[cycle(node)]
#[derive(Drop)]
pub enum Branches {
    Last,
    Also(Vec<Got>, Box<Nodes>, Box<Branches>),
}
