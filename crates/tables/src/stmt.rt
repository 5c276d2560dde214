// A statement of the unfolded program. It names cells, places and points by their numbers.
use crate::expr::Expr;

// A new own cell, and the cell whose word it gets.
#[derive(Clone, Copy)]
pub struct Copied {
    pub to: usize,
    pub from: usize,
}

#[derive(Drop)]
pub enum Stmt {
    // the end of a place
    End,
    // its cell
    Var(u16),
    // the own cell left of `=`, and the expression
    Set(u16, Expr),
    Know,
    // the own cell, and the home
    Next(u16, u16),
    // the copies for by-value parameters, and the procedure's first point
    Call(Vec<Copied>, u16),
    // an if or a while: where a word other than 0 leads, and where 0 does
    Test(Expr, u16, u16),
    // the first point of the try's block
    Try(u16),
    // the port, the own cell, and the first point of the else block
    Take(u32, u16, u16),
    // the branches, and the copies for the variables that they read
    Par(Vec<u16>, Vec<Copied>),
    // on to a point
    Goto(u16),
    // of the nearest open try of its name: its place, its number there, and the first point of its catch block
    Throw(u16, u16, u16),
}
