// The rows of the tables.
use crate::stmt::Stmt;

// A point of the unfolded program: the statement there, the point after it, its place, the catch blocks of the tries
// open at it, outermost first, and the offset of the statement in the text.
#[derive(Drop)]
pub struct Point {
    pub stmt: Stmt,
    pub after: u16,
    pub place: u16,
    pub catches: Vec<u16>,
    pub offset: usize,
}

// A place: its parent, the par that it is a branch of, and its first point. Place 0 is the main block.
#[derive(Clone, Copy, Debug, Default, PartialEq, Eq)]
pub struct Place {
    pub parent: u16,
    pub under: u16,
    pub start: u16,
}

// A cell: its home, the place that declared it, and where its recorded name stands in the text.
#[derive(Clone, Copy, Debug, Default, PartialEq, Eq)]
pub struct Cell {
    pub home: u16,
    pub declarer: u16,
    pub at: usize,
    pub len: usize,
}

// A place got a variable of a home at its start.
#[derive(Clone, Copy, Debug, PartialEq, Eq)]
pub struct Got {
    pub place: u16,
    pub home: u16,
}
