// The moves of a board, and their names.

// A step or a close of a place, a meet of a home, a poisoning of a place for a home.
#[derive(Clone, Copy, Debug, PartialEq, Eq)]
pub enum Move {
    Step(u16),
    Close(u16),
    Meet(u16),
    Poison(u16, u16),
}

// The kind of a move, with its number.
#[derive(Clone, Copy, Debug, PartialEq, Eq)]
pub enum MoveKind {
    Step = 0,
    Close = 1,
    Meet = 2,
    Poison = 3,
}

// A number that no kind has.
#[derive(Clone, Copy, Debug, PartialEq, Eq)]
pub struct UnknownKind(pub u32);

// The name of a move: its kind and two numbers, the second 0 unless the kind is 3.
#[derive(Clone, Copy, Debug, PartialEq, Eq)]
pub struct MoveName {
    pub kind: MoveKind,
    pub first: u16,
    pub second: u16,
}

pub mod naming;
