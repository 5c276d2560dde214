// What the looks at a cell and at a place tell.

// The home of a cell, its word, and the meets of it as a home.
#[derive(Clone, Copy, Debug, PartialEq, Eq)]
pub struct CellLook {
    pub home: usize,
    pub value: u32,
    pub meets: u32,
}

// Which of the five a place is.
#[derive(Clone, Copy, PartialEq, Eq, Debug)]
pub enum Condition {
    Idle,
    Running,
    Parted,
    Finished,
    Poisoned,
}

// What a place is, the home that it waits for, its mark, and how many steps it has made.
#[derive(Clone, Copy, Debug, PartialEq, Eq)]
pub struct PlaceLook {
    pub condition: Condition,
    pub on: Option<u16>,
    pub mark: Option<u16>,
    pub steps: u32,
}
