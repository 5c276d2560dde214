// The plain record of places and cells. The rules bound both, and a board at power may not be refused, so they are arrays.

// A place is idle, running at a point, parted at its par, finished or poisoned.
#[derive(Clone, Copy, Debug, Default, PartialEq, Eq)]
pub enum Local {
    #[default]
    Idle,
    Running(u16),
    Parted(u16),
    Finished,
    Poisoned,
}

// Where a place stands, its mark, and how many steps it has made.
#[derive(Clone, Copy, Debug, Default, PartialEq, Eq)]
pub struct PlaceState {
    pub at: Local,
    pub mark: Option<u16>,
    pub steps: u32,
}

// The places, the words of the cells, the meets of each home, and the count of all granted moves.
// Its methods take the tables beside it: a board's methods call methods of an inner plain record that change it in place.
// Cells and meets stay two arrays: an expression reads the words alone, and a meet writes many words and one count.
// That no count is above the total is asked by `MayMove`, and is no ghost field: each equation of whole states in the
// contracts of a step's parts would have to carry its proof.
// A bound on a place's, a cell's or a home's number stands in each contract: a type for such numbers would be made
// again from each number that the tables tell, and no call would be shorter.
#[derive(Clone, Copy, Debug, PartialEq, Eq)]
pub struct State {
    pub places: [PlaceState; 64],
    pub cells: [u32; 128],
    pub meets: [u32; 128],
    pub total: u32,
}

pub mod answers;
pub mod closing;
pub mod counting;
pub mod marks;
pub mod meeting;
pub mod permission;
pub mod poisoning;
pub mod power;
pub mod readiness;
pub mod spoiling;
pub mod standing;
pub mod stepping;
pub mod throwing;
