// A scan of the permitted moves, in order, for the one at an index.
// No chain of iterators with `nth` and `count`: a function cannot hand its chain to both.
use tables::moves::Move;

// The index that is looked for, how many moves were permitted so far, and the move at the index once it was met.
#[derive(Clone, Copy, Debug, PartialEq, Eq)]
pub struct Scan {
    pub want: usize,
    pub count: usize,
    pub found: Option<Move>,
}

pub mod offers;
