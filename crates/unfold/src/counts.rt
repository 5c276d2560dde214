// How much of the unfolded text there is so far.
ghost use Rattle.std.specs.Prelude.{◌≤◌};

// Statements, places and cells; a count is only made within the limits.
#[derive(Clone, Copy)]
pub struct Count {
    pub statements: usize,
    pub places: usize,
    pub cells: usize,
    ghost few: { cells ≤ 128 },
}
