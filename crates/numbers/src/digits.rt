// A number's written form, at most 11 bytes.
ghost use Rattle.std.specs.Prelude.{◌≤◌};

pub mod writing;

// Ten digits and a sign.
const LONGEST: usize = 11;

// The bytes from index `from` on. A fixed array with its start: nothing may be allocated where a
// word is written, and an `ArrayVec` is not `Copy`.
#[derive(Clone, Copy)]
pub struct Digits {
    bytes: [u8; LONGEST],
    from: usize,
    ghost within: { from ≤ 11 },
}
