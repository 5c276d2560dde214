// Numbers in decimal.
ghost use Rattle.std.specs.Prelude.{◌≡◌, ◌<◌, ◌≤◌, ◌∷◌, length, Some, None, decimal};
ghost use Rattle.numbers.specs.Texts.{shown};

use crate::digits::{Digits, LONGEST};
use itoa::write_digits;

impl Digits {
    // The written form that is these bytes; none where they are more than 11.
    pub fn from_bytes(text: &[u8]) -> Option<Digits>
        ensures { elim result [ Some d ↦ shown d ≡ text.now | None ↦ 11 < length text.now ] }
    {
        let from = LONGEST.checked_sub(text.len())?;
        let mut bytes = [0; LONGEST];
        bytes[from..].copy_from_slice(text);
        Some(Digits { bytes, from })
    }

    // The written bytes.
    pub fn as_bytes(&self) -> &[u8]
        ensures bytes { result.now ≡ shown self.now }
        ensures short { length result.now ≤ 11 }
    {
        &self.bytes[self.from..]
    }
}

// A number in decimal, without leading zeros: at most ten digits, so that a byte is left for a sign.
pub fn decimal_digits(n: u32) -> Digits
    ensures text { shown result ≡ decimal n }
    ensures room { 1 ≤ result.from }
{
    let mut bytes = [0; LONGEST];
    let from = write_digits(n.into(), &mut bytes, LONGEST);
    Digits { bytes, from }
}

// A minus sign, and then a number in decimal.
pub fn negative_digits(n: u32) -> Digits
    ensures { shown result ≡ 45 ∷ decimal n }
{
    let Digits { mut bytes, from } = decimal_digits(n);
    let from = from - 1;
    bytes[from] = b'-';
    Digits { bytes, from }
}
