// Two's complement: every word is a number, and sums wrap.
ghost use Rattle.std.specs.Prelude.{◌≡◌};
ghost use Rattle.numbers.specs.Binary.{binary};
ghost use Rattle.numbers.specs.Signs.{binary_lawful};

use crate::digits::Digits;
use crate::digits::writing::{decimal_digits, negative_digits};
use crate::kind::NumberKind;

#[derive(Clone, Copy, Debug, Default, PartialEq, Eq)]
pub struct Binary;

impl NumberKind for Binary {
    ghost meaning = { binary };

    ghost lawful = { binary_lawful };

    fn is_number(&self, _word: u32) -> bool {
        true
    }

    fn sum(&self, x: u32, y: u32) -> u32 {
        x.wrapping_add(y)
    }

    fn difference(&self, x: u32, y: u32) -> u32 {
        x.wrapping_sub(y)
    }

    fn product(&self, x: u32, y: u32) -> u32 {
        x.wrapping_mul(y)
    }

    fn less(&self, x: u32, y: u32) -> bool {
        x.cast_signed() < y.cast_signed()
    }

    fn literal(&self, n: u64) -> Option<u32> {
        (n < 0x8000_0000).then(|| n as u32)
    }

    fn written(&self, word: u32) -> Digits {
        let number = word.cast_signed();
        if number < 0 {
            negative_digits(number.unsigned_abs())
        } else {
            decimal_digits(word)
        }
    }
}
