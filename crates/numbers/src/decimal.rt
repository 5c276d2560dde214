// Eight packed decimal digits of four bits, modulo 100,000,000.
ghost use Rattle.std.specs.Prelude.{◌≡◌, ℕ, ◌+◌, ◌-◌, ◌*◌, ◌^◌, ◌<◌, ◌≤◌};
ghost use Rattle.numbers.specs.Decimal.{packed_decimal, pack, unpack, packed, rebase};
ghost use Rattle.numbers.specs.Packs.{decimal_lawful};

use crate::digits::Digits;
use crate::digits::writing::decimal_digits;
use crate::kind::NumberKind;

// How many numbers there are.
const SIZE: u32 = 100_000_000;

#[derive(Clone, Copy, Debug, Default, PartialEq, Eq)]
pub struct Decimal;

// Whether a word is k decimal digits, with nothing above them.
// A recursion, digit by digit as the definition goes: `(0..k).all(..)` over shifts reads no plainer, and its answer is not seen to be `packed`.
fn all_digits(k: u32, w: u32) -> bool
    ensures { result ≡ packed k w }
{
    if k == 0 {
        w == 0
    } else {
        w % 16 < 10 && all_digits(k - 1, w / 16)
    }
}

// A base, as a type: a division by its constant is cheap, and one by a variable is not.
trait Base {
    ghost RADIX: { ℕ };

    const RADIX: u32;
}

struct Ten;

impl Base for Ten {
    ghost RADIX = { 10 };

    const RADIX: u32 = 10;
}

struct Sixteen;

impl Base for Sixteen {
    ghost RADIX = { 16 };

    const RADIX: u32 = 16;
}

// The number that the k lowest digits of n in one base write in another.
// A recursion as the definition goes: a `fold` over the digits has no bound on its total, so `Target::RADIX *` could overflow there.
fn rebased<Source: Base, Target: Base>(k: u32, n: u32) -> u32
    requires from { 2 ≤ Source.RADIX }
    requires to { 2 ≤ Target.RADIX }
    requires fits { (Source.RADIX - 1) * Target.RADIX ^ k ≤ (Target.RADIX - 1) * 2 ^ 32 }
    ensures { result ≡ rebase Source.RADIX Target.RADIX k n }
{
    if k == 0 {
        0
    } else {
        n % Source::RADIX + Target::RADIX * rebased::<Source, Target>(k - 1, n / Source::RADIX)
    }
}

// The number that a word's digits write.
fn number_of(word: u32) -> u32
    ensures value { result ≡ unpack 8 word }
    ensures small { 3 * result + 5 ≤ 5 * 10 ^ 8 }
{
    rebased::<Sixteen, Ten>(8, word)
}

// The word of a number's eight lowest digits.
fn word_of(n: u32) -> u32
    ensures { result ≡ pack 8 n }
{
    rebased::<Ten, Sixteen>(8, n)
}

impl NumberKind for Decimal {
    ghost meaning = { packed_decimal };

    ghost lawful = { decimal_lawful };

    fn is_number(&self, word: u32) -> bool {
        all_digits(8, word)
    }

    fn sum(&self, x: u32, y: u32) -> u32 {
        word_of((number_of(x) + number_of(y)) % SIZE)
    }

    fn difference(&self, x: u32, y: u32) -> u32 {
        word_of((number_of(x) + (2 * SIZE - number_of(y))) % SIZE)
    }

    fn product(&self, x: u32, y: u32) -> u32 {
        let exact = number_of(x) as u64 * number_of(y) as u64;
        word_of((exact % SIZE as u64) as u32)
    }

    fn less(&self, x: u32, y: u32) -> bool {
        number_of(x) < number_of(y)
    }

    fn literal(&self, n: u64) -> Option<u32> {
        (n < SIZE as u64).then(|| word_of(n as u32))
    }

    fn written(&self, word: u32) -> Digits {
        decimal_digits(number_of(word))
    }
}
