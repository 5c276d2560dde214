// What the runner asks of a number kind. A kind written later owes these clauses and no others.
ghost use Rattle.std.specs.Prelude.{◌≡◌};
ghost use Rattle.numbers.specs.Kinds.{Meaning, Laws};
ghost use Rattle.numbers.specs.Texts.{shown};

use crate::digits::Digits;

pub trait NumberKind {
    // which words are numbers, and each answer
    ghost meaning: { Meaning };

    // Whether a word is a number of the kind.
    fn is_number(&self, word: u32) -> bool
        ensures { result ≡ meaning.number word };

    fn sum(&self, x: u32, y: u32) -> u32
        ensures { result ≡ meaning.sum x y };

    fn difference(&self, x: u32, y: u32) -> u32
        ensures { result ≡ meaning.difference x y };

    fn product(&self, x: u32, y: u32) -> u32
        ensures { result ≡ meaning.product x y };

    fn less(&self, x: u32, y: u32) -> bool
        ensures { result ≡ meaning.less x y };

    // The word of a literal whose digits write n; none where n is outside the kind.
    fn literal(&self, n: u64) -> Option<u32>
        ensures { result ≡ meaning.literal n };

    // A word in decimal, without leading zeros.
    fn written(&self, word: u32) -> Digits
        ensures { shown result ≡ meaning.written word };

    ghost lawful: { Laws meaning };
}
