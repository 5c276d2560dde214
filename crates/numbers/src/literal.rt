// Literals: decimal digits, and the word that a kind reads from them.
ghost use Rattle.std.specs.Prelude.{◌≡◌};
ghost use Rattle.numbers.specs.Literals.{digits_value, literal_reading};

use crate::kind::NumberKind;

// The number that one to ten decimal digits write; none where the bytes are no such digits.
pub fn literal_value(digits: &[u8]) -> Option<u64>
    ensures { result ≡ digits_value digits.now }
{
    if digits.is_empty() || digits.len() > 10 {
        return None;
    }
    // Ten digits fit, so nothing wraps; one call of the closure cannot know it.
    digits.iter().try_fold(0u64, |value, byte| {
        byte.is_ascii_digit().then(|| value.wrapping_mul(10).wrapping_add(u64::from(*byte - b'0')))
    })
}

// The word that a kind reads from digits; none where they write no number of the kind.
pub fn read_literal<K: NumberKind>(kind: &K, digits: &[u8]) -> Option<u32>
    ensures { result ≡ literal_reading K.NumberKind.meaning digits.now }
{
    let value = literal_value(digits)?;
    kind.literal(value)
}
