//! Numbers in plain digits.

ghost use Rattle.std.specs.Prelude.{ℕ, IfNone, IfSome};
ghost use Rattle.program_edge.specs.Numerals.{IsPlainNumber};

use decimals::read_decimal;

/// The number of at most 32 bits that a text is, in digits alone, with no zero in front of other
/// digits. None where it is none.
pub(crate) fn plain_number(text: &str) -> Option<u32>
    ensures number { IfSome result (IsPlainNumber text.now) }
    ensures none { IfNone result ((number : ℕ) → IsPlainNumber text.now number → ⊥) }
{
    let number = read_decimal(text.as_bytes())?;
    match u32::try_from(number) {
        Ok(number) => Some(number),
        Err(_) => None,
    }
}
