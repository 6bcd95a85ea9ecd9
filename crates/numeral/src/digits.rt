// The number that digits write.
ghost use Rattle.std.specs.Prelude.{◌≡◌, ℕ, ◌+◌, ◌*◌};
ghost use Rattle.numeral.specs.Numerals.{radix_of, numeral, in_64_bits, answer};

use super::base::Base;
use super::fault::NumeralFault;

// The value with one digit more; none stands for a number that 64 bits do not hold.
fn append(value: Option<u64>, base: Base, digit: u64) -> Option<u64>
    ensures { (n : ℕ) → value ≡ in_64_bits n → result ≡ in_64_bits (n * radix_of base + digit) }
{
    value?
        .checked_mul(u64::from(base.radix()))?
        .checked_add(digit)
}

// The number that bytes write in the base.
#[tactic(auto, using(crate::proofs::Reading::numeral_after_one))]
pub(crate) fn number(base: Base, digits: &[u8]) -> Result<u64, NumeralFault>
    ensures { result ≡ answer (numeral (radix_of base) digits.now) }
{
    if digits.is_empty() {
        return Err(NumeralFault::NotANumber);
    }
    let mut value = Some(0);
    // Goes on after the value has become too large: a later byte may be no digit, and then the text is not a number.
    for &byte in digits {
        let digit = base.digit(byte).ok_or(NumeralFault::NotANumber)?;
        value = append(value, base, digit);
    }
    value.ok_or(NumeralFault::TooLarge)
}
