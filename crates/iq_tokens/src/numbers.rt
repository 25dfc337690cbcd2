//! Numbers of 64 bits with a sign.
ghost use Rattle.std.specs.Prelude.{◌≡◌, min};
ghost use Rattle.iq_tokens.specs.Tokens as spec;

/// More than any number of 64 bits.
const MANY: u128 = 18_446_744_073_709_551_616;

/// What the digits say in base ten, or `MANY` where they say more.
fn decimal(digits: &[u8]) -> u128
    ensures { result ≡ min (spec.decimal digits.now) MANY }
{
    let mut number: u128 = 0;
    for digit in digits {
        number = (10 * number + u128::from(digit.saturating_sub(b'0'))).min(MANY);
    }
    number
}

/// The number of these digits and this sign, if it has 64 bits.
#[tactic(auto, unfolding(crate::specs::Tokens::signed))]
pub fn signed(negative: bool, digits: &[u8]) -> Option<i64>
    ensures { result ≡ spec.signed negative (spec.decimal digits.now) }
{
    let size = decimal(digits);
    if size < 9_223_372_036_854_775_808 {
        if negative {
            return Some(-(size as i64));
        }
        return Some(size as i64);
    }
    if negative && size == 9_223_372_036_854_775_808 {
        return Some(i64::MIN);
    }
    None
}
