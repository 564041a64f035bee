//! Numbers, and the bytes that separate the elements of a list. The lists of `cut` and `join`, the strings of `tr` and
//! the numeric options of `ptopts` use these.
ghost use Rattle.std.specs.Prelude.{◌≡◌, ◌<◌, ◌≤◌, All, None, Some, if◌then◌else◌, nat_le};
ghost use Rattle.std.specs.Char.{digit_value};
ghost use Rattle.std.specs.Str.Parse.{digits_value};
ghost use Rattle.ptlangs.specs.Numbers.{is_number, number};
ghost use Rattle.ptlangs.specs.Laws.Numbers.{is_list_separator};

/// Whether the text is a decimal number: one digit or more, and nothing else. Leading zeros are allowed.
pub fn is_decimal(text: &[u8]) -> bool
    ensures { result ≡ is_number text.now }
{
    !text.is_empty() && text.iter().all(|byte| byte.is_ascii_digit())
}

/// The value of a decimal number, or `None` if the text is not a decimal number or its value is above `u64::MAX`.
pub fn decimal(text: &[u8]) -> Option<u64>
    ensures { result ≡ number text.now }
{
    if !is_decimal(text) {
        return None;
    }
    digits_value(text, 10, u64::MAX)
}

/// The value of the digits in this base, or `None` if it is above `limit`.
#[tactic(auto, using(crate::proofs::ListElements::number_steps))]
pub(crate) fn digits_value(digits: &[u8], base: u128, limit: u64) -> Option<u64>
    requires digits { All (λ d. digit_value d < base) digits.now }
    requires base { base ≤ 10 }
    ensures { result
        ≡ (if nat_le (digits_value base digits.now) limit
        then Some (digits_value base digits.now)
        else None) }
{
    let mut value = 0;
    for &digit in digits {
        value = value * base + u128::from(digit - b'0');
        if value > u128::from(limit) {
            return None;
        }
    }
    Some(value as u64)
}

/// Whether the byte separates elements: a comma, a space or a tab.
pub(crate) fn is_list_separator(byte: &u8) -> bool
    ensures { result ≡ is_list_separator byte.now }
{
    matches!(*byte, b',' | b' ' | b'\t')
}
