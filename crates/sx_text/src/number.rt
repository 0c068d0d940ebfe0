// Numbers in decimal.
ghost use Rattle.std.specs.Prelude.{◌≡◌, ◌∷◌, ◌+◌, ◌-◌, ◌*◌, ◌^◌};
ghost use Rattle.std.specs.List.{list_all};
ghost use Rattle.sx_values.specs.Texts.{is_digit};
ghost use Rattle.sx_text.specs.Numbers.{digits_behind, int_of, is_decimal, negative_of, number_of, positive_of, value_within};

/// The number that decimal digits without leading zeros stand for, or None where they stand for none within `u64`.
pub fn number_of(bytes: &[u8]) -> Option<u64>
    ensures { result ≡ number_of bytes.now }
{
    if is_decimal(bytes) {
        value_of(bytes)
    } else {
        None
    }
}

// The number within `u64` that digits stand for.
fn value_of(digits: &[u8]) -> Option<u64>
    ensures { result ≡ value_within (2 ^ 64) (digits_behind 0 digits.now) }
{
    let mut number: u64 = 0;
    for digit in digits {
        match with_digit(number, *digit) {
            Some(larger) => number = larger,
            None => return None,
        }
    }
    Some(number)
}

fn with_digit(number: u64, digit: u8) -> Option<u64>
    ensures { result ≡ value_within (2 ^ 64) (10 * number + (digit - 48)) }
{
    let tens = number.checked_mul(10)?;
    tens.checked_add(u64::from(digit.saturating_sub(b'0')))
}

/// The number that decimal digits, with `-` in front where it is below 0, stand for within `i64`, or None.
pub fn int_of(bytes: &[u8]) -> Option<i64>
    ensures { result ≡ int_of bytes.now }
{
    match bytes {
        [b'-', digits @ ..] => negative_of(number_of(digits)?),
        _ => positive_of(number_of(bytes)?),
    }
}

fn positive_of(size: u64) -> Option<i64>
    ensures { result ≡ positive_of size }
{
    if size < 0x8000_0000_0000_0000 {
        Some(size as i64)
    } else {
        None
    }
}

fn negative_of(size: u64) -> Option<i64>
    ensures { result ≡ negative_of size }
{
    if size == 0 || size > 0x8000_0000_0000_0000 {
        return None;
    }
    Some(-((size - 1) as i64) - 1)
}

// Whether bytes are one digit or more, the first 0 only where it is alone.
fn is_decimal(bytes: &[u8]) -> bool
    ensures { result ≡ is_decimal bytes.now }
{
    match bytes {
        [] => false,
        [b] => is_digit(*b),
        [first, ..] => *first != b'0' && are_digits(bytes),
    }
}

fn are_digits(bytes: &[u8]) -> bool
    ensures { result ≡ list_all is_digit bytes.now }
{
    bytes.iter().all(|b| is_digit(*b))
}

fn is_digit(b: u8) -> bool
    ensures { result ≡ is_digit b }
{
    b'0' <= b && b <= b'9'
}
