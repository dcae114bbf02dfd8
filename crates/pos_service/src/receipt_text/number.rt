//! The numbers and letters of an escape sequence.
ghost use Rattle.std.specs.Prelude.{◌≡◌, ◌*◌, ◌+◌, ◌-◌, length, min, take, ◌≤◌};
ghost use Rattle.std.specs.List.{prefix_len};
ghost use Rattle.pos_service.specs.Receipts.{is_upper, is_inner, is_digit, number_of, number_or};

/// Returns whether a byte is an upper-case letter.
pub fn is_upper_byte(b: u8) -> bool
    ensures { result ≡ is_upper b }
{
    65 <= b && b <= 90
}

/// Returns whether a byte may be inside an escape sequence: 0x20 to 0x7E, but no upper-case letter.
pub fn is_inner_byte(b: u8) -> bool
    ensures { result ≡ is_inner b }
{
    32 <= b && b <= 126 && !is_upper_byte(b)
}

/// Returns whether a byte is a digit.
fn is_digit_byte(b: u8) -> bool
    ensures { result ≡ is_digit b }
{
    48 <= b && b <= 57
}

/// Returns how many inner bytes are at the front.
pub fn count_inner(bytes: &[u8]) -> usize
    ensures count { result ≡ prefix_len is_inner bytes.now }
    ensures within { result ≤ length bytes.now }
{
    bytes.iter().take_while(|b| is_inner_byte(**b)).count()
}

/// Returns how many digits are at the front.
pub fn count_digits(bytes: &[u8]) -> usize
    ensures count { result ≡ prefix_len is_digit bytes.now }
    ensures within { result ≤ length bytes.now }
{
    bytes.iter().take_while(|b| is_digit_byte(**b)).count()
}

/// Returns the number that digits write, or 1000 if it is greater.
fn sum_digits(digits: &[u8]) -> u32
    ensures { result ≡ min (number_of digits.now) 1000 }
{
    let mut number: u32 = 0;
    for digit in digits {
        number = (number * 10 + u32::from(digit.saturating_sub(48))).min(1000);
    }
    number
}

/// Returns the number that digits write, or another if there are none, or 1000 if it is greater.
pub fn number_in(digits: &[u8], none: u32) -> u32
    requires { none ≤ 1000 }
    ensures { result ≡ min (number_or none digits.now) 1000 }
{
    if digits.is_empty() {
        return none;
    }
    sum_digits(digits)
}
