//! What words stand for.
ghost use Rattle.std.specs.Prelude.{◌≡◌, ◌<◌, ◌^◌, true, is_some, Some, IfSome, IfOk};
ghost use Rattle.std.specs.List.{list_all};
ghost use Rattle.hex.specs.Hex.{is_hex_digit};
ghost use Rattle.pos_script.specs.Words.{number_of_digits, is_digit, is_digits, digits_named, number_named, count_named, truth_named, bytes_named};
ghost use Rattle.pos_script.specs.Words.{value_named, error_reply_named};

use pos_service::words::is;
use pos_service::{Bytes, ErrorReply, NoMemory, Value};
use std::alloc::Global;

/// Returns whether a byte is a digit.
fn is_digit_byte(b: u8) -> bool
    ensures { result ≡ is_digit b }
{
    48 <= b && b <= 57
}

/// Returns whether each byte of a word is a digit.
fn all_digits(word: &[u8]) -> bool
    ensures { result ≡ list_all is_digit word.now }
{
    word.iter().all(|b| is_digit_byte(*b))
}

/// Returns the number that some digits write.
fn sum_digits(digits: &[u8]) -> u64
    requires { is_digits digits.now ≡ true }
    ensures value { result ≡ number_of_digits digits.now }
    ensures bound { result < 10 ^ 18 }
{
    let mut number = 0;
    for digit in digits {
        number = number * 10 + (*digit - 48) as u64;
    }
    number
}

/// Returns the number of 1 to 18 digits.
fn digits(word: &[u8]) -> Option<u64>
    ensures value { result ≡ digits_named word.now }
    ensures bound { IfSome result (λ number. number < 10 ^ 18) }
{
    if word.len() <= 18 && !word.is_empty() && all_digits(word) {
        return Some(sum_digits(word));
    }
    None
}

/// Returns the number of a word, 1 to 18 digits with or without a minus before them, or `None` if it is no such word.
pub(crate) fn number(word: &[u8]) -> Option<i128>
    ensures { result ≡ number_named word.now }
{
    match word {
        [b'-', rest @ ..] => match digits(rest) {
            Some(number) => Some(-(number as i128)),
            None => None,
        },
        _ => match digits(word) {
            Some(number) => Some(number as i128),
            None => None,
        },
    }
}

/// Returns the number of a word, or `None` if it is negative or none. One past 32 bits is read as the greatest of
/// these.
pub(crate) fn count(word: &[u8]) -> Option<u32>
    ensures { result ≡ count_named word.now }
{
    let number = number(word)?;
    if number < 0 {
        return None;
    }
    if number > i128::from(u32::MAX) {
        return Some(u32::MAX);
    }
    Some(number as u32)
}

/// Returns the truth value of a word, `true` or `false`, or `None` if it is neither.
pub(crate) fn truth(word: &[u8]) -> Option<bool>
    ensures { result ≡ truth_named word.now }
{
    if is(word, "true") {
        return Some(true);
    }
    if is(word, "false") {
        return Some(false);
    }
    None
}

/// Returns whether each byte of a word is a hex digit, of either case.
fn all_hex_digits(word: &[u8]) -> bool
    ensures { result ≡ list_all is_hex_digit word.now }
{
    word.iter().all(|b| b.is_ascii_hexdigit())
}

/// Returns whether a word writes bytes: a hyphen for none, or two hex digits of either case for each.
pub(crate) fn is_hex_word(word: &[u8]) -> bool
    ensures { result ≡ is_some (bytes_named word.now) }
{
    is(word, "-") || (word.len() % 2 == 0 && all_hex_digits(word))
}

/// Returns the bytes that a word writes.
///
/// # Errors
///
/// [`NoMemory`] if memory ran out.
pub(crate) fn decode(alloc: Global, word: &[u8]) -> Result<Bytes, NoMemory>
    requires { is_some (bytes_named word.now) ≡ true }
    ensures { IfOk result (λ bytes. bytes_named word.now ≡ Some bytes) }
{
    if is(word, "-") {
        return Ok(Bytes::from_vec(Vec::new(alloc)));
    }
    match hex::decode(alloc, word) {
        Ok(bytes) => Ok(Bytes::from_vec(bytes)),
        Err(_) => Err(NoMemory),
    }
}

/// Returns the reply to an ErrorEvent of this name, or `None` if there is none (common chapter, ErrorResponse).
pub(crate) fn error_reply(word: &[u8]) -> Option<ErrorReply>
    ensures { result ≡ error_reply_named word.now }
{
    if is(word, "retry") {
        return Some(ErrorReply::Retry);
    }
    if is(word, "clear") {
        return Some(ErrorReply::Clear);
    }
    if is(word, "continue") {
        return Some(ErrorReply::ContinueInput);
    }
    None
}

/// Returns the value of a word, `true`, `false` or a number, or `None` if it is none of them.
pub(crate) fn value(word: &[u8]) -> Option<Value>
    ensures { result ≡ value_named word.now }
{
    if is(word, "true") {
        return Some(Value::Truth(true));
    }
    if is(word, "false") {
        return Some(Value::Truth(false));
    }
    match number(word) {
        Some(number) => Some(Value::Number(number)),
        None => None,
    }
}
