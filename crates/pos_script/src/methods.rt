//! The calls of `call` lines, by their methods.
ghost use Rattle.std.specs.Prelude.{◌||◌, ◌&&◌, ◌==◌, nat_le};
ghost use Rattle.pos_script.specs.Lines.{words_of};
ghost use Rattle.pos_service.specs.declared.call.Call.TheVariants as call;
ghost use Rattle.pos_script.specs.Arguments.{Reads, from_three, from_four};
ghost use Rattle.pos_script.specs.Words.{bytes_shape, number_shape, truth_shape};
ghost use Rattle.pos_script.specs.Methods.{call_among, call_of, methods_of};

use crate::arguments::{ArgumentFault, read_four, read_none, read_one, read_three, read_two};
use pos_service::Call;
use pos_service::words::is;
use std::alloc::Global;

/// Returns the call of a method, by its word and the words after it, whatever its control is. It is looked up among
/// the methods whose words are as long.
///
/// # Errors
///
/// - `WrongShape` if there is no such method, or the words aren't its arguments. That is checked before memory is
///   taken.
/// - `NoMemory` if memory ran out for what the call keeps.
pub(crate) fn read_call(alloc: Global, method: &[u8], words: &[u8]) -> Result<Call, ArgumentFault>
    ensures { Reads (call_of method.now (words_of words.now)) result }
{
    match method.len() {
        0..=5 => read_call_to_five(alloc, method, words),
        6 => read_call_in_six(alloc, method, words),
        7..=9 => read_call_to_nine(alloc, method, words),
        10 => read_call_in_ten(alloc, method, words),
        11 => read_call_in_eleven(alloc, method, words),
        _ => read_call_at_length(alloc, method, words),
    }
}

/// Returns the call of a method whose word has at most 5 bytes.
fn read_call_to_five(alloc: Global, method: &[u8], words: &[u8]) -> Result<Call, ArgumentFault>
    ensures { Reads (call_among (methods_of (λ k. nat_le k 5)) method.now (words_of words.now)) result }
{
    if is(method, "read") {
        return match read_three(alloc, words) {
            Ok((handle, (offset, count))) => Ok(Call::Read(handle, offset, count)),
            Err(fault) => Err(fault),
        };
    }
    if is(method, "write") {
        return match read_three(alloc, words) {
            Ok((handle, (offset, bytes))) => Ok(Call::Write(handle, offset, bytes)),
            Err(fault) => Err(fault),
        };
    }
    if is(method, "find") {
        return read_one(alloc, words).map(Call::Find);
    }
    Err(ArgumentFault::WrongShape)
}

/// Returns the call of a method whose word has 6 bytes.
fn read_call_in_six(alloc: Global, method: &[u8], words: &[u8]) -> Result<Call, ArgumentFault>
    ensures { Reads (call_among (methods_of (λ k. k == 6)) method.now (words_of words.now)) result }
{
    if is(method, "setAll") {
        return read_two(alloc, words).map(|(handle, value)| Call::SetAll(handle, value));
    }
    if is(method, "create") {
        return read_create(alloc, words);
    }
    if is(method, "delete") {
        return read_one(alloc, words).map(Call::Delete);
    }
    if is(method, "rename") {
        return read_two(alloc, words).map(|(handle, name)| Call::Rename(handle, name));
    }
    Err(ArgumentFault::WrongShape)
}

/// Returns the call `create`, by the words after it.
fn read_create(alloc: Global, words: &[u8]) -> Result<Call, ArgumentFault>
    ensures { Reads (from_three bytes_shape number_shape truth_shape call.Create (words_of words.now)) result }
{
    read_three(alloc, words).map(|(name, (size, detection))| Call::Create(name, size, detection))
}

/// Returns the call of a method whose word has 7 to 9 bytes.
fn read_call_to_nine(alloc: Global, method: &[u8], words: &[u8]) -> Result<Call, ArgumentFault>
    ensures { Reads (call_among (methods_of (λ k. nat_le 7 k && nat_le k 9)) method.now (words_of words.now)) result }
{
    if is(method, "clearText") {
        return read_none(words).map(|_| Call::ClearText);
    }
    if is(method, "cutPaper") {
        return read_one(alloc, words).map(Call::CutPaper);
    }
    if is(method, "claimFile") {
        return read_two(alloc, words).map(|(handle, timeout)| Call::ClaimFile(handle, timeout));
    }
    if is(method, "rollback") {
        return read_none(words).map(|_| Call::Rollback);
    }
    Err(ArgumentFault::WrongShape)
}

/// Returns the call of a method whose word has 10 bytes.
fn read_call_in_ten(alloc: Global, method: &[u8], words: &[u8]) -> Result<Call, ArgumentFault>
    ensures { Reads (call_among (methods_of (λ k. k == 10)) method.now (words_of words.now)) result }
{
    if is(method, "openDrawer") {
        return read_none(words).map(|_| Call::OpenDrawer);
    }
    if is(method, "clearInput") {
        return read_none(words).map(|_| Call::ClearInput);
    }
    if is(method, "scrollText") {
        return read_two(alloc, words).map(|(direction, units)| Call::ScrollText(direction, units));
    }
    if is(method, "beginTrans") {
        return read_none(words).map(|_| Call::BeginTrans);
    }
    Err(ArgumentFault::WrongShape)
}

/// Returns the call of a method whose word has 11 bytes.
fn read_call_in_eleven(alloc: Global, method: &[u8], words: &[u8]) -> Result<Call, ArgumentFault>
    ensures { Reads (call_among (methods_of (λ k. k == 11)) method.now (words_of words.now)) result }
{
    if is(method, "printNormal") {
        return read_two(alloc, words).map(|(station, bytes)| Call::PrintNormal(station, bytes));
    }
    if is(method, "displayText") {
        return read_two(alloc, words).map(|(bytes, attribute)| Call::DisplayText(bytes, attribute));
    }
    if is(method, "commitTrans") {
        return read_none(words).map(|_| Call::CommitTrans);
    }
    if is(method, "clearOutput") {
        return read_none(words).map(|_| Call::ClearOutput);
    }
    if is(method, "findByIndex") {
        return read_one(alloc, words).map(Call::FindByIndex);
    }
    if is(method, "releaseFile") {
        return read_one(alloc, words).map(Call::ReleaseFile);
    }
    Err(ArgumentFault::WrongShape)
}

/// Returns the call of a method whose word has 12 bytes or more.
fn read_call_at_length(alloc: Global, method: &[u8], words: &[u8]) -> Result<Call, ArgumentFault>
    ensures { Reads (call_among (methods_of (λ k. nat_le 12 k)) method.now (words_of words.now)) result }
{
    if is(method, "displayTextAt") {
        return read_text_at(alloc, words);
    }
    if is(method, "printImmediate") {
        return read_two(alloc, words).map(|(station, bytes)| Call::PrintImmediate(station, bytes));
    }
    if is(method, "clearInputProperties") {
        return read_none(words).map(|_| Call::ClearInputProperties);
    }
    Err(ArgumentFault::WrongShape)
}

/// Returns the call `displayTextAt`, by the words after it.
fn read_text_at(alloc: Global, words: &[u8]) -> Result<Call, ArgumentFault>
    ensures { Reads (from_four number_shape number_shape bytes_shape number_shape call.DisplayTextAt
        (words_of words.now)) result }
{
    read_four(alloc, words).map(|(row, (column, (bytes, attribute)))| Call::DisplayTextAt(
        row, column, bytes, attribute,
    ))
}
