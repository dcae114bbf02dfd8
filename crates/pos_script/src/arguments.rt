//! The words of a line that are arguments.
ghost use Rattle.std.specs.Prelude.{◌≤◌, length};
ghost use Rattle.pos_script.specs.Lines.{words_of};
ghost use Rattle.pos_script.specs.Arguments.{Shape, Reads, Glances, word_as, none, one, two, three, four};
ghost use Rattle.pos_script.specs.Words.{decoded, number_shape, count_shape, truth_shape, bytes_shape, device_shape, category_shape, property_shape, value_shape, error_reply_shape};

use crate::lines::next_word;
use crate::words::{count, decode, error_reply, is_hex_word, number, truth, value};
use pos_service::words::is;
use pos_service::{Bytes, Category, ErrorReply, Property, Value, is_device_name};
use std::alloc::Global;
use thiserror::Error;

/// Why a line was not read.
#[derive(Clone, Copy, Debug, PartialEq, Eq, Error)]
pub enum ArgumentFault {
    /// Its shape is wrong: too few or too many words, or a word that isn't what it must be.
    #[error("the line has a wrong shape")]
    WrongShape,
    /// Its shape is right, and memory ran out for what is kept of it.
    #[error("no memory for the line")]
    NoMemory,
}

/// What a word of a line may stand for (docs/reference/console.md, "Words").
pub(crate) trait Argument: Sized + Drop {
    ghost shape: { Shape Self };

    /// Returns what a word stands for, or `None` if that is kept in memory. It takes no memory.
    ///
    /// # Errors
    ///
    /// `WrongShape` if the word isn't of this shape.
    fn glance(word: &[u8]) -> Result<Option<Self>, ArgumentFault>
        ensures { Glances (word_as shape word.now) result };

    /// Returns what a word stands for.
    ///
    /// # Errors
    ///
    /// - `WrongShape` if the word isn't of this shape. That is checked before memory is taken.
    /// - `NoMemory` if memory ran out.
    fn read(alloc: Global, word: &[u8]) -> Result<Self, ArgumentFault>
        ensures { Reads (word_as shape word.now) result };
}

impl Argument for i128 {
    ghost shape = { number_shape };

    fn glance(word: &[u8]) -> Result<Option<Self>, ArgumentFault> {
        match number(word) {
            Some(read) => Ok(Some(read)),
            None => Err(ArgumentFault::WrongShape),
        }
    }

    fn read(_: Global, word: &[u8]) -> Result<Self, ArgumentFault> {
        number(word).ok_or(ArgumentFault::WrongShape)
    }
}

impl Argument for u32 {
    ghost shape = { count_shape };

    fn glance(word: &[u8]) -> Result<Option<Self>, ArgumentFault> {
        match count(word) {
            Some(read) => Ok(Some(read)),
            None => Err(ArgumentFault::WrongShape),
        }
    }

    fn read(_: Global, word: &[u8]) -> Result<Self, ArgumentFault> {
        count(word).ok_or(ArgumentFault::WrongShape)
    }
}

impl Argument for bool {
    ghost shape = { truth_shape };

    fn glance(word: &[u8]) -> Result<Option<Self>, ArgumentFault> {
        match truth(word) {
            Some(read) => Ok(Some(read)),
            None => Err(ArgumentFault::WrongShape),
        }
    }

    fn read(_: Global, word: &[u8]) -> Result<Self, ArgumentFault> {
        truth(word).ok_or(ArgumentFault::WrongShape)
    }
}

impl Argument for Value {
    ghost shape = { value_shape };

    fn glance(word: &[u8]) -> Result<Option<Self>, ArgumentFault> {
        match value(word) {
            Some(read) => Ok(Some(read)),
            None => Err(ArgumentFault::WrongShape),
        }
    }

    fn read(_: Global, word: &[u8]) -> Result<Self, ArgumentFault> {
        value(word).ok_or(ArgumentFault::WrongShape)
    }
}

impl Argument for Category {
    ghost shape = { category_shape };

    fn glance(word: &[u8]) -> Result<Option<Self>, ArgumentFault> {
        match Category::named(word) {
            Some(read) => Ok(Some(read)),
            None => Err(ArgumentFault::WrongShape),
        }
    }

    fn read(_: Global, word: &[u8]) -> Result<Self, ArgumentFault> {
        Category::named(word).ok_or(ArgumentFault::WrongShape)
    }
}

impl Argument for Property {
    ghost shape = { property_shape };

    fn glance(word: &[u8]) -> Result<Option<Self>, ArgumentFault> {
        match Property::named(word) {
            Some(read) => Ok(Some(read)),
            None => Err(ArgumentFault::WrongShape),
        }
    }

    fn read(_: Global, word: &[u8]) -> Result<Self, ArgumentFault> {
        Property::named(word).ok_or(ArgumentFault::WrongShape)
    }
}

impl Argument for ErrorReply {
    ghost shape = { error_reply_shape };

    fn glance(word: &[u8]) -> Result<Option<Self>, ArgumentFault> {
        match error_reply(word) {
            Some(read) => Ok(Some(read)),
            None => Err(ArgumentFault::WrongShape),
        }
    }

    fn read(_: Global, word: &[u8]) -> Result<Self, ArgumentFault> {
        error_reply(word).ok_or(ArgumentFault::WrongShape)
    }
}

/// The most bytes that are decoded before memory is taken for them.
const FEW: usize = 32;

/// Reads the bytes that hex digits write, two for each. They are few, so all are read before memory is taken.
///
/// # Errors
///
/// - `WrongShape` if there is an odd digit, or a byte that is no digit.
/// - `NoMemory` if memory ran out.
#[tactic(auto, using(crate::proofs::HexLemmas::decodes_half))]
fn read_few(alloc: Global, digits: &[u8]) -> Result<Bytes, ArgumentFault>
    requires few { length digits.now ≤ 64 }
    ensures { Reads (decoded digits.now) result }
{
    let mut room = [0u8; FEW];
    let bytes = &mut room[..digits.len() / 2];
    let Ok(()) = hex::decode_to_slice(digits, &mut *bytes) else {
        return Err(ArgumentFault::WrongShape);
    };
    match Bytes::from_slice(alloc, bytes) {
        Ok(bytes) => Ok(bytes),
        Err(_) => Err(ArgumentFault::NoMemory),
    }
}

impl Argument for Bytes {
    ghost shape = { bytes_shape };

    fn glance(word: &[u8]) -> Result<Option<Self>, ArgumentFault> {
        if !is_hex_word(word) {
            return Err(ArgumentFault::WrongShape);
        }
        Ok(None)
    }

    fn read(alloc: Global, word: &[u8]) -> Result<Self, ArgumentFault> {
        if is(word, "-") {
            return Ok(Bytes::from_vec(Vec::new(alloc)));
        }
        if word.len() <= 2 * FEW {
            return read_few(alloc, word);
        }
        if !is_hex_word(word) {
            return Err(ArgumentFault::WrongShape);
        }
        match decode(alloc, word) {
            Ok(bytes) => Ok(bytes),
            Err(_) => Err(ArgumentFault::NoMemory),
        }
    }
}

/// The name of a device, which a call keeps.
#[derive(Drop)]
pub(crate) struct DeviceName {
    /// Its bytes: 1 to 16 ASCII letters, digits or hyphens.
    pub name: Bytes,
}

impl Argument for DeviceName {
    ghost shape = { device_shape };

    fn glance(word: &[u8]) -> Result<Option<Self>, ArgumentFault> {
        if !is_device_name(word) {
            return Err(ArgumentFault::WrongShape);
        }
        Ok(None)
    }

    fn read(alloc: Global, word: &[u8]) -> Result<Self, ArgumentFault> {
        if !is_device_name(word) {
            return Err(ArgumentFault::WrongShape);
        }
        match Bytes::from_slice(alloc, word) {
            Ok(name) => Ok(DeviceName { name }),
            Err(_) => Err(ArgumentFault::NoMemory),
        }
    }
}

/// Checks that no argument is left of the line, but only spaces.
///
/// # Errors
///
/// `WrongShape` if a word is left.
pub fn read_none(words: &[u8]) -> Result<(), ArgumentFault>
    ensures { Reads (none (words_of words.now)) result }
{
    if next_word(words).is_some() {
        return Err(ArgumentFault::WrongShape);
    }
    Ok(())
}

/// Reads one argument, the last of the line, and returns it.
///
/// # Errors
///
/// `WrongShape` if the word is missing or not of its shape, or another follows; `NoMemory` if memory ran out.
pub(crate) fn read_one<A: Argument>(alloc: Global, words: &[u8]) -> Result<A, ArgumentFault>
    ensures { Reads (one A.shape (words_of words.now)) result }
{
    let Some((word, rest)) = next_word(words) else {
        return Err(ArgumentFault::WrongShape);
    };
    if next_word(rest).is_some() {
        return Err(ArgumentFault::WrongShape);
    }
    A::read(alloc, word)
}

/// Reads two arguments, the last of the line, and returns them.
///
/// # Errors
///
/// - `WrongShape` if a word is missing or not of its shape, or another follows. All shapes are checked before memory is
///   taken.
/// - `NoMemory` if memory ran out.
pub(crate) fn read_two<A: Argument, B: Argument>(
    alloc: Global,
    words: &[u8],
) -> Result<(A, B), ArgumentFault>
    ensures { Reads (two A.shape B.shape (words_of words.now)) result }
{
    let Some((word, rest)) = next_word(words) else {
        return Err(ArgumentFault::WrongShape);
    };
    let Ok(glanced) = A::glance(word) else {
        return Err(ArgumentFault::WrongShape);
    };
    let second = match read_one(alloc, rest) {
        Ok(second) => second,
        Err(fault) => return Err(fault),
    };
    if let Some(first) = glanced {
        return Ok((first, second));
    }
    match A::read(alloc, word) {
        Ok(first) => Ok((first, second)),
        Err(fault) => Err(fault),
    }
}

/// Reads three arguments, the last of the line, and returns them.
///
/// # Errors
///
/// - `WrongShape` if a word is missing or not of its shape, or another follows. All shapes are checked before memory is
///   taken.
/// - `NoMemory` if memory ran out.
pub(crate) fn read_three<A: Argument, B: Argument, C: Argument>(
    alloc: Global,
    words: &[u8],
) -> Result<(A, (B, C)), ArgumentFault>
    ensures { Reads (three A.shape B.shape C.shape (words_of words.now)) result }
{
    let Some((word, rest)) = next_word(words) else {
        return Err(ArgumentFault::WrongShape);
    };
    let Ok(glanced) = A::glance(word) else {
        return Err(ArgumentFault::WrongShape);
    };
    let others = match read_two(alloc, rest) {
        Ok(others) => others,
        Err(fault) => return Err(fault),
    };
    if let Some(first) = glanced {
        return Ok((first, others));
    }
    match A::read(alloc, word) {
        Ok(first) => Ok((first, others)),
        Err(fault) => Err(fault),
    }
}

/// Reads four arguments, the last of the line, and returns them.
///
/// # Errors
///
/// - `WrongShape` if a word is missing or not of its shape, or another follows. All shapes are checked before memory is
///   taken.
/// - `NoMemory` if memory ran out.
pub(crate) fn read_four<A: Argument, B: Argument, C: Argument, D: Argument>(
    alloc: Global,
    words: &[u8],
) -> Result<(A, (B, (C, D))), ArgumentFault>
    ensures { Reads (four A.shape B.shape C.shape D.shape (words_of words.now)) result }
{
    let Some((word, rest)) = next_word(words) else {
        return Err(ArgumentFault::WrongShape);
    };
    let Ok(glanced) = A::glance(word) else {
        return Err(ArgumentFault::WrongShape);
    };
    let others = match read_three(alloc, rest) {
        Ok(others) => others,
        Err(fault) => return Err(fault),
    };
    if let Some(first) = glanced {
        return Ok((first, others));
    }
    match A::read(alloc, word) {
        Ok(first) => Ok((first, others)),
        Err(fault) => Err(fault),
    }
}
