//! Lines that are not carried out yet.
ghost use Rattle.std.specs.Prelude.{◌≡◌, ◌<◌, ◌≤◌, IfOk, OnErr, OnOk, length};
ghost use Rattle.pos_run.specs.WaitingLines.{lines_in};
ghost use Rattle.pos_script.specs.Lines.{lines_of};
ghost use Rattle.kijolvar.specs.HeldLines.{AreHeld, SplitsOff, behind_first};

use std::alloc::{AllocError, Global};
use std::collections::VecDeque;
use std::mem::swap;

/// Returns how many bytes the first line of a text has, with its line feed if there is one.
fn first_line(text: &[u8]) -> usize
    requires { 0 < length text.now }
    ensures within { (0 < result) × (result ≤ length text.now) }
    ensures splits { SplitsOff text.now result }
{
    for place in 0..text.len() {
        if text[place] == b'\n' {
            return place + 1;
        }
    }
    text.len()
}

/// Returns the lines of a text, one by one.
///
/// # Errors
///
/// [`AllocError`] if memory ran out.
pub(crate) fn split_lines(alloc: Global, text: &[u8]) -> Result<VecDeque<Vec<u8>>, AllocError>
    ensures lines { IfOk result (λ lines. lines_in lines.items ≡ lines_of text.now) }
    ensures each { IfOk result (λ lines. AreHeld lines.items) }
{
    let mut lines = VecDeque::new(alloc);
    let mut rest = text;
    while !rest.is_empty() {
        let count = first_line(rest);
        let line = Vec::from_slice(alloc, &rest[..count])?;
        if lines.push_back(line).is_err() {
            return Err(AllocError);
        }
        rest = &rest[count..];
    }
    Ok(lines)
}

/// Puts lines behind the first of those that are held.
///
/// # Errors
///
/// [`AllocError`] if memory ran out. Then nothing changes.
pub(crate) fn insert_behind_first(
    held: &mut VecDeque<Vec<u8>>,
    mut lines: VecDeque<Vec<u8>>,
) -> Result<(), AllocError>
    ensures inserted { OnOk result (held.new.items ≡ behind_first lines.items held.old.items) }
    ensures unchanged { OnErr result (held.new ≡ held.old) }
{
    lines.reserve(held.len())?;
    if let Some(first) = held.pop_front() {
        lines.push_front_reserved(first);
    }
    let _ = lines.append(held);
    swap(held, &mut lines);
    Ok(())
}
