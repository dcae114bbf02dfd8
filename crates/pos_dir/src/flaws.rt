//! Why bytes spell no directory, and where.
ghost use Rattle.std.specs.Prelude.{◌≡◌, ◌≤◌, ℕ, List, length, None, IfOk, IfErr};
ghost use Rattle.pos_dir.specs.declared.file.File.{File};
ghost use Rattle.pos_dir.specs.Calls.{IsBody};
ghost use Rattle.pos_dir.specs.Reading.{file_at};
ghost use Rattle.pos_dir.specs.Flaws.{has_bad_name, HasFlaw, IsFileFlaw, Passes, StopsFor};

use crate::fields::{read_byte, read_part, read_u16};
use crate::file::Limits;
use crate::files::{is_used, read_file};
use crate::flaw::Flaw;
use crate::names::is_name;

/// Returns whether there is a name with its length that isn't a good one.
fn has_bad_name(bytes: &[u8]) -> bool
    ensures { result ≡ has_bad_name bytes.now }
{
    let Some((size, rest)) = read_byte(bytes) else {
        return false;
    };
    let Some((name, _)) = read_part(rest, size as usize) else {
        return false;
    };
    !is_name(name)
}

/// Returns why there is no file at the start of the bytes.
fn file_flaw(bytes: &[u8]) -> Flaw
    ensures { (room : ℕ) (files : List File) → file_at bytes.now ≡ None → IsFileFlaw room files bytes.now result }
{
    if has_bad_name(bytes) {
        return Flaw::BadName;
    }
    Flaw::BytesMissing
}

/// Returns the bytes after so many files, for which there is room and of which no two have one name. Otherwise it
/// returns the bytes after the first of them, and why the next one is refused. It isn't there, has no room, or has a
/// name that one before it has.
fn pass_files(count: u16, text: &[u8], room: usize) -> Result<&[u8], (&[u8], Flaw)>
    ensures passed { IfOk result (λ rest. Passes count text.now room rest.now) }
    ensures stopped { IfErr result (λ e. StopsFor count text.now room e.0.now e.1) }
{
    let mut rest = text;
    let mut left = room;
    for i in 0..count {
        let Some((file, after)) = read_file(rest) else {
            return Err((rest, file_flaw(rest)));
        };
        if file.bytes.len() > left {
            return Err((rest, Flaw::TooManyBytes));
        }
        if is_used(i, text, file.name) {
            return Err((rest, Flaw::NameTwice));
        }
        left -= file.bytes.len();
        rest = after;
    }
    Ok(rest)
}

/// Returns the first rule that bytes break which spell no directory within the limits, and its place.
///
/// The place is counted from the first byte. It is where the bad file begins, or where the bytes begin that are left
/// over. For the number of files it is 0. docs/reference/totals-file.md, "The layouts".
pub fn find_flaw(bytes: &[u8], limits: Limits) -> (usize, Flaw)
    requires { ¬ (IsBody limits bytes.now) }
    ensures flaw { HasFlaw limits bytes.now result.0 result.1 }
    ensures within { result.0 ≤ length bytes.now }
{
    let Some((count, text)) = read_u16(bytes) else {
        return (0, Flaw::BytesMissing);
    };
    if count > limits.files {
        return (0, Flaw::TooManyFiles);
    }
    match pass_files(count, text, limits.bytes as usize) {
        Err((rest, flaw)) => (bytes.len() - rest.len(), flaw),
        Ok(rest) => {
            if rest.is_empty() {
                unreachable!();
            }
            (bytes.len() - rest.len(), Flaw::BytesLeft)
        }
    }
}
