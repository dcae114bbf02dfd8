//! How bytes and texts are written.
ghost use Rattle.std.specs.Prelude.{◌≤◌, flat_map, length};
ghost use Rattle.hex.specs.Hex.{encode_lower};
ghost use Rattle.pos_script.specs.Writing.{Writes};

use pos_streams::{Sink, WriteFault};

/// Writes all bytes, and stops at the first write that fails.
fn write_rest<W: Sink>(writer: &mut W, bytes: &[u8]) -> Result<(), WriteFault>
    ensures { Writes (W.given writer.old) (W.given writer.new) bytes.now result }
{
    let mut rest = bytes;
    while !rest.is_empty() {
        match writer.write(rest) {
            Ok(count) => rest = &rest[count..],
            Err(fault) => return Err(fault),
        }
    }
    Ok(())
}

/// Writes all bytes. Most often one write takes them all, so that case is inlined and comes first.
///
/// # Errors
///
/// [`WriteFault`] at the first write that fails. Then only a front of the bytes was written.
#[inline(always)]
pub fn write_bytes<W: Sink>(writer: &mut W, bytes: &[u8]) -> Result<(), WriteFault>
    ensures { Writes (W.given writer.old) (W.given writer.new) bytes.now result }
{
    if bytes.is_empty() {
        return Ok(());
    }
    let Ok(count) = writer.write(bytes) else {
        return Err(WriteFault);
    };
    if count == bytes.len() {
        return Ok(());
    }
    write_rest(writer, &bytes[count..])
}

/// Writes texts one after another.
///
/// # Errors
///
/// [`WriteFault`] at the first write that fails. Then only a front of the texts was written.
#[inline(always)]
pub(crate) fn write_parts<W: Sink>(writer: &mut W, parts: &[&str]) -> Result<(), WriteFault>
    ensures { Writes (W.given writer.old) (W.given writer.new) (flat_map (λ part. part.now) parts.now) result }
{
    for part in parts {
        write_bytes(writer, part.as_bytes())?;
    }
    Ok(())
}

/// How many bytes are written as hex at once.
const CHUNK: usize = 32;

/// Writes a few bytes as lower-case hex.
///
/// # Errors
///
/// [`WriteFault`] at the first write that fails. Then only a front of the text was written.
fn write_hex_chunk<W: Sink>(writer: &mut W, bytes: &[u8]) -> Result<(), WriteFault>
    requires few { length bytes.now ≤ 32 }
    ensures { Writes (W.given writer.old) (W.given writer.new) (encode_lower bytes.now) result }
{
    let mut room = [0u8; 2 * CHUNK];
    let digits = &mut room[..2 * bytes.len()];
    hex::encode_to_slice(bytes, &mut *digits).unwrap();
    write_bytes(writer, digits)
}

/// Writes bytes as lower-case hex.
///
/// # Errors
///
/// [`WriteFault`] at the first write that fails. Then only a front of the text was written.
pub(crate) fn write_hex<W: Sink>(writer: &mut W, bytes: &[u8]) -> Result<(), WriteFault>
    ensures { Writes (W.given writer.old) (W.given writer.new) (encode_lower bytes.now) result }
{
    let mut rest = bytes;
    while !rest.is_empty() {
        let (chunk, left) = rest.split_at(rest.len().min(CHUNK));
        write_hex_chunk(writer, chunk)?;
        rest = left;
    }
    Ok(())
}
