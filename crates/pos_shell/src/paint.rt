//! What is painted of what people read.
ghost use Rattle.std.specs.Prelude.{◌≡◌, ◌++◌, IfOk, OnOk};
ghost use Rattle.pos_shell.specs.Paint.{colour_of, painted, painted_line};

use crate::differences::put_parts;
use pos_script::cut;
use std::alloc::{AllocError, Global};

// What begins green, what begins red, and what ends either.
const GREEN: &[u8] = b"\x1b[32m";

const RED: &[u8] = b"\x1b[31m";

const PLAIN: &[u8] = b"\x1b[0m";

// The colour of a line, by how it begins.
fn colour_of(line: &[u8]) -> &'static [u8]
    ensures { result.now ≡ colour_of line.now }
{
    if line.starts_with(b"ok ") || line.starts_with(b"  wanted: ") {
        return GREEN;
    }
    if line.starts_with(b"failed ") || line.starts_with(b"  found:  ") {
        return RED;
    }
    b""
}

// Puts a line in its colour at the end of a text.
fn put_line(text: &mut Vec<u8>, line: &[u8]) -> Result<(), AllocError>
    ensures { OnOk result (text.new.items ≡ text.old.items ++ painted_line line.now) }
{
    let colour = colour_of(line);
    if colour.is_empty() {
        return text.extend_from_slice(line);
    }
    put_parts(text, colour, line, PLAIN)
}

/// Returns a text with its lines in their colours.
///
/// # Errors
///
/// [`AllocError`] if memory ran out.
pub fn painted(alloc: Global, text: &[u8]) -> Result<Vec<u8>, AllocError>
    ensures { IfOk result (λ all. all.items ≡ painted text.now) }
{
    let mut all = Vec::new(alloc);
    let mut left = text;
    let mut before: &[u8] = b"";
    loop {
        let (line, rest) = cut(left, b'\n');
        all.extend_from_slice(before)?;
        put_line(&mut all, line)?;
        let Some(rest) = rest else {
            return Ok(all);
        };
        left = rest;
        before = b"\n";
    }
}
