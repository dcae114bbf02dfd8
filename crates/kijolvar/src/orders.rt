//! The orders that a till's host gets, as lines.
ghost use Rattle.std.specs.Prelude.{◌≡◌, ◌++◌, IfOk, OnOk, codes};
ghost use Rattle.kijolvar.specs.Orders.{AsksTwin, Keeps, WritesOrder, argument_text, bytes_word, order_lines, number_word, order_text};

use crate::codes::{OK, ORDER, SHORT};
use itoa::Buffer;
use pos_drive::Driven;
use pos_run::Wrapped;
use pos_service::{Argument, NoMemory, Order, Peripheral, Reply};
use std::alloc::{AllocError, Global};
use std::collections::VecDeque;

/// Adds a space and a number.
fn add_number(line: &mut Vec<u8>, number: u32) -> Result<(), AllocError>
    ensures { OnOk result (line.new.items ≡ line.old.items ++ number_word number) }
{
    let mut buffer = Buffer::new();
    line.extend_from_slice(b" ")?;
    line.extend_from_slice(buffer.format(number).as_bytes())
}

/// Adds a space and bytes in hex, or a hyphen for no bytes.
fn add_bytes(alloc: Global, line: &mut Vec<u8>, bytes: &[u8]) -> Result<(), AllocError>
    ensures { OnOk result (line.new.items ≡ line.old.items ++ bytes_word bytes.now) }
{
    if bytes.is_empty() {
        return line.extend_from_slice(b" -");
    }
    let text = hex::encode(alloc, bytes)?;
    line.extend_from_slice(b" ")?;
    line.extend_from_slice(text.as_bytes())
}

/// Adds an argument of an order.
fn add_argument(
    alloc: Global,
    line: &mut Vec<u8>,
    argument: &Argument<'_>,
) -> Result<(), AllocError>
    ensures { OnOk result (line.new.items ≡ line.old.items ++ argument_text argument.now) }
{
    match argument {
        Argument::Number(number) => add_number(line, *number),
        Argument::Bytes(bytes) => add_bytes(alloc, line, bytes.as_slice()),
    }
}

/// Returns a device's name and a word after it.
fn line_with(alloc: Global, device: &[u8], word: &str) -> Result<Vec<u8>, AllocError>
    ensures { IfOk result (λ line. line.items ≡ device.now ++ codes " " ++ word.now) }
{
    let mut line = Vec::from_slice(alloc, device)?;
    line.extend_from_slice(b" ")?;
    line.extend_from_slice(word.as_bytes())?;
    Ok(line)
}

/// Returns the line of an order for the host: the device's name, the order's word, and its arguments (abi/README.md,
/// "Your own devices").
///
/// # Errors
///
/// [`AllocError`] if memory ran out.
pub(crate) fn order_line(alloc: Global, device: &[u8], order: &Order) -> Result<Vec<u8>, AllocError>
    ensures { IfOk result (λ line. line.items ≡ order_text device.now order.now) }
{
    let mut line = line_with(alloc, device, order.word())?;
    let arguments = order.arguments();
    for argument in &arguments {
        if let Some(given) = argument {
            add_argument(alloc, &mut line, given)?;
        }
    }
    Ok(line)
}

/// Asks the simulated peripheral of a device that the host has, and returns its reply. If the order was carried out,
/// its line is kept after those that are kept already.
///
/// # Errors
///
/// [`NoMemory`] if memory ran out. For the line it is taken before the peripheral is asked.
pub(crate) fn ask_keeping(
    alloc: Global,
    lines: &mut VecDeque<Vec<u8>>,
    device: &[u8],
    twin: &mut Driven<Wrapped>,
    order: &Order,
) -> Result<Reply, NoMemory>
    ensures asks { AsksTwin twin.old order.now result twin.new }
    ensures keeps { Keeps (order_text device.now order.now) result (order_lines lines.old.items)
        (order_lines lines.new.items) }
{
    let line = order_line(alloc, device, order)?;
    lines.reserve(1)?;
    let reply = twin.ask(order)?;
    if reply == Reply::Done {
        lines.push_back_reserved(line);
    }
    Ok(reply)
}

/// Removes the oldest line, writes it to `text`, and returns ORDER; or returns OK if no line is left. `needed` says how
/// many bytes the line has, 0 if none is left.
///
/// # Errors
///
/// SHORT if `text` has less room. Then the line stays.
pub(crate) fn write_order(lines: &mut VecDeque<Vec<u8>>, text: &mut [u8], needed: &mut usize) -> u32
    ensures { WritesOrder (order_lines lines.old.items) text.old text.new needed.new result
        (order_lines lines.new.items) }
{
    let Some(line) = lines.front() else {
        *needed = 0;
        return OK;
    };
    let count = line.len();
    *needed = count;
    if count > text.len() {
        return SHORT;
    }
    text[..count].copy_from_slice(line);
    lines.pop_front();
    ORDER
}
