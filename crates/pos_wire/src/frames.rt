//! What stands around an order's bytes for a printer: the start of a connection, and what is asked behind them.
ghost use Rattle.std.specs.Prelude.{◌≡◌, ◌++◌, ℕ, List, [], false, IfOk, OnOk};
ghost use Rattle.std.specs.List.{concat};
ghost use Rattle.pos_escpos.specs.Printers.{OnPaper, Pulse};
ghost use Rattle.pos_wire.specs.Frames.{AllDo, asked_first, asked_last, bytes_before, framed_bytes};

use pos_escpos::{OrderStatus, job_bytes, start_bytes};
use std::alloc::{AllocError, Global};

/// What is asked behind the bytes of an order.
#[derive(Clone, Copy, PartialEq, Eq)]
pub enum JobEnd {
    /// Nothing.
    Nothing,
    /// That the printer acknowledges the end of the job with this number.
    Job(u16),
    /// A status.
    Status(OrderStatus),
}

/// Returns the bytes that come before those of an order.
fn first_bytes(alloc: Global, is_new: bool) -> Result<Vec<u8>, AllocError>
    ensures bytes { IfOk result (λ bytes. bytes.items ≡ bytes_before is_new) }
    ensures does { IfOk result (λ bytes. (width : ℕ) → AllDo is_new width [] [] (asked_first is_new) bytes.items) }
{
    if !is_new {
        return Ok(Vec::new(alloc));
    }
    Vec::from_slice(alloc, &start_bytes(true))
}

/// Returns the bytes that ask for what is asked behind an order.
fn last_bytes(alloc: Global, end: JobEnd) -> Result<Vec<u8>, AllocError>
    ensures bytes { IfOk result (λ bytes. bytes.items ≡ concat (asked_last end)) }
    ensures does { IfOk result (λ bytes. (width : ℕ) → AllDo false width [] [] (asked_last end) bytes.items) }
{
    match end {
        JobEnd::Nothing => Ok(Vec::new(alloc)),
        JobEnd::Job(number) => Vec::from_slice(alloc, &job_bytes(number)),
        JobEnd::Status(status) => Vec::from_slice(alloc, &status.bytes()),
    }
}

/// Returns the bytes of an order with what stands around them.
pub(crate) fn framed(
    alloc: Global,
    is_new: bool,
    sent: &[u8],
    end: JobEnd,
) -> Result<Vec<u8>, AllocError>
    ensures bytes { IfOk result (λ bytes. bytes.items ≡ framed_bytes is_new end sent.now) }
    ensures does { IfOk result (λ bytes. (width : ℕ) (items : List OnPaper) (pulses : List Pulse) →
        AllDo false width items pulses [] sent.now →
        AllDo is_new width items pulses (asked_first is_new ++ asked_last end) bytes.items) }
{
    let mut bytes = first_bytes(alloc, is_new)?;
    let last = last_bytes(alloc, end)?;
    bytes.extend_from_slice(sent)?;
    bytes.extend_from_slice(last.as_slice())?;
    Ok(bytes)
}
