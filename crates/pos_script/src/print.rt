//! The replies to lines, as text.
ghost use Rattle.std.specs.Prelude.{◌≡◌, ◌<◌, ◌++◌, ◌∷◌, [], codes, decimal};
ghost use Rattle.std.specs.Fmt.{signed_decimal};
ghost use Rattle.pos_script.specs.Writing.{Writes};
ghost use Rattle.pos_script.specs.Glyphs.{cells_text};
ghost use Rattle.pos_script.specs.ReceiptText.{printer_text};
ghost use Rattle.pos_script.specs.Text.{answer_text, attach_text, delivered_text, detach_text, event_text, fault_text, hex_text, plant_text, reply_text, response_text, worked_text};

use crate::arguments::ArgumentFault;
use crate::glyphs::write_glyphs;
use crate::receipt::write_receipt;
use crate::write::{write_bytes, write_hex, write_parts};
use itoa::Buffer;
use pos_service::display_text::DisplayCell;
use pos_service::{
    Answer, AttachFault, Code, DetachFault, Event, Locus, Mechanism, Receipt, Response, Snapshot,
    Value, WorkResult,
};
use pos_streams::{Sink, WriteFault};

/// Writes `ok` and bytes.
#[inline(never)]
fn print_bytes<W: Sink>(writer: &mut W, bytes: &[u8]) -> Result<(), WriteFault>
    ensures { Writes (W.given writer.old) (W.given writer.new)
        (codes "ok " ++ hex_text bytes.now ++ 10 ∷ []) result }
{
    if bytes.is_empty() {
        return write_parts(writer, &["ok -\n"]);
    }
    write_parts(writer, &["ok "])?;
    write_hex(writer, bytes)?;
    write_parts(writer, &["\n"])
}

/// Writes `ok` and a number of one digit, in one write.
#[inline(always)]
fn print_digit<W: Sink>(writer: &mut W, number: u8) -> Result<(), WriteFault>
    requires { number < 10 }
    ensures { Writes (W.given writer.old) (W.given writer.new) (codes "ok " ++ (decimal number ++ 10 ∷ [])) result }
{
    write_bytes(writer, &[b'o', b'k', b' ', b'0' + number, b'\n'])
}

/// Writes `ok` and two numbers.
#[inline(never)]
fn print_pair<W: Sink>(writer: &mut W, first: i128, second: i128) -> Result<(), WriteFault>
    ensures { Writes (W.given writer.old) (W.given writer.new)
        (codes "ok " ++ (signed_decimal first ++ (codes " " ++ (signed_decimal second ++ 10 ∷ [])))) result }
{
    let mut first_buffer = Buffer::new();
    let mut second_buffer = Buffer::new();
    let first = first_buffer.format(first);
    let second = second_buffer.format(second);
    write_parts(writer, &["ok ", first, " ", second, "\n"])
}

/// Writes `ok` and a number.
#[inline(never)]
fn print_number<W: Sink>(writer: &mut W, number: i128) -> Result<(), WriteFault>
    ensures { Writes (W.given writer.old) (W.given writer.new)
        (codes "ok " ++ (signed_decimal number ++ 10 ∷ [])) result }
{
    let mut buffer = Buffer::new();
    write_parts(writer, &["ok ", buffer.format(number), "\n"])
}

/// Writes `ok` and a value.
#[inline(always)]
fn print_value<W: Sink>(writer: &mut W, value: &Value) -> Result<(), WriteFault>
    ensures { Writes (W.given writer.old) (W.given writer.new)
        (answer_text (Answer.Done value.now) ++ 10 ∷ []) result }
{
    match value {
        Value::Empty => write_parts(writer, &["ok\n"]),
        Value::Truth(true) => write_parts(writer, &["ok true\n"]),
        Value::Truth(false) => write_parts(writer, &["ok false\n"]),
        Value::Number(number) if 0 <= *number && *number < 10 => {
            print_digit(writer, *number as u8)
        }
        Value::Number(number) => print_number(writer, *number),
        Value::Pair(first, second) => print_pair(writer, *first, *second),
        Value::Bytes(bytes) => print_bytes(writer, bytes.as_slice()),
    }
}

/// Writes `err` and a result code, and the extended code after E_EXTENDED.
#[inline(never)]
fn print_refusal<W: Sink>(writer: &mut W, code: Code, extended: u32) -> Result<(), WriteFault>
    ensures { Writes (W.given writer.old) (W.given writer.new)
        (answer_text (Answer.Refused code extended) ++ 10 ∷ []) result }
{
    let mut buffer = Buffer::new();
    let number = buffer.format(code.number());
    match code {
        Code::Extended => {
            let mut extended_buffer = Buffer::new();
            let extended = extended_buffer.format(extended);
            write_parts(writer, &["err ", number, " ", extended, "\n"])
        }
        _ => write_parts(writer, &["err ", number, "\n"]),
    }
}

/// Writes what a call is answered, as a line of its own. It takes no memory.
///
/// # Errors
///
/// [`WriteFault`] if a write failed. Then a front of the text was written, and not all of it.
#[inline(always)]
pub fn print_answer<W: Sink>(writer: &mut W, answer: &Answer) -> Result<(), WriteFault>
    ensures { Writes (W.given writer.old) (W.given writer.new) (answer_text answer.now ++ 10 ∷ []) result }
{
    match answer {
        Answer::Done(value) => print_value(writer, value),
        Answer::Refused(code, extended) => print_refusal(writer, *code, *extended),
    }
}

/// Writes an ErrorEvent.
fn print_error<W: Sink>(
    writer: &mut W,
    code: Code,
    extended: u32,
    locus: Locus,
) -> Result<(), WriteFault>
    ensures { Writes (W.given writer.old) (W.given writer.new)
        (event_text (Event.Error code extended locus) ++ 10 ∷ []) result }
{
    let mut code_buffer = Buffer::new();
    let mut extended_buffer = Buffer::new();
    let mut locus_buffer = Buffer::new();
    let code = code_buffer.format(code.number());
    let extended = extended_buffer.format(extended);
    let locus = locus_buffer.format(locus.number());
    write_parts(
        writer,
        &["event ErrorEvent ", code, " ", extended, " ", locus, "\n"],
    )
}

/// Writes a StatusUpdateEvent with a status of one digit, in one write.
#[inline(always)]
fn print_status<W: Sink>(writer: &mut W, status: u8) -> Result<(), WriteFault>
    requires { status < 10 }
    ensures { Writes (W.given writer.old) (W.given writer.new)
        (codes "event StatusUpdateEvent " ++ (decimal status ++ 10 ∷ [])) result }
{
    let mut line = *b"event StatusUpdateEvent 0\n";
    line[24] += status;
    write_bytes(writer, &line)
}

/// Writes an event that is delivered. A status of one digit is written in place.
#[inline(always)]
fn print_event<W: Sink>(writer: &mut W, event: Event) -> Result<(), WriteFault>
    ensures { Writes (W.given writer.old) (W.given writer.new) (event_text event ++ 10 ∷ []) result }
{
    match event {
        Event::StatusUpdate(number) if number < 10 => { print_status(writer, number as u8) }
        _ => print_any_event(writer, event),
    }
}

/// Writes an event that is delivered.
#[inline(never)]
fn print_any_event<W: Sink>(writer: &mut W, event: Event) -> Result<(), WriteFault>
    ensures { Writes (W.given writer.old) (W.given writer.new) (event_text event ++ 10 ∷ []) result }
{
    match event {
        Event::StatusUpdate(number) => {
            let mut buffer = Buffer::new();
            write_parts(
                writer,
                &["event StatusUpdateEvent ", buffer.format(number), "\n"],
            )
        }
        Event::Data => write_parts(writer, &["event DataEvent 0\n"]),
        Event::Error(code, extended, locus) => print_error(writer, code, extended, locus),
        Event::OutputComplete(id) => {
            let mut buffer = Buffer::new();
            write_parts(
                writer,
                &["event OutputCompleteEvent ", buffer.format(id), "\n"],
            )
        }
    }
}

/// Writes the event that was delivered, or that there was none.
#[inline(always)]
fn print_delivered<W: Sink>(writer: &mut W, event: Option<Event>) -> Result<(), WriteFault>
    ensures { Writes (W.given writer.old) (W.given writer.new) (delivered_text event ++ 10 ∷ []) result }
{
    match event {
        Some(event) => print_event(writer, event),
        None => write_parts(writer, &["none\n"]),
    }
}

/// Writes `ok` and a display's cells: all characters, and then all attributes.
fn print_cells<W: Sink>(writer: &mut W, cells: &[DisplayCell]) -> Result<(), WriteFault>
    ensures { Writes (W.given writer.old) (W.given writer.new)
        (codes "ok " ++ cells_text cells.now ++ 10 ∷ []) result }
{
    write_parts(writer, &["ok "])?;
    write_glyphs(writer, " ", cells)?;
    write_parts(writer, &["\n"])
}

/// Writes `ok` and what a printer is physically.
fn print_receipt<W: Sink>(writer: &mut W, receipt: &Receipt) -> Result<(), WriteFault>
    ensures { Writes (W.given writer.old) (W.given writer.new)
        (codes "ok " ++ printer_text receipt.now ++ 10 ∷ []) result }
{
    write_parts(writer, &["ok "])?;
    write_receipt(writer, receipt)?;
    write_parts(writer, &["\n"])
}

/// Writes what a device is physically, except its power.
fn print_plant<W: Sink>(writer: &mut W, snapshot: Snapshot) -> Result<(), WriteFault>
    ensures { Writes (W.given writer.old) (W.given writer.new) (plant_text snapshot.0 ++ 10 ∷ []) result }
{
    match snapshot.0.mechanism {
        Mechanism::Drawer(true) => write_parts(writer, &["ok open\n"]),
        Mechanism::Drawer(false) => write_parts(writer, &["ok closed\n"]),
        Mechanism::Scanner => write_parts(writer, &["ok\n"]),
        Mechanism::Display(shown) => print_cells(writer, shown.as_slice()),
        Mechanism::Printer(receipt) => print_receipt(writer, &receipt),
    }
}

/// Writes that work on output has failed, with its code and extended code.
fn print_failed<W: Sink>(writer: &mut W, code: Code, extended: u32) -> Result<(), WriteFault>
    ensures { Writes (W.given writer.old) (W.given writer.new)
        (worked_text (WorkResult.Failed code extended) ++ 10 ∷ []) result }
{
    let mut code_buffer = Buffer::new();
    let mut extended_buffer = Buffer::new();
    let code = code_buffer.format(code.number());
    let extended = extended_buffer.format(extended);
    write_parts(writer, &["failed ", code, " ", extended, "\n"])
}

/// Writes what came of work on a device's output.
fn print_worked<W: Sink>(writer: &mut W, worked: WorkResult) -> Result<(), WriteFault>
    ensures { Writes (W.given writer.old) (W.given writer.new) (worked_text worked ++ 10 ∷ []) result }
{
    match worked {
        WorkResult::Idle => write_parts(writer, &["idle\n"]),
        WorkResult::Done(id) => {
            let mut buffer = Buffer::new();
            write_parts(writer, &["done ", buffer.format(id), "\n"])
        }
        WorkResult::Failed(code, extended) => print_failed(writer, code, extended),
    }
}

/// Returns why a peripheral was not attached, as a line.
fn attach_line(fault: AttachFault) -> &'static str
    ensures { result.now ≡ attach_text fault ++ 10 ∷ [] }
{
    match fault {
        AttachFault::Unknown => "refused Unknown\n",
        AttachFault::KindDiffers => "refused KindDiffers\n",
        AttachFault::InUse => "refused InUse\n",
    }
}

/// Returns why a peripheral was not detached, as a line.
fn detach_line(fault: DetachFault) -> &'static str
    ensures { result.now ≡ detach_text fault ++ 10 ∷ [] }
{
    match fault {
        DetachFault::Unknown => "refused Unknown\n",
        DetachFault::Vacant => "refused Vacant\n",
        DetachFault::InUse => "refused InUse\n",
    }
}

/// Writes what a counter answers.
#[inline(always)]
fn print_response<W: Sink>(writer: &mut W, response: Response<()>) -> Result<(), WriteFault>
    ensures { Writes (W.given writer.old) (W.given writer.new) (response_text response ++ 10 ∷ []) result }
{
    match response {
        Response::Made(_) => write_parts(writer, &["ok\n"]),
        Response::Full => write_parts(writer, &["refused Full\n"]),
        Response::Answered(answer) => print_answer(writer, &answer),
        Response::TakenIn => write_parts(writer, &["ok\n"]),
        Response::NoDevice => write_parts(writer, &["bad device\n"]),
        Response::WrongInput => write_parts(writer, &["bad input\n"]),
        Response::Worked(worked) => print_worked(writer, worked),
        Response::Delivered(event) => print_delivered(writer, event),
        Response::Shown(snapshot) => print_plant(writer, snapshot),
        Response::Attached => write_parts(writer, &["ok\n"]),
        Response::NotAttached(fault, _) => write_parts(writer, &[attach_line(fault)]),
        Response::Detached(_) => write_parts(writer, &["ok\n"]),
        Response::NotDetached(fault) => write_parts(writer, &[detach_line(fault)]),
        Response::OutOfMemory => write_parts(writer, &["memory\n"]),
    }
}

/// Writes the reply to a line, as a line of its own (docs/reference/console.md, "Answers"). It takes no memory.
///
/// # Errors
///
/// [`WriteFault`] if a write failed. Then a front of the text was written, and not all of it.
#[inline(always)]
pub fn print_reply<W: Sink>(writer: &mut W, reply: LineReply) -> Result<(), WriteFault>
    ensures { Writes (W.given writer.old) (W.given writer.new) (reply_text reply ++ 10 ∷ []) result }
{
    match reply {
        LineReply::BadLine => write_parts(writer, &["bad line\n"]),
        LineReply::BadControl => write_parts(writer, &["bad control\n"]),
        LineReply::BadSpare => write_parts(writer, &["bad spare\n"]),
        LineReply::Memory => write_parts(writer, &["memory\n"]),
        LineReply::Responded(response) => print_response(writer, response),
    }
}

/// Writes why a line was not read, as a line of its own. It takes no memory.
///
/// # Errors
///
/// [`WriteFault`] if a write failed. Then a front of the text was written, and not all of it.
pub fn print_fault<W: Sink>(writer: &mut W, fault: ArgumentFault) -> Result<(), WriteFault>
    ensures { Writes (W.given writer.old) (W.given writer.new) (fault_text fault ++ 10 ∷ []) result }
{
    match fault {
        ArgumentFault::WrongShape => print_reply(writer, LineReply::BadLine),
        ArgumentFault::NoMemory => print_reply(writer, LineReply::Memory),
    }
}

/// The reply to a line that isn't quiet (docs/reference/console.md, "Answers").
#[derive(Drop)]
pub enum LineReply {
    /// Its shape is wrong: `bad line`.
    BadLine,
    /// The name of the control is in use, or unknown: `bad control`.
    BadControl,
    /// No spare has the number: `bad spare`.
    BadSpare,
    /// Memory ran out for what is kept of the line: `memory`.
    Memory,
    /// What the counter answers. A peripheral that it returns is not printed.
    Responded(Response<()>),
}
