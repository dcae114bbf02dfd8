//! The verbs of lines, and what the words after them ask.
ghost use Rattle.std.specs.Prelude.{◌≡◌, ◌∷◌, MatchOption};
ghost use Rattle.pos_script.specs.Lines.{words_of};
ghost use Rattle.pos_script.specs.Arguments.{Reads, from_three, misshapen, one};
ghost use Rattle.pos_script.specs.Words.{bytes_shape, category_shape, count_shape, property_shape};
ghost use Rattle.pos_service.specs.declared.input.Input.TheVariants as input;
ghost use Rattle.pos_script.specs.Commands.{called, choice_of, happening, input_of, line_of, printer_input_of, reply_of, request_of_words, verb_named};

use crate::arguments::{ArgumentFault, DeviceName, read_none, read_one, read_three, read_two};
use crate::lines::next_word;
use crate::methods::read_call;
use pos_service::words::is;
use pos_service::{Call, Category, ErrorReply, Input, LentBytes, Property, is_device_name};
use std::alloc::Global;

/// The verb of a line that asks for a call, after which the control's name comes.
#[derive(Clone, Copy)]
pub enum CallVerb {
    /// `open CONTROL DEVICE`
    Open,
    /// `close CONTROL`
    Close,
    /// `claim CONTROL TIMEOUT`
    Claim,
    /// `release CONTROL`
    Release,
    /// `set CONTROL PROPERTY VALUE`
    Set,
    /// `get CONTROL PROPERTY`
    Get,
    /// `call CONTROL METHOD`, and the method's arguments
    Method,
}

/// The verb of a line that asks something of a device, after which only its name comes.
#[derive(Clone, Copy)]
pub enum DeviceVerb {
    /// `show DEVICE`
    Show,
    /// `work DEVICE`
    Work,
    /// `detach DEVICE`
    Detach,
}

/// The verb of a line: what kind of request it makes.
#[derive(Clone, Copy)]
pub enum Verb {
    /// `new CONTROL CATEGORY`
    New,
    /// A call of a control
    Call(CallVerb),
    /// `input DEVICE`, and what happens there
    Input,
    /// `deliver CONTROL`, or `deliver CONTROL REPLY`
    Deliver,
    /// `attach DEVICE SPARE`
    Attach,
    /// What is asked of a device
    Device(DeviceVerb),
}

/// A line of a script, taken apart (docs/reference/console.md, "Lines").
#[derive(Drop)]
pub struct Command<'a> {
    /// Its verb.
    pub verb: Verb,
    /// The name of a control or a device: 1 to 16 ASCII letters, digits or hyphens.
    pub name: LentBytes<'a>,
    /// The text after it.
    pub words: &'a [u8],
}

/// Returns the verb of this word. Those of most lines are looked for first.
#[inline(always)]
fn named_verb(word: &[u8]) -> Option<Verb>
    ensures { result ≡ verb_named word.now }
{
    match word {
        _ if is(word, "call") => Some(Verb::Call(CallVerb::Method)),
        _ if is(word, "get") => Some(Verb::Call(CallVerb::Get)),
        _ if is(word, "set") => Some(Verb::Call(CallVerb::Set)),
        _ if is(word, "deliver") => Some(Verb::Deliver),
        _ if is(word, "input") => Some(Verb::Input),
        _ if is(word, "open") => Some(Verb::Call(CallVerb::Open)),
        _ if is(word, "claim") => Some(Verb::Call(CallVerb::Claim)),
        _ if is(word, "release") => Some(Verb::Call(CallVerb::Release)),
        _ if is(word, "close") => Some(Verb::Call(CallVerb::Close)),
        _ if is(word, "new") => Some(Verb::New),
        _ if is(word, "show") => Some(Verb::Device(DeviceVerb::Show)),
        _ if is(word, "work") => Some(Verb::Device(DeviceVerb::Work)),
        _ if is(word, "attach") => Some(Verb::Attach),
        _ if is(word, "detach") => Some(Verb::Device(DeviceVerb::Detach)),
        _ => None,
    }
}

/// Returns a line taken apart, or `None` if it doesn't begin with a verb and a name. The line is known to be well
/// spelled and not quiet.
#[inline(always)]
pub fn read_command(line: &[u8]) -> Option<Command<'_>>
    ensures { MatchOption result (request_of_words (words_of line.now) ≡ misshapen)
        (λ command. request_of_words (words_of line.now)
        ≡ line_of command.verb command.name (words_of command.words.now)) }
{
    let (word, text) = next_word(line)?;
    let (name, words) = next_word(text)?;
    if !is_device_name(name) {
        return None;
    }
    let verb = named_verb(word)?;
    Some(Command {
        verb,
        name: LentBytes::from_slice(name),
        words,
    })
}

/// Returns the call that a `call` line asks for on its control, by the words after the control's name.
///
/// # Errors
///
/// As of `read_called`.
pub fn read_method(alloc: Global, words: &[u8]) -> Result<Call, ArgumentFault>
    ensures { Reads (called CallVerb.Method (words_of words.now)) result }
{
    let Some((method, rest)) = next_word(words) else {
        return Err(ArgumentFault::WrongShape);
    };
    read_call(alloc, method, rest)
}

/// Reads the name of a device that is opened.
fn read_open(alloc: Global, words: &[u8]) -> Result<Call, ArgumentFault>
    ensures { Reads (called CallVerb.Open (words_of words.now)) result }
{
    read_one(alloc, words).map(|device: DeviceName| Call::Open(device.name))
}

/// Reads the timeout of a claim.
fn read_claim(alloc: Global, words: &[u8]) -> Result<Call, ArgumentFault>
    ensures { Reads (called CallVerb.Claim (words_of words.now)) result }
{
    read_one(alloc, words).map(Call::Claim)
}

/// Reads a property that is set, and its value.
fn read_set(alloc: Global, words: &[u8]) -> Result<Call, ArgumentFault>
    ensures { Reads (called CallVerb.Set (words_of words.now)) result }
{
    read_two(alloc, words).map(|(property, value)| Call::Set(property, value))
}

/// Returns the property that a `get` line asks for, by the words after the control's name.
///
/// # Errors
///
/// `WrongShape` if they aren't one property.
#[inline(always)]
pub fn read_property(alloc: Global, words: &[u8]) -> Result<Property, ArgumentFault>
    ensures { Reads (one property_shape (words_of words.now)) result }
{
    read_one::<Property>(alloc, words)
}

/// Reads a property that is asked for.
fn read_get(alloc: Global, words: &[u8]) -> Result<Call, ArgumentFault>
    ensures { Reads (called CallVerb.Get (words_of words.now)) result }
{
    read_property(alloc, words).map(Call::Get)
}

/// Returns the call that a line asks for on its control, by its verb and the words after the control's name.
///
/// # Errors
///
/// - `WrongShape` if the shape is wrong (docs/reference/console.md, "Lines", "Methods" and "Words"). That is checked
/// before
///   memory is taken.
/// - `NoMemory` if memory ran out for what the call keeps of the line.
#[inline(always)]
pub fn read_called(alloc: Global, verb: CallVerb, words: &[u8]) -> Result<Call, ArgumentFault>
    ensures { Reads (called verb (words_of words.now)) result }
{
    match verb {
        CallVerb::Open => read_open(alloc, words),
        CallVerb::Close => read_none(words).map(|_| Call::Close),
        CallVerb::Claim => read_claim(alloc, words),
        CallVerb::Release => read_none(words).map(|_| Call::Release),
        CallVerb::Set => read_set(alloc, words),
        CallVerb::Get => read_get(alloc, words),
        CallVerb::Method => read_method(alloc, words),
    }
}

/// Reads a scan: its type, its data and its label.
fn read_scan(alloc: Global, words: &[u8]) -> Result<Input, ArgumentFault>
    ensures { Reads (from_three count_shape bytes_shape bytes_shape input.Scan (words_of words.now)) result }
{
    read_three(alloc, words).map(|(kind, (bytes, label))| Input::Scan { kind, bytes, label })
}

/// Reads what happens at a device.
fn read_event(alloc: Global, word: &[u8], words: &[u8]) -> Result<Input, ArgumentFault>
    ensures { Reads (input_of word.now (words_of words.now)) result }
{
    if is(word, "open") {
        return read_none(words).map(|_| Input::DrawerMoved(true));
    }
    if is(word, "closed") {
        return read_none(words).map(|_| Input::DrawerMoved(false));
    }
    if is(word, "scan") {
        return read_scan(alloc, words);
    }
    if is(word, "fault") {
        return read_none(words).map(|_| Input::ScanFault);
    }
    if is(word, "power") {
        return read_choice(words, "on", "off").map(Input::PowerMoved);
    }
    read_printer_event(alloc, word, words)
}

/// Reads the last word of a line, which is one of two, and returns whether it is the first of them.
fn read_choice(words: &[u8], first: &str, second: &str) -> Result<bool, ArgumentFault>
    ensures { Reads (choice_of first.now second.now (words_of words.now)) result }
{
    let Some((word, rest)) = next_word(words) else {
        return Err(ArgumentFault::WrongShape);
    };
    if is(word, first) {
        return read_none(rest).map(|_| true);
    }
    if is(word, second) {
        return read_none(rest).map(|_| false);
    }
    Err(ArgumentFault::WrongShape)
}

/// Reads what happens at a printer.
fn read_printer_event(alloc: Global, word: &[u8], words: &[u8]) -> Result<Input, ArgumentFault>
    ensures { Reads (printer_input_of word.now (words_of words.now)) result }
{
    if is(word, "cover") {
        return read_choice(words, "open", "closed").map(Input::CoverMoved);
    }
    if is(word, "paper") {
        return read_one(alloc, words).map(Input::PaperLoaded);
    }
    Err(ArgumentFault::WrongShape)
}

/// Returns the category of a new control, by the words of a `new` line after its name.
///
/// # Errors
///
/// `WrongShape` if they aren't one category.
pub fn read_category(alloc: Global, words: &[u8]) -> Result<Category, ArgumentFault>
    ensures { Reads (one category_shape (words_of words.now)) result }
{
    read_one(alloc, words)
}

/// Returns the number of a spare, by the words of an `attach` line after the device's name.
///
/// # Errors
///
/// `WrongShape` if they aren't one number that isn't negative.
pub fn read_spare(alloc: Global, words: &[u8]) -> Result<u32, ArgumentFault>
    ensures { Reads (one count_shape (words_of words.now)) result }
{
    read_one(alloc, words)
}

/// Returns what happens at a device, by the words of an `input` line after its name.
///
/// # Errors
///
/// - `WrongShape` if they are no input of any device.
/// - `NoMemory` if memory ran out for the data of a scan.
pub fn read_happening(alloc: Global, words: &[u8]) -> Result<Input, ArgumentFault>
    ensures { Reads (happening (words_of words.now)) result }
{
    let Some((word, rest)) = next_word(words) else {
        return Err(ArgumentFault::WrongShape);
    };
    read_event(alloc, word, rest)
}

/// Returns the answer to an ErrorEvent, by the words of a `deliver` line after its name. Without a word it is the
/// default one (common chapter, ErrorResponse).
///
/// # Errors
///
/// `WrongShape` if they are more than one word, or no answer.
pub fn read_reply(alloc: Global, words: &[u8]) -> Result<ErrorReply, ArgumentFault>
    ensures { Reads (reply_of (words_of words.now)) result }
{
    if next_word(words).is_none() {
        return Ok(ErrorReply::Default);
    }
    read_one(alloc, words)
}
