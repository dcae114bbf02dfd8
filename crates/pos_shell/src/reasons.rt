//! Why a line is `bad line`.
ghost use Rattle.std.specs.Prelude.{◌≡◌};
ghost use Rattle.pos_script.specs.Lines.{words_of};
ghost use Rattle.pos_shell.specs.Reasons.{name_reason, reason, shape, words_reason};

use pos_script::{all_plain, next_word};
use pos_service::is_device_name;
use pos_service::words::is;

// The shape of the lines that begin with a word; nothing if none do.
fn shape(verb: &[u8]) -> &'static str
    ensures { result.now ≡ shape verb.now }
{
    match verb {
        _ if is(verb, "new") => "new CONTROL CATEGORY",
        _ if is(verb, "open") => "open CONTROL DEVICE",
        _ if is(verb, "close") => "close CONTROL",
        _ if is(verb, "claim") => "claim CONTROL TIMEOUT",
        _ if is(verb, "release") => "release CONTROL",
        _ if is(verb, "set") => "set CONTROL PROPERTY VALUE",
        _ if is(verb, "get") => "get CONTROL PROPERTY",
        _ if is(verb, "call") => "call CONTROL METHOD, and the method's arguments",
        _ if is(verb, "deliver") => "deliver CONTROL, or with retry, clear or continue",
        _ if is(verb, "input") => "input DEVICE, and what happens there",
        _ if is(verb, "show") => "show DEVICE",
        _ if is(verb, "work") => "work DEVICE",
        _ if is(verb, "attach") => "attach DEVICE SPARE",
        _ if is(verb, "detach") => "detach DEVICE",
        _ => "",
    }
}

// What is wrong with the words after a verb whose lines have this shape.
fn name_reason(shape: &'static str, words: &[u8]) -> &'static str
    ensures { result.now ≡ name_reason shape.entry.now (words_of words.now) }
{
    match next_word(words) {
        Some((name, _)) if !is_device_name(name) => {
            "a name has 1 to 16 letters, digits or hyphens"
        }
        _ => shape,
    }
}

// What is wrong with the words of a line.
fn words_reason(line: &[u8]) -> &'static str
    ensures { result.now ≡ words_reason (words_of line.now) }
{
    let Some((verb, words)) = next_word(line) else {
        return "";
    };
    let shape = shape(verb);
    if shape.is_empty() {
        return "its first word is none that a line has";
    }
    name_reason(shape, words)
}

/// Returns why a line is `bad line`: its length, a byte, its first word, its name, or else the shape that it should
/// have. docs/reference/console.md, "Lines".
pub fn reason(line: &[u8]) -> &'static str
    ensures { result.now ≡ reason line.now }
{
    if line.len() > 140_000 {
        return "it has more than 140000 bytes";
    }
    if !all_plain(line) {
        return "it has a byte that ASCII doesn't print";
    }
    words_reason(line)
}
