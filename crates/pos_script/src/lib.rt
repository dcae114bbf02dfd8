//! What the lines of a script ask, and how the answers are printed (docs/reference/console.md).
//!
//! - A [`LineBuffer`] takes a script in pieces, and returns each [`Line`].
//! - [`read_command`] takes a line apart into a [`Command`], and [`read_called`] and its neighbours return what it
//!   asks.
//! - [`print_reply`] writes a [`LineReply`] to a line, and [`print_fault`] a [`ArgumentFault`].
//!
//! The layer above relies on this: what is read and what is written is exactly what the definitions say, however the
//! script is cut into pieces. Printing takes no memory, and a wrong shape is refused before memory is taken.
#![tactic(auto)]

mod arguments;
mod command;
mod glyphs;
mod line_buffer;
mod lines;
mod methods;
mod print;
mod receipt;
mod words;
mod write;

pub use arguments::{ArgumentFault, read_none};
pub use command::{
    CallVerb, Command, DeviceVerb, Verb, read_called, read_category, read_command, read_happening,
    read_method, read_property, read_reply, read_spare,
};
pub use line_buffer::{EndedLine, Line, LineBuffer};
pub use lines::{
    all_plain, cut, is_quiet_line, lines_fall_in_two, lines_go_on, next_line, next_word,
};
pub use print::{LineReply, print_answer, print_fault, print_reply};
pub use write::write_bytes;
