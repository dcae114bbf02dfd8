//! What the program `pos_console` needs of words, files and profiles.
//!
//! - [`choice`] returns the [`Task`] that the words of the command line ask for.
//! - [`CommandLine`] is made in steps, by [`begin_line`], [`with_word`] and [`with_command`].
//! - [`FileSystem`] and [`NamedFiles`] are the files that those words name. [`TotalsDisk`] is the disk in one of them.
//! - [`format_file`], [`migrate_file`] and [`NamedFiles::read_disk`] format a totals file, move it to layout 2, and
//!   read it. [`profile_of_bytes`] and [`open_run`] read a profile.
//! - [`Fault`] is what the program ends with, and [`Fault::status`] its exit status.
//! - [`HeldStreams`] keeps files from being opened as standard input, output or error.
//!
//! The layer above relies on this: a file is locked before anything in it is read or written, its calls make the disk
//! that the mirror shows, and a refusal closes it. Each fault names its cause and prints as one line.
#![tactic(auto)]

mod choice_fault;
mod command_lines;
mod fault;
mod file_fault;
mod file_system;
mod first_paragraph;
mod held_streams;
mod migration;
mod named_files;
mod new_totals;
mod one_line;
mod profile_fault;
mod profile_file;
mod run_files;
mod totals_disk;
mod totals_file;
mod words;

pub use choice_fault::{ChoiceFault, WordsFault};
pub use command_lines::{CommandLine, begin_line, with_command, with_word};
pub use fault::{Fault, status_of};
pub use file_fault::FileFault;
pub use file_system::FileSystem;
pub use first_paragraph::FirstParagraph;
pub use held_streams::HeldStreams;
pub use migration::{migrate_disk, migrate_file, migrate_totals};
pub use named_files::{NamedFiles, SystemFiles};
pub use new_totals::{format_disk, format_file, format_totals};
pub use one_line::OneLine;
pub use profile_fault::ProfileFileFault;
pub use profile_file::{profile_of_bytes, profile_of_text, read_profile};
pub use run_files::open_run;
pub use totals_disk::{
    TotalsDisk, close_totals, disk_over, disk_to_read, file_is_mirrored, lengthened, lock_totals,
    make_totals, mirrored, mirrored_long, open_totals, sync_folder,
};
pub use totals_file::{open_file, read_totals};
pub use words::{Task, choice, read_words};
