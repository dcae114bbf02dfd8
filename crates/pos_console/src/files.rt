//! Prints what a totals file holds.
ghost use Rattle.std.specs.Prelude.{IfErr, IfOk, MatchResult};
ghost use Rattle.pos_program.specs.Answers.{bytes_of};
ghost use Rattle.pos_run.specs.Streams.{writing_of};
ghost use Rattle.pos_console.specs.Program.{IsCutOff, IsWritten, PrintsFile, TellsBytes, TellsFile};
ghost use Rattle.pos_console.specs.Surveys.{IsBroken, IsTold, PrintsBreak};

use crate::file_closer::FileCloser;
use pos_file::BlockFile;
use pos_program::{Fault, FileFault, NamedFiles};
use pos_run::AnswerWriter;
use pos_script::write_bytes;
use pos_streams::{Sink, WriteFault};
use pos_survey::{Survey, SurveyFault, words_of};
use std::alloc::Global;

/// Returns a survey's fault as a fault of the file.
fn fault_of_survey(fault: SurveyFault) -> FileFault
    ensures { PrintsBreak fault result }
{
    match fault {
        SurveyFault::NoMemory => FileFault::NoMemory,
        SurveyFault::TooSmall => FileFault::Short,
        SurveyFault::Unformatted => FileFault::Unformatted,
        SurveyFault::Damaged(at, broken) => FileFault::Broken {
            at,
            rule: words_of(broken),
        },
    }
}

/// Returns what the bytes of a totals file hold, as lines of text.
fn survey_text(alloc: Global, bytes: &[u8]) -> Result<Vec<u8>, FileFault>
    ensures told { IfOk result (λ text. IsTold bytes.now text.items) }
    ensures broken { IfErr result (IsBroken bytes.now) }
{
    let survey = match Survey::of(alloc, bytes) {
        Ok(survey) => survey,
        Err(fault) => return Err(fault_of_survey(fault)),
    };
    match survey.to_text(alloc) {
        Ok(text) => Ok(text),
        Err(_) => Err(FileFault::NoMemory),
    }
}

/// Writes a text to its end, and flushes it.
fn write_text<W: Sink>(writer: &mut AnswerWriter<W>, text: &[u8]) -> Result<(), WriteFault>
    ensures { MatchResult result
        (λ _. IsWritten (writing_of W.Sink writer.old) (writing_of W.Sink writer.new) text.now)
        (λ _. IsCutOff (writing_of W.Sink writer.old) (writing_of W.Sink writer.new) text.now) }
{
    write_bytes(writer, text)?;
    writer.flush()
}

/// Returns what the bytes of the totals file at a path hold, as lines of text.
fn text_of_bytes<'a>(alloc: Global, path: &'a str, bytes: &[u8]) -> Result<Vec<u8>, Fault<'a>>
    ensures { TellsBytes path.entry.now bytes.now (bytes_of result) }
{
    match survey_text(alloc, bytes) {
        Ok(text) => Ok(text),
        Err(cause) => Err(Fault::Disk { path, cause }),
    }
}

/// Returns what the totals file at a path holds, as lines of text. The file is closed then, before the writer is used:
/// whoever reads the text may take long, and a till can't open a file that is locked.
fn text_of_file<'a, F: NamedFiles + FileCloser, W: Sink>(
    alloc: Global,
    files: &F,
    writer: &AnswerWriter<W>,
    path: &'a str,
) -> Result<Vec<u8>, Fault<'a>>
    ensures { TellsFile F.NamedFiles F.FileCloser ⟦<F::File as BlockFile>⟧ files.now (writing_of W.Sink writer.now)
        path.entry.now (bytes_of result) }
{
    match files.read_disk(path) {
        Ok(totals) => {
            let told = text_of_bytes(alloc, path, totals.bytes());
            files.close_before(totals, writer);
            told
        }
        Err(cause) => Err(Fault::Disk { path, cause }),
    }
}

/// Writes what the totals file at a path holds, as lines of text. The file is read once, and nothing is written to it.
/// It is closed before anything is printed. docs/reference/console.md, "What a totals file holds".
///
/// # Errors
///
/// - `Disk` if the file can't be read, or breaks a rule of the format: the fault says which rule, and where.
/// - `Write` if the text can't be written.
pub fn print_file<'a, F: NamedFiles + FileCloser, W: Sink>(
    alloc: Global,
    files: &F,
    writer: &mut AnswerWriter<W>,
    path: &'a str,
) -> Result<(), Fault<'a>>
    ensures { PrintsFile F.NamedFiles F.FileCloser ⟦<F::File as BlockFile>⟧ files.now path.entry.now
        (writing_of W.Sink writer.old) (writing_of W.Sink writer.new) result }
{
    let text = match text_of_file(alloc, files, writer, path) {
        Ok(text) => text,
        Err(fault) => return Err(fault),
    };
    match write_text(writer, &text) {
        Ok(()) => Ok(()),
        Err(_) => Err(Fault::Write),
    }
}
