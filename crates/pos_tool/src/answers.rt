//! How an answer is printed.
ghost use Rattle.std.specs.Prelude.{◌≡◌};
ghost use Rattle.pos_shell.specs.Outputs.{output_of};
ghost use Rattle.pos_tool.specs.Differences.{PrintsDifference, SurveysBytes, SurveysFile, WritesDifference};
ghost use Rattle.pos_tool.specs.Differences.{difference_finding};
ghost use Rattle.pos_tool.specs.Surveys.{AnswersBytes, AnswersFile, Prints, PrintsFile, finding_and_text, name_in};

use crate::fault::Fault;
use crate::folder::Folder;
use pos_file::BlockFile;
use pos_program::NamedFiles;
use pos_report::{AnswerFault, Finding, Question, answer, difference_text};
use pos_shell::write_text;
use pos_streams::Sink;
use pos_survey::Survey;
use std::alloc::Global;

// The name of a file that a question asks for.
fn name_in<'a>(question: Question<'a>) -> &'a str
    ensures { result.now ≡ name_in question.entry }
{
    match question {
        Question::Cat { name, .. } => name,
        _ => "",
    }
}

// What is answered to a question about the bytes of the totals file at a path, and what is found.
fn answer_bytes<'a>(
    alloc: Global,
    path: &'a str,
    question: Question<'a>,
    bytes: &[u8],
) -> Result<(Finding, Vec<u8>), Fault<'a>>
    ensures { AnswersBytes path.entry.now question.entry bytes.now (finding_and_text result) }
{
    match answer(alloc, question, bytes) {
        Ok(found) => Ok(found),
        Err(AnswerFault::Totals(cause)) => Err(Fault::Totals { path, cause }),
        Err(AnswerFault::NoFile) => {
            let name = name_in(question);
            Err(Fault::NoFile { path, name })
        }
    }
}

// What is answered to a question about the totals file at a path. The file is closed then, before the output is written
// to: whoever reads the answer may take long, and a till can't open a file that is locked.
fn answer_file<'a, F: NamedFiles, S: Folder, W: Sink>(
    alloc: Global,
    files: &F,
    system: &S,
    writer: &W,
    path: &'a str,
    question: Question<'a>,
) -> Result<(Finding, Vec<u8>), Fault<'a>>
    ensures { AnswersFile F.NamedFiles ⟦<F::File as BlockFile>⟧ files.now S.Folder system.now
        (output_of W.Sink writer.now) path.entry.now question.entry (finding_and_text result) }
{
    match files.read_disk(path) {
        Ok(totals) => {
            let found = answer_bytes(alloc, path, question, totals.bytes());
            system.close_before(totals, writer);
            found
        }
        Err(cause) => Err(Fault::File { path, cause }),
    }
}

/// Prints what is answered to a question about the totals file at a path. The file is read once, and nothing is written
/// to it. It is closed before anything is printed. docs/reference/tool.md, "Commands".
///
/// # Errors
///
/// `File` if the file can't be read, `Totals` and `NoFile` as `answer` has them, and `Write`.
pub(crate) fn print_file<'a, F: NamedFiles, S: Folder, W: Sink>(
    alloc: Global,
    files: &F,
    system: &S,
    writer: &mut W,
    path: &'a str,
    question: Question<'a>,
) -> Result<Finding, Fault<'a>>
    ensures { PrintsFile F.NamedFiles ⟦<F::File as BlockFile>⟧ files.now S.Folder system.now path.entry.now
        question.entry (output_of W.Sink writer.old) (output_of W.Sink writer.new) result }
{
    let (finding, text) = match answer_file(alloc, files, system, writer, path, question) {
        Ok(found) => found,
        Err(fault) => return Err(fault),
    };
    match write_text(writer, &text) {
        Ok(()) => Ok(finding),
        Err(_) => Err(Fault::Write),
    }
}

/// Prints a text.
///
/// # Errors
///
/// `Write`.
pub(crate) fn print<'a, W: Sink>(writer: &mut W, text: &[u8]) -> Result<Finding, Fault<'a>>
    ensures { Prints text.now (output_of W.Sink writer.old) (output_of W.Sink writer.new) result }
{
    match write_text(writer, text) {
        Ok(()) => Ok(Finding::Good),
        Err(_) => Err(Fault::Write),
    }
}

// What a survey of the bytes of the totals file at a path tells.
fn survey_bytes<'a>(alloc: Global, path: &'a str, bytes: &[u8]) -> Result<Survey, Fault<'a>>
    ensures { SurveysBytes path.entry.now bytes.now result }
{
    match Survey::of(alloc, bytes) {
        Ok(survey) => Ok(survey),
        Err(cause) => Err(Fault::Totals { path, cause }),
    }
}

// What a survey of the totals file at a path tells. The file is closed then, before the output is written to.
fn survey_file<'a, F: NamedFiles, S: Folder, W: Sink>(
    alloc: Global,
    files: &F,
    system: &S,
    writer: &W,
    path: &'a str,
) -> Result<Survey, Fault<'a>>
    ensures { SurveysFile F.NamedFiles ⟦<F::File as BlockFile>⟧ files.now S.Folder system.now
        (output_of W.Sink writer.now) path.entry.now result }
{
    match files.read_disk(path) {
        Ok(totals) => {
            let told = survey_bytes(alloc, path, totals.bytes());
            system.close_before(totals, writer);
            told
        }
        Err(cause) => Err(Fault::File { path, cause }),
    }
}

// What is found where totals differ by a text: nothing is well if they don't.
fn finding_of(text: &[u8]) -> Finding
    ensures { result ≡ difference_finding text.now }
{
    if text.is_empty() {
        return Finding::Good;
    }
    Finding::Nothing
}

// Prints how totals differ of which surveys tell.
fn print_surveys<'a, W: Sink>(
    alloc: Global,
    writer: &mut W,
    first: &Survey,
    second: &Survey,
) -> Result<Finding, Fault<'a>>
    ensures { PrintsDifference first.now second.now (output_of W.Sink writer.old) (output_of W.Sink writer.new)
        result }
{
    let Ok(text) = difference_text(alloc, first, second) else {
        return Err(Fault::NoMemory);
    };
    match write_text(writer, &text) {
        Ok(()) => Ok(finding_of(&text)),
        Err(_) => Err(Fault::Write),
    }
}

/// Prints how the files of two totals files differ, which are only read, and closed before anything is printed.
///
/// # Errors
///
/// `File` and `Totals` for the first of them that can't be read or isn't sound, `NoMemory` and `Write`.
pub(crate) fn write_difference<'a, F: NamedFiles, S: Folder, W: Sink>(
    alloc: Global,
    files: &F,
    system: &S,
    writer: &mut W,
    first: &'a str,
    second: &'a str,
) -> Result<Finding, Fault<'a>>
    ensures { WritesDifference F.NamedFiles ⟦<F::File as BlockFile>⟧ files.now S.Folder system.now first.entry.now
        second.entry.now (output_of W.Sink writer.old) (output_of W.Sink writer.new) result }
{
    let one = match survey_file(alloc, files, system, writer, first) {
        Ok(survey) => survey,
        Err(fault) => return Err(fault),
    };
    match survey_file(alloc, files, system, writer, second) {
        Ok(other) => print_surveys(alloc, writer, &one, &other),
        Err(fault) => Err(fault),
    }
}
