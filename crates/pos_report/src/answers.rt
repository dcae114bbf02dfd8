//! What is answered to a question about the bytes of a totals file.
ghost use Rattle.std.specs.Prelude.{◌≡◌, ◌≢◌, IfErr, IfOk};
ghost use Rattle.std.specs.Option.{option_copied};
ghost use Rattle.pos_survey.specs.declared.fault.SurveyFault.TheVariants.{NoMemory};
ghost use Rattle.pos_report.specs.Answers.{Answers, AnswersBroken, AnswersSound, IsFilePrinted, LacksFile, Refuses};
ghost use Rattle.pos_report.specs.Answers.{RefusesBroken, RefusesSound, finding_of, printed};
ghost use Rattle.pos_report.specs.Files.{bytes_of};

use crate::dump::dump_text;
use crate::json::survey_json;
use crate::question::{Finding, Question};
use crate::texts::{broken_text, sound_text};
use pos_dir::Directory;
use pos_survey::{Survey, SurveyFault};
use std::alloc::{AllocError, Global};

/// Why a question about the bytes of a totals file isn't answered.
#[derive(Clone, Copy, PartialEq, Eq)]
pub enum AnswerFault {
    /// The bytes are no totals, or damaged ones.
    Totals(SurveyFault),
    /// No file has the name.
    NoFile,
}

impl From<AllocError> for AnswerFault {
    ghost use Rattle.pos_report.specs.declared.answers.AnswerFault.TheVariants.{Totals};

    ghost from_gives = { λ _ fault. fault ≡ Totals NoMemory };

    fn from(_: AllocError) -> Self {
        AnswerFault::Totals(SurveyFault::NoMemory)
    }
}

// Bytes as they are, or in hex and a line feed.
fn printed(alloc: Global, bytes: &[u8], hex: bool) -> Result<Vec<u8>, AllocError>
    ensures { IfOk result (λ text. text.items ≡ printed hex bytes.now) }
{
    if !hex {
        return Vec::from_slice(alloc, bytes);
    }
    let line = hex::encode(alloc, bytes)?;
    let mut text = Vec::from_slice(alloc, line.as_bytes())?;
    text.extend_from_slice(b"\n")?;
    Ok(text)
}

/// Returns the bytes of the file with a name, or `None` if there is none.
pub(crate) fn bytes_of<'a>(directory: &'a Directory, name: &[u8]) -> Option<&'a [u8]>
    ensures { option_copied result ≡ bytes_of directory.now.files name.now }
{
    let index = directory.index_of(name)?;
    directory.bytes(index)
}

// The bytes of the file with a name, as they are printed.
fn print_file(
    alloc: Global,
    directory: &Directory,
    name: &str,
    hex: bool,
) -> Result<Vec<u8>, AnswerFault>
    ensures ok { IfOk result (λ text. IsFilePrinted directory.now.files name.now hex text.items) }
    ensures refused { IfErr result (LacksFile directory.now.files name.now) }
{
    match bytes_of(directory, name.as_bytes()) {
        Some(bytes) => Ok(printed(alloc, bytes, hex)?),
        None => Err(AnswerFault::NoFile),
    }
}

// What is answered of sound totals.
fn answer_sound(
    alloc: Global,
    question: Question<'_>,
    survey: &Survey,
) -> Result<Vec<u8>, AnswerFault>
    ensures ok { IfOk result (λ text. AnswersSound question.entry survey.now text.items) }
    ensures refused { IfErr result (RefusesSound question.entry survey.now) }
{
    match question {
        Question::Check { quiet: true } => Ok(Vec::new(alloc)),
        Question::Check { quiet: false } => Ok(sound_text(alloc, survey)?),
        Question::Files { json: true } => Ok(survey_json(alloc, survey)?),
        Question::Files { json: false } => Ok(survey.to_text(alloc)?),
        Question::Cat { name, hex } => print_file(alloc, &survey.directory, name, hex),
        Question::Dump => Ok(dump_text(alloc, survey)?),
    }
}

// What a survey's fault is to a check.
fn finding_of(fault: SurveyFault) -> Finding
    ensures { result ≡ finding_of fault }
{
    match fault {
        SurveyFault::Damaged(_, _) => Finding::Damaged,
        _ => Finding::Nothing,
    }
}

// What is answered of bytes that are no sound totals: a check tells of them, and every other question is refused.
fn answer_broken(
    alloc: Global,
    question: Question<'_>,
    fault: SurveyFault,
    bytes: &[u8],
) -> Result<(Finding, Vec<u8>), AnswerFault>
    requires { fault ≢ NoMemory }
    ensures ok { IfOk result (λ answer. AnswersBroken question.entry fault bytes.now answer.0 answer.1.items) }
    ensures refused { IfErr result (RefusesBroken question.entry fault) }
{
    match question {
        Question::Check { quiet: true } => Ok((finding_of(fault), Vec::new(alloc))),
        Question::Check { quiet: false } => {
            Ok((finding_of(fault), broken_text(alloc, fault, bytes)?))
        }
        _ => Err(AnswerFault::Totals(fault)),
    }
}

/// Returns what is answered to a question about the bytes of a totals file: what was found, and a text to print.
///
/// # Errors
///
/// - `Totals` if the bytes are no totals or damaged ones, and the question isn't a check; or if memory ran out.
/// - `NoFile` if no file has the name that was asked for.
pub fn answer(
    alloc: Global,
    question: Question<'_>,
    bytes: &[u8],
) -> Result<(Finding, Vec<u8>), AnswerFault>
    ensures ok { IfOk result (λ answer. Answers question.entry bytes.now answer.0 answer.1.items) }
    ensures refused { IfErr result (Refuses question.entry bytes.now) }
{
    match Survey::of(alloc, bytes) {
        Ok(survey) => Ok((Finding::Good, answer_sound(alloc, question, &survey)?)),
        Err(SurveyFault::NoMemory) => Err(AnswerFault::Totals(SurveyFault::NoMemory)),
        Err(fault) => answer_broken(alloc, question, fault, bytes),
    }
}
