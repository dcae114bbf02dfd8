//! The rules of a disk, in words.
ghost use Rattle.std.specs.Prelude.{◌≡◌};
ghost use Rattle.pos_survey.specs.Words.{words_of, words_of_flaw};

use crate::fault::Rule;
use pos_dir::Flaw;

// A rule that a body breaks, in words.
fn words_of_flaw(flaw: Flaw) -> &'static str
    ensures { result.now ≡ words_of_flaw flaw }
{
    match flaw {
        Flaw::TooManyFiles => "the current body has too many files",
        Flaw::TooManyBytes => "the files of the current body have too many bytes",
        Flaw::BadName => "the current body has a bad name",
        Flaw::NameTwice => "the current body has a name twice",
        Flaw::BytesMissing => "bytes of the current body are missing",
        Flaw::BytesLeft => "bytes of the current body are left over",
    }
}

/// Returns what is wrong where totals break a rule, in words.
pub fn words_of(rule: Rule) -> &'static str
    ensures { result.now ≡ words_of rule }
{
    match rule {
        Rule::SameSequence => "both slots are open with the same sequence",
        Rule::LongBody => "the length of the current body is above the longest",
        Rule::NoFiles(flaw) => words_of_flaw(flaw),
        Rule::LongRecord => "a record doesn't end within the log",
        Rule::NoGroup => "a record is no group of changes",
        Rule::EmptyGroup => "a record has no changes",
        Rule::NotApplicable(_) => "the changes of a record don't fit the files before it",
    }
}
