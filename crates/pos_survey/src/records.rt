//! The groups of the records of a log, applied in order.
ghost use Rattle.std.specs.Prelude.{◌≡◌, ◌+◌, ◌<◌, ◌^◌, length, map, OnOk, IfErr};
ghost use Rattle.pos_log.specs.Records.{spelling};
ghost use Rattle.pos_store.specs.Standing.{Applies, IsStep};
ghost use Rattle.pos_survey.specs.Damages.{IsRefused, StopsFor};

use crate::fault::{Rule, SurveyFault};
use pos_dir::{Directory, DirectoryFault, apply_group, decode_group};
use std::alloc::Global;

// How many bytes a record has before its group.
const HEAD: u64 = 5;

// Applies the group that a text spells, or returns the rule that it breaks.
fn apply_text(
    alloc: Global,
    directory: &mut Directory,
    text: &[u8],
    at: u64,
) -> Result<(), SurveyFault>
    ensures ok { OnOk result (IsStep directory.old.limits directory.old.files text.now directory.new.files) }
    ensures limits { directory.new.limits ≡ directory.old.limits }
    ensures broken { IfErr result (IsRefused directory.old.limits directory.old.files text.now at) }
{
    let group = match decode_group(alloc, text) {
        Ok(group) => group,
        Err(DirectoryFault::Malformed) => return Err(SurveyFault::Damaged(at, Rule::NoGroup)),
        Err(_) => return Err(SurveyFault::NoMemory),
    };
    if group.len() == 0 {
        return Err(SurveyFault::Damaged(at, Rule::EmptyGroup));
    }
    match apply_group(alloc, directory, &group) {
        Ok(()) => Ok(()),
        Err(DirectoryFault::NoMemory) => Err(SurveyFault::NoMemory),
        Err(fault) => Err(SurveyFault::Damaged(at, Rule::NotApplicable(fault))),
    }
}

/// Applies the groups that texts spell, in order. They are those of the records of a log that begins at this place.
///
/// # Errors
///
/// - `Damaged` with `NoGroup`, `EmptyGroup` or `NotApplicable`, and the place, for the first record that breaks a rule.
/// - `NoMemory` if memory ran out.
pub(crate) fn apply_texts(
    alloc: Global,
    directory: &mut Directory,
    texts: &[Vec<u8>],
    first: u64,
) -> Result<(), SurveyFault>
    requires { first + length (spelling (map (λ t. t.items) texts.now)) < 2 ^ 64 }
    ensures ok { OnOk result
        (Applies directory.old.limits directory.old.files (map (λ t. t.items) texts.now) directory.new.files) }
    ensures limits { directory.new.limits ≡ directory.old.limits }
    ensures broken { IfErr result
        (StopsFor directory.old.limits directory.old.files (map (λ t. t.items) texts.now) first) }
{
    let mut at = first;
    for text in texts {
        match apply_text(alloc, directory, text, at) {
            Ok(()) => at += HEAD + text.len() as u64,
            Err(fault) => return Err(fault),
        }
    }
    Ok(())
}
