//! The records of a log, as the bytes of its span hold them. docs/reference/totals-file.md, "The log".
ghost use Rattle.std.specs.Prelude.{◌≡◌, ◌⊎◌, ◌≤◌, ◌<◌, ℕ, length, map, IfOk, IfErr, MatchOption};
ghost use Rattle.pos_image.specs.Layout.{is_open};
ghost use Rattle.pos_log.specs.Records.{HoldsRecords, HoldsSome, HasLength, BreaksAt, spelling};
ghost use Rattle.pos_log.specs.declared.fault.LogFault.TheVariants.{Damaged, NoMemory};

use crate::fault::LogFault;
use std::alloc::Global;

// Returns whether there is a record at this place: its gate is open.
fn has_record(span: &[u8], at: usize) -> bool
    requires { at < length span.now }
    ensures { result ≡ is_open span.now at }
{
    span[at] == OPEN
}

// Returns the length of the group of the record at this place, if it fits with the gate after it.
fn group_length(span: &[u8], at: usize) -> Option<usize>
    requires inside { at < length span.now }
    requires short { length span.now ≤ 65536 }
    ensures { MatchOption result ((n : ℕ) → ¬ (HasLength span.now at n)) (HasLength span.now at) }
{
    let left = span.len() - at;
    if left <= HEAD {
        return None;
    }
    let length = u32::from_be_bytes([
        span[at + 1],
        span[at + 2],
        span[at + 3],
        span[at + 4],
    ]) as usize;
    if length >= left - HEAD {
        return None;
    }
    Some(length)
}

/// Returns the groups of the records up to the first closed gate, and the place of that gate.
///
/// # Errors
///
/// `Damaged` if a record that is open doesn't fit, and `NoMemory` if memory ran out.
pub(crate) fn read_records(alloc: Global, span: &[u8]) -> Result<(Vec<Vec<u8>>, usize), LogFault>
    requires some { 0 < length span.now }
    requires short { length span.now ≤ 65536 }
    ensures held { IfOk result (λ r. HoldsRecords (map (λ g. g.items) r.0.items) span.now) }
    ensures end { IfOk result (λ r. r.1 ≡ length (spelling (map (λ g. g.items) r.0.items))) }
    ensures damaged { IfErr result (λ e. e ≡ Damaged → ¬ (HoldsSome span.now)) }
    ensures faults { IfErr result (λ e. (e ≡ Damaged) ⊎ (e ≡ NoMemory)) }
{
    let mut groups = Vec::new(alloc);
    let mut at = 0;
    while has_record(span, at) {
        let Some(length) = group_length(span, at) else {
            return Err(LogFault::Damaged);
        };
        let group = Vec::from_slice(alloc, &span[at + HEAD..at + HEAD + length])?;
        if groups.push(group).is_err() {
            return Err(LogFault::NoMemory);
        }
        at += HEAD + length;
    }
    Ok((groups, at))
}

/// Returns the place of the record that doesn't fit, counted from the first place of the log, or `None` if each one
/// fits. docs/reference/totals-file.md, "The log".
pub fn find_damage(span: &[u8]) -> Option<usize>
    requires some { 0 < length span.now }
    requires short { length span.now ≤ 65536 }
    ensures { MatchOption result (HoldsSome span.now) (BreaksAt span.now) }
{
    let mut at = 0;
    while has_record(span, at) {
        let Some(length) = group_length(span, at) else {
            return Some(at);
        };
        at += HEAD + length;
    }
    None
}

/// How many bytes a record has before its group: its gate, and its length in four bytes.
pub(crate) const HEAD: usize = 5;

/// How many bytes a record has after its gate beside its group, with the gate of the next record.
pub(crate) const REST: usize = 5;

/// The byte of an open gate; every other byte is a closed one.
pub(crate) const OPEN: u8 = 0xA5;

/// The byte that is written to close a gate.
pub(crate) const CLOSED: u8 = 0;
