//! What can be had of damaged totals.
ghost use Rattle.std.specs.Prelude.{◌≡◌, ◌≤◌, ◌+◌, ◌++◌, length, IfErr, IfOk, OnOk};
ghost use Rattle.pos_disk.specs.State.{splice};
ghost use Rattle.pos_image.specs.Layout.{disk_size};
ghost use Rattle.pos_report.specs.Salvage.{Closes, Finds, IsLeft, IsSalvaged, IsUnsalvaged, MakesSound, PutsFirst, Steps};
ghost use Rattle.pos_report.specs.Salvage.{can_be_put, cut_line, gate_of, has_first_log, is_unused, left_out, lost_line, padded};
ghost use Rattle.pos_report.specs.Salvage.{slot_start};

use crate::texts::{are_zero, put_all};
use itoa::Buffer;
use pos_survey::{Rule, Survey, SurveyFault, words_of};
use std::alloc::{AllocError, Global};

// How many bytes totals have.
const LENGTH: usize = 327_680;

// The image of new totals: an open gate, the sequence 1, and the body of no files, which has two bytes.
const FIRST_IMAGE: [u8; 15] = [0xa5, 0, 0, 0, 0, 0, 0, 0, 1, 0, 0, 0, 2, 0, 0];

/// Totals that were made of damaged ones: their bytes, and what was lost, as lines of text.
#[derive(Drop)]
pub struct Salvaged {
    /// The bytes.
    pub bytes: Vec<u8>,
    /// What was lost: a line if bytes are missing at the end, and one for each gate that was closed.
    pub lost: Vec<u8>,
}

// Where the slot begins in which a place is.
fn slot_start(at: u64) -> u64
    ensures { result ≡ slot_start at }
{
    if at < 32_768 {
        return 0;
    }
    if at < 65_536 {
        return 32_768;
    }
    if at < 196_608 {
        return 65_536;
    }
    196_608
}

// The gate of what breaks a rule at a place: of its slot, or of its record.
fn gate_of(at: u64, rule: Rule) -> u64
    ensures { result ≡ gate_of at rule }
{
    match rule {
        Rule::SameSequence | Rule::LongBody | Rule::NoFiles(_) => slot_start(at),
        _ => at,
    }
}

// What is left out if the gate is closed of what breaks a rule: an image, or a record and all after it.
fn left_out(rule: Rule) -> &'static str
    ensures { result.now ≡ left_out rule }
{
    match rule {
        Rule::SameSequence | Rule::LongBody | Rule::NoFiles(_) => {
            "; this image is left out, and the one before it is used, if there is one\n"
        }
        _ => "; this and all later changes are left out\n",
    }
}

// Puts a line on a gate that is closed at the end of a text.
fn put_lost(text: &mut Vec<u8>, at: u64, rule: Rule) -> Result<(), AllocError>
    ensures { OnOk result (text.new.items ≡ text.old.items ++ lost_line at rule) }
{
    let mut gate = Buffer::new();
    let mut place = Buffer::new();
    put_all(
        text,
        &[
            "closed gate ",
            gate.format(gate_of(at, rule)),
            ", broken at ",
            place.format(at),
            ": ",
            words_of(rule),
            left_out(rule),
        ],
    )
}

// Where totals are damaged, and by which rule, if they are.
fn find_damage(alloc: Global, bytes: &[u8]) -> Result<Option<(u64, Rule)>, SurveyFault>
    requires { disk_size ≤ length bytes.now }
    ensures { Finds bytes.now result }
{
    match Survey::of(alloc, bytes) {
        Ok(_) => Ok(None),
        Err(SurveyFault::Damaged(at, rule)) => Ok(Some((at, rule))),
        Err(fault) => Err(fault),
    }
}

// Closes the gate of what is damaged in totals, if something is, and says so. Returns whether nothing was.
fn step(alloc: Global, copy: &mut Vec<u8>, lost: &mut Vec<u8>) -> Result<bool, SurveyFault>
    requires { disk_size ≤ length copy.old.items }
    ensures { Steps copy.old.items lost.old.items result copy.new.items lost.new.items }
{
    let (at, rule) = match find_damage(alloc, copy.as_slice()) {
        Ok(Some(found)) => found,
        Ok(None) => return Ok(true),
        Err(fault) => return Err(fault),
    };
    let gate = gate_of(at, rule) as usize;
    put_lost(lost, at, rule)?;
    copy[gate] = 0;
    Ok(false)
}

// Closes the gates of what is damaged in totals, one after another, until nothing is, and says so.
fn close_gates(alloc: Global, copy: &mut Vec<u8>, lost: &mut Vec<u8>) -> Result<(), SurveyFault>
    requires { disk_size ≤ length copy.old.items }
    ensures { Closes copy.old.items lost.old.items result copy.new.items lost.new.items }
{
    // This ends: each turn leaves fewer open gates.
    while !step(alloc, copy, lost)? {}
    Ok(())
}

// Whether the slot that begins at a place never had an image.
fn is_unused(bytes: &[u8], at: usize) -> bool
    requires { at + 9 ≤ length bytes.now }
    ensures { result ≡ is_unused bytes.now at }
{
    are_zero(&bytes[at + 1..at + 9])
}

// Whether totals never had an image but their first one, and have changes behind that.
fn has_first_log(bytes: &[u8]) -> bool
    requires { disk_size ≤ length bytes.now }
    ensures { result ≡ has_first_log bytes.now }
{
    if bytes[16_384] != 0xa5 {
        return false;
    }
    if !is_unused(bytes, 32_768) {
        return false;
    }
    if !is_unused(bytes, 65_536) {
        return false;
    }
    is_unused(bytes, 196_608)
}

// Whether the image of new totals can be put again: no image is left, and there never was another.
fn can_be_put(fault: SurveyFault, bytes: &[u8]) -> bool
    requires { disk_size ≤ length bytes.now }
    ensures { result ≡ can_be_put fault bytes.now }
{
    match fault {
        SurveyFault::Unformatted => has_first_log(bytes),
        _ => false,
    }
}

// Puts bytes over those from a place on.
fn overwrite(bytes: &mut Vec<u8>, at: usize, new: &[u8])
    requires { at + length new.now ≤ length bytes.old.items }
    ensures { bytes.new.items ≡ splice bytes.old.items at new.now }
{
    bytes[at..at + new.len()].copy_from_slice(new);
}

// Puts the image of new totals into the first slot, and says so.
fn put_first_image(copy: &mut Vec<u8>, lost: &mut Vec<u8>) -> Result<(), AllocError>
    requires { disk_size ≤ length copy.old.items }
    ensures { PutsFirst copy.old.items lost.old.items result copy.new.items lost.new.items }
{
    let line =
        "put the image of new totals at 0: the file never had another; the changes behind it are kept\n";
    put_all(lost, &[line])?;
    overwrite(copy, 0, &FIRST_IMAGE);
    Ok(())
}

// Makes totals sound, and says what was lost: gates are closed of what is damaged. If no image is left then, and the
// file never had one but that of new totals, it is put again.
fn make_sound(alloc: Global, copy: &mut Vec<u8>, lost: &mut Vec<u8>) -> Result<(), SurveyFault>
    requires { disk_size ≤ length copy.old.items }
    ensures { MakesSound copy.old.items lost.old.items result copy.new.items lost.new.items }
{
    let Err(fault) = close_gates(alloc, copy, lost) else {
        return Ok(());
    };
    if !can_be_put(fault, copy.as_slice()) {
        return Err(fault);
    }
    put_first_image(copy, lost)?;
    close_gates(alloc, copy, lost)
}

// Bytes, with zero bytes behind them up to the length of totals.
fn padded(alloc: Global, bytes: &[u8]) -> Result<Vec<u8>, AllocError>
    ensures { IfOk result (λ copy. copy.items ≡ padded bytes.now) }
{
    let mut copy = Vec::from_slice(alloc, bytes)?;
    if bytes.len() < LENGTH {
        let zeros = vec![in alloc; 0; LENGTH - bytes.len()]?;
        copy.extend_from_slice(&zeros)?;
    }
    Ok(copy)
}

// A line on the bytes that are missing at the end, if some are.
fn cut_line(alloc: Global, bytes: &[u8]) -> Result<Vec<u8>, AllocError>
    ensures { IfOk result (λ text. text.items ≡ cut_line bytes.now) }
{
    let mut text = Vec::new(alloc);
    if bytes.len() < LENGTH {
        let mut place = Buffer::new();
        let parts = [
            "cut off at ",
            place.format(bytes.len()),
            ": each byte that is missing counts as 0\n",
        ];
        put_all(&mut text, &parts)?;
    }
    Ok(text)
}

/// Returns sound totals that are made of these bytes: gates are closed of what is damaged, one after another, until
/// nothing is. If no image is left then, and the file never had one but that of new totals, which has no files, it is
/// put again, so that the changes behind it count. Nothing else is changed, so each file that they hold is of an image
/// and records of these bytes. Missing bytes at the end count as 0.
///
/// # Errors
///
/// `Unformatted` if no image is left, also once that of new totals was put again where it can be; and `NoMemory`. Never
/// `Damaged`: each damage has an open gate, which is closed.
pub fn salvage_totals(alloc: Global, bytes: &[u8]) -> Result<Salvaged, SurveyFault>
    ensures ok { IfOk result (λ made. IsSalvaged bytes.now made.bytes.items made.lost.items) }
    ensures refused { IfErr result (IsUnsalvaged bytes.now) }
{
    let Ok(mut copy) = padded(alloc, bytes) else {
        return Err(SurveyFault::NoMemory);
    };
    let Ok(mut lost) = cut_line(alloc, bytes) else {
        return Err(SurveyFault::NoMemory);
    };
    make_sound(alloc, &mut copy, &mut lost)?;
    Ok(Salvaged { bytes: copy, lost })
}
