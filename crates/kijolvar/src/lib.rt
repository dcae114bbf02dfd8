//! The library `kijolvar`: a till for C, and for each language that calls C. Lines go in, and the text of their answers
//! comes out. docs/reference/console.md has the lines, abi/README.md the calls.
//!
//! - [`Till`] is what C holds between calls, and [`Slot`] the variable that it holds it in. Behind them is a
//!   [`Session`].
//! - [`TillDisk`] is the disk of a till: in memory, or in a file of the host, who does its [`errands::Errand`]s.
//! - [`Device`] is a device of a till. The host may have the hardware, and then gets the orders that the device carries
//!   out. Of a driven device it reports what became of an order, and only then the order is answered.
//! - Each export answers a code of `codes`.
//!
//! The caller relies on this: lines do to the till what the standard asks, and no line is answered before what it
//! changed is in the host's file. Until then a crash leaves of the file what a step of the lines may leave. In return
//! the caller passes the till that it was given last.
#![tactic(auto)]

ghost use Rattle.std.specs.Prelude.{◌≡◌, ◌≢◌, IfOk, MatchOption, MatchResult, None, Some};
ghost use Rattle.pos_disk.specs.Memory.{fresh, state_of};
ghost use Rattle.pos_image.specs.Standing.{HasNoFiles};
ghost use Rattle.pos_run.specs.Names.{names_of, number_named};
ghost use Rattle.kijolvar.specs.Codes.{ok};
ghost use Rattle.kijolvar.specs.Controls.{FindsNumber, NextEvent};
ghost use Rattle.kijolvar.specs.Errands.{no_work};
ghost use Rattle.kijolvar.specs.DeviceTexts.{AnswersDevices};
ghost use Rattle.kijolvar.specs.Hosts.{Drives, IsHostCode};
ghost use Rattle.kijolvar.specs.LineAnswers.{Answers};
ghost use Rattle.kijolvar.specs.Mistakes.{AnswersMistake};
ghost use Rattle.kijolvar.specs.NextOrders.{NextOrder};
ghost use Rattle.kijolvar.specs.Openings.{AnswersMove, AnswersOpening, IsFormattedOf, IsMovedOf, Opens};
ghost use Rattle.kijolvar.specs.Openings.{format_code, open_code};
ghost use Rattle.kijolvar.specs.Paper.{TearsOff};
ghost use Rattle.kijolvar.specs.Profiles.{GivesProfile, IsRefused, RefusesProfile};
ghost use Rattle.kijolvar.specs.Reports.{AnswersReport};
ghost use Rattle.kijolvar.specs.Surveys.{AnswersSurvey};
ghost use Rattle.kijolvar.specs.Tills.{Begins, Fails, HandsOver, AnswersNextErrand};
ghost use Rattle.kijolvar.specs.TillDisks.{hosted};
ghost use Rattle.kijolvar.specs.WireCalls.{AnswersOrderBytes, AnswersReplies};

mod answers;
mod codes;
mod controls;
mod device;
mod device_texts;
mod disk;
mod driven_lines;
mod errands;
mod held_lines;
mod host_file;
mod hosted_devices;
mod mistakes;
mod order_queue;
mod orders;
mod paper;
mod raw_box;
mod reports;
mod session;
mod surveys;
mod till;
mod till_disk;
mod till_state;
mod wire_calls;

use answers::write_text;
use codes::{BAD_PROFILE, DISK_FAILED, NO_MEMORY, OK, TOO_SMALL, UNDONE};
use device::Device;
use device_texts::devices_text;
use disk::{SIZE, format_in_file, move_in_file};
use mistakes::write_mistake;
use pos_disk::Disk;
use pos_drive::Awaits;
use pos_image::new_disk;
use pos_profile::{Profile, ProfileFault};
use pos_service::{NoMemory, Peripheral};
use pos_wire::WireSettings;
use reports::report;
use session::Session;
use std::alloc::Global;
use std::str;
use surveys::write_survey;
use till::{Slot, Till, hold, put, take};
use till_disk::{Settlement, TillDisk};

/// Returns the version of this interface. It changes if a call's meaning or its parameters change, but not with the
/// language of the lines.
#[unsafe(no_mangle)]
pub extern "C" fn kijolvar_version() -> u32
    ensures { result ≡ 2 }
{
    2
}

/// Returns the profile of a text, the built-in one if the text is empty.
#[tactic(auto, using(crate::proofs::ProfileLemmas::sound_isnt_refused))]
fn read_profile(alloc: Global, bytes: &[u8]) -> Result<Profile, u32>
    ensures { let profile = bytes.entry.now in MatchResult result
        (λ contents. GivesProfile profile contents × ¬ (IsRefused profile)) (RefusesProfile profile) }
{
    if bytes.is_empty() {
        return match Profile::built(alloc) {
            Ok(profile) => Ok(profile),
            Err(_) => Err(NO_MEMORY),
        };
    }
    let Ok(text) = str::from_utf8(bytes) else {
        return Err(BAD_PROFILE);
    };
    match Profile::from_text(alloc, text) {
        Ok(profile) => Ok(profile),
        Err(ProfileFault::NoMemory) => Err(NO_MEMORY),
        Err(_) => Err(BAD_PROFILE),
    }
}

/// Leaves a session to C.
fn leave(session: Box<Session>, out: &mut Slot)
    ensures { out.new.left ≡ Some session.value }
{
    *out = put(hold(session));
}

/// Returns a new session of a profile over a disk.
fn begin(alloc: Global, profile: Profile, disk: TillDisk) -> Result<Box<Session>, NoMemory>
    ensures { IfOk result (λ session. Begins ⟦<Device as Peripheral>⟧ profile disk session.value) }
{
    let session = Session::new(alloc, profile, disk)?;
    match Box::new(alloc, session) {
        Ok(till_state) => Ok(till_state),
        Err(_) => Err(NoMemory),
    }
}

/// Makes a new till over the devices of a profile, which are simulated, with totals on a formatted disk in memory.
/// Writes the till to `out`, and returns OK. The profile is TOML (docs/reference/profile.md); an empty one is the
/// built-in profile.
///
/// # Errors
///
/// - BAD_PROFILE if the profile is refused. `kijolvar_profile_mistake` says why.
/// - NO_MEMORY if memory ran out.
///
/// Then nothing is written.
#[unsafe(no_mangle)]
pub extern "C" fn kijolvar_open(alloc: Global, profile: &[u8], out: &mut Slot) -> u32
    ensures code { AnswersOpening profile.now ok result }
    ensures opened { result ≡ ok → MatchOption out.new.left ⊥ (Opens ⟦<Device as Peripheral>⟧ profile.now
        (λ disk. HasNoFiles (state_of disk.memory) × (disk.work ≡ None))) }
    ensures refused { result ≢ ok → out.new ≡ out.old }
{
    let profile = match read_profile(alloc, profile) {
        Ok(profile) => profile,
        Err(code) => return code,
    };
    let Ok(memory) = new_disk(alloc) else {
        return NO_MEMORY;
    };
    let Ok(session) = begin(alloc, profile, TillDisk::in_memory(memory)) else {
        return NO_MEMORY;
    };
    leave(session, out);
    OK
}

/// Makes a new till as `kijolvar_open` does, but with totals in a file, which has these bytes. Writes the till to
/// `out`, and returns OK.
///
/// The host must keep the file open for writing as long as the till is there, let nobody else write it, and do in it
/// what the till's disk does, errand by errand (`kijolvar_next_errand`). The totals of a file that is not formatted
/// (`kijolvar_format_file`, or the program's `format`) can't be enabled.
///
/// # Errors
///
/// - BAD_PROFILE if the profile is refused.
/// - TOO_SMALL if the file has fewer than 327,680 bytes.
/// - NO_MEMORY if memory ran out.
///
/// Then nothing is written.
#[unsafe(no_mangle)]
pub extern "C" fn kijolvar_open_file(
    alloc: Global,
    profile: &[u8],
    bytes: &[u8],
    out: &mut Slot,
) -> u32
    ensures code { AnswersOpening profile.now (open_code bytes.now) result }
    ensures opened { result ≡ ok → MatchOption out.new.left ⊥ (Opens ⟦<Device as Peripheral>⟧ profile.now
        (λ disk. disk ≡ hosted (fresh bytes.now) (Some (no_work bytes.now)))) }
    ensures refused { result ≢ ok → out.new ≡ out.old }
{
    let profile = match read_profile(alloc, profile) {
        Ok(profile) => profile,
        Err(code) => return code,
    };
    if bytes.len() < SIZE {
        return TOO_SMALL;
    }
    let Ok(disk) = TillDisk::in_file(alloc, bytes) else {
        return NO_MEMORY;
    };
    let Ok(session) = begin(alloc, profile, disk) else {
        return NO_MEMORY;
    };
    leave(session, out);
    OK
}

/// Makes a new till as `kijolvar_open_file` does, over a file that has no totals yet, of at least 327,680 bytes. Writes
/// the till to `out`, and returns OK. The totals have no files (docs/reference/totals-file.md, "Formatting"). What
/// formatting writes are the till's first errands.
///
/// # Errors
///
/// - BAD_PROFILE if the profile is refused.
/// - TOO_SMALL if the file has fewer bytes, and FORMATTED if it has totals.
/// - NO_MEMORY if memory ran out.
///
/// Then nothing is written, and the file stays as it is.
#[unsafe(no_mangle)]
pub extern "C" fn kijolvar_format_file(
    alloc: Global,
    profile: &[u8],
    bytes: &[u8],
    out: &mut Slot,
) -> u32
    ensures code { AnswersOpening profile.now (format_code bytes.now) result }
    ensures opened { result ≡ ok → MatchOption out.new.left ⊥ (Opens ⟦<Device as Peripheral>⟧ profile.now
        (IsFormattedOf bytes.now)) }
    ensures refused { result ≢ ok → out.new ≡ out.old }
{
    let profile = match read_profile(alloc, profile) {
        Ok(profile) => profile,
        Err(code) => return code,
    };
    let disk = match format_in_file(alloc, bytes) {
        Ok(formatted) => formatted,
        Err(code) => return code,
    };
    let Ok(session) = begin(alloc, profile, disk) else {
        return NO_MEMORY;
    };
    leave(session, out);
    OK
}

/// Makes a new till as `kijolvar_open_file` does, over a file whose totals have layout 1. Writes the till to `out`, and
/// returns OK. The totals have layout 2 from then on, with the same files (docs/reference/totals-file.md, "The move to
/// layout 2").
///
/// What the move writes are the till's first errands. A crash at any moment of them leaves the files by one layout or
/// the other, and the file may be moved again.
///
/// # Errors
///
/// - BAD_PROFILE if the profile is refused.
/// - TOO_SMALL if the file has fewer than 327,680 bytes, UNFORMATTED if it has no totals, and DAMAGED if they are
///   damaged.
/// - MOVED if they have layout 2 already.
/// - NO_MEMORY if memory ran out.
///
/// Then nothing is written, and the file stays as it is.
#[unsafe(no_mangle)]
pub extern "C" fn kijolvar_migrate_file(
    alloc: Global,
    profile: &[u8],
    bytes: &[u8],
    out: &mut Slot,
) -> u32
    ensures code { AnswersMove profile.now bytes.now result }
    ensures opened { result ≡ ok → MatchOption out.new.left ⊥ (Opens ⟦<Device as Peripheral>⟧ profile.now
        (IsMovedOf bytes.now)) }
    ensures refused { result ≢ ok → out.new ≡ out.old }
{
    let profile = match read_profile(alloc, profile) {
        Ok(profile) => profile,
        Err(code) => return code,
    };
    let disk = match move_in_file(alloc, bytes) {
        Ok(moved) => moved,
        Err(code) => return code,
    };
    let Ok(session) = begin(alloc, profile, disk) else {
        return NO_MEMORY;
    };
    leave(session, out);
    OK
}

/// Writes why a profile is refused to `text`, as the program `pos_console` gives it, without a line feed, and to
/// `needed` how many bytes the reason has. Returns OK if the profile isn't refused.
///
/// # Errors
///
/// - BAD_TEXT if it isn't UTF-8, or no TOML document. `at` is the place in its bytes where reading it stopped.
/// - BAD_PROFILE if something in the document isn't sound. The reason names the entry.
/// - SHORT if `text` has less room. Then a front of the reason is there.
/// - NO_MEMORY if memory ran out.
///
/// With OK and with NO_MEMORY nothing is written.
#[unsafe(no_mangle)]
pub extern "C" fn kijolvar_profile_mistake(
    alloc: Global,
    profile: &[u8],
    at: &mut u64,
    text: &mut [u8],
    needed: &mut usize,
) -> u32
    ensures { AnswersMistake profile.now at.old at.new text.old text.new needed.old needed.new result }
{
    write_mistake(alloc, profile, at, text, needed)
}

/// Writes the devices of a profile to `text`, in its order, and to `needed` how many bytes that is. Returns OK. Each
/// device has a line: its name, its category, and the numbers of its kind after their keys, as `r1 POSPrinter chars 8
/// near 2`.
///
/// # Errors
///
/// - SHORT if `text` has less room. Then a front is there.
/// - BAD_PROFILE if the profile is refused, and NO_MEMORY if memory ran out. Then nothing is written.
#[unsafe(no_mangle)]
pub extern "C" fn kijolvar_devices(
    alloc: Global,
    profile: &[u8],
    text: &mut [u8],
    needed: &mut usize,
) -> u32
    ensures { AnswersDevices profile.now text.old text.new needed.old needed.new result }
{
    let contents = match read_profile(alloc, profile) {
        Ok(contents) => contents,
        Err(code) => return code,
    };
    match devices_text(alloc, contents.devices()) {
        Ok(lines) => write_text(&lines, OK, text, needed),
        Err(_) => NO_MEMORY,
    }
}

/// Writes what the bytes of a totals file hold to `text`, and to `needed` how many bytes that is. Returns OK. The text
/// is the lines that the program's `files` prints (docs/reference/console.md, "What a totals file holds").
///
/// # Errors
///
/// - DAMAGED if the bytes break a rule. `text` says which, and `at` where.
/// - SHORT if `text` has less room for either. Then a front is there.
/// - UNFORMATTED if they have no totals, TOO_SMALL if they are fewer than 327,680, and NO_MEMORY if memory ran out.
///   Then nothing is written.
#[unsafe(no_mangle)]
pub extern "C" fn kijolvar_survey(
    alloc: Global,
    bytes: &[u8],
    at: &mut u64,
    text: &mut [u8],
    needed: &mut usize,
) -> u32
    ensures { AnswersSurvey bytes.now at.old at.new text.old text.new needed.old needed.new result }
{
    write_survey(alloc, bytes, at, text, needed)
}

/// Carries out lines and writes their answer, if no errand is left and none failed.
fn serve(session: &mut Session, lines: &[u8], text: &mut [u8], needed: &mut usize) -> u32
    ensures { Answers ⟦<TillDisk as Disk>⟧ ⟦<Device as Awaits>⟧.course ⟦<Device as Peripheral>⟧ session.old lines.now
        text.old text.new needed.old needed.new result session.new }
{
    match session.settlement() {
        Settlement::Owed => UNDONE,
        Settlement::Failed => DISK_FAILED,
        Settlement::InMemory | Settlement::Settled => {
            let taken = session.run_text(lines);
            session.answer(taken, text, needed)
        }
    }
}

/// Carries out the lines of a text, each whole before the next. Writes to `text` what they print, and to `needed` how
/// many bytes that is, and returns OK. What is after the last line feed is a line too. The till is what is written to
/// `out` from then on.
///
/// # Errors
///
/// - SHORT if `text` has less room. All lines were carried out, a front of the answer is in `text`, and
///   `kijolvar_answer` writes all of it.
/// - CUT if memory ran out for what a line prints. That line was carried out, and no later one, and a front of the
///   answer is kept.
///
/// Of a till with a driven device (`kijolvar_drive`) also:
///
/// - WAITS if a line waits for an order of the device. The lines before it were carried out, and `text` has their
///   answer. It and the lines after it are held, and go on with `kijolvar_order_done`.
/// - WAITS also if lines of an earlier call are held. Nothing was carried out or written.
/// - NO_MEMORY if memory ran out for the lines. Nothing was carried out, and `needed` is 0. If it ran out for a line
///   later, the answer of those before it is in `text`, and it and the lines after it are held.
///
/// Of a till over a file also:
///
/// - ERRANDS if the lines were carried out, and their answer is kept until the host has done its errands. Nothing is
///   written.
/// - UNDONE if errands of earlier lines are left. Nothing was carried out or written.
/// - DISK_FAILED if one of them failed. Nothing was carried out or written.
/// - DISK_FAILED also if memory ran out for an errand of these lines. What they changed may not be in the file.
#[unsafe(no_mangle)]
pub extern "C" fn kijolvar_carry_out(
    till: Till,
    out: &mut Slot,
    lines: &[u8],
    text: &mut [u8],
    needed: &mut usize,
) -> u32
    ensures { MatchOption out.new.left ⊥ (Answers ⟦<TillDisk as Disk>⟧ ⟦<Device as Awaits>⟧.course
        ⟦<Device as Peripheral>⟧ till.session lines.now text.old text.new needed.old needed.new result) }
{
    let mut session = take(till);
    let code = serve(&mut session, lines, text, needed);
    leave(session, out);
    code
}

/// Writes the answer to the lines that were carried out last to `text`, as far as it was kept, and to `needed` how many
/// bytes it has. Returns OK. Nothing is carried out. The till is what is written to `out` from then on.
///
/// # Errors
///
/// - SHORT if `text` has less room, and CUT as `kijolvar_carry_out` has it. Then a front of the answer is there.
/// - WAITS and NO_MEMORY if lines are held. Then the answer of those before them is there.
/// - ERRANDS if errands are left, and DISK_FAILED if one failed. Then nothing is written.
#[unsafe(no_mangle)]
pub extern "C" fn kijolvar_answer(
    till: Till,
    out: &mut Slot,
    text: &mut [u8],
    needed: &mut usize,
) -> u32
    ensures till { out.new.left ≡ Some till.session }
    ensures answer { HandsOver till.session text.old text.new needed.old needed.new result }
{
    let session = take(till);
    let code = session.hand_over(text, needed);
    leave(session, out);
    code
}

/// Gives the host the next thing to do to its file. The errand before it is done when the host calls this. The till is
/// what is written to `out` from then on. Returns one of these:
///
/// - WRITE: `needed` bytes, which are in `bytes`, go to the place `at`, counted from 0.
/// - SYNC: what was written must stay.
/// - OK: no errand is left.
///
/// # Errors
///
/// - SHORT if `bytes` has less room than `needed` says. The errand stays the next one, and nothing else is written.
/// - DISK_FAILED if an errand failed.
#[unsafe(no_mangle)]
pub extern "C" fn kijolvar_next_errand(
    till: Till,
    out: &mut Slot,
    at: &mut u64,
    bytes: &mut [u8],
    needed: &mut usize,
) -> u32
    ensures { MatchOption out.new.left ⊥ (AnswersNextErrand till.session at.old at.new bytes.old bytes.new needed.old
        needed.new result) }
{
    let mut session = take(till);
    let code = session.next_errand(at, bytes, needed);
    leave(session, out);
    code
}

/// Notes that an errand failed. What the till's lines changed may or may not be in the file, and none of them is
/// answered. The till can only be closed. A new till over the file finds what is there. A till in memory stays as it
/// is. The till is what is written to `out` from then on.
#[unsafe(no_mangle)]
pub extern "C" fn kijolvar_errand_failed(till: Till, out: &mut Slot)
    ensures { MatchOption out.new.left ⊥ (Fails till.session) }
{
    let mut session = take(till);
    session.fail();
    leave(session, out);
}

/// Notes that the host has the hardware of the device of this name, and returns OK. Each order that the device carries
/// out from now on is kept for the host, which passes it to its hardware (`kijolvar_next_order`), while the simulated
/// device answers for it. What happens at the hardware the host says by `input` lines. A host may call this again. The
/// till is what is written to `out` from then on.
///
/// # Errors
///
/// NO_DEVICE if the profile has no device of the name, or it is one of Hard Totals, and NO_MEMORY if memory ran out.
/// Then nothing changes.
#[unsafe(no_mangle)]
pub extern "C" fn kijolvar_host(till: Till, out: &mut Slot, name: &[u8]) -> u32
    ensures till { out.new.left ≡ Some till.session }
    ensures code { IsHostCode till.session.profile.devices name.now result }
{
    let session = take(till);
    let code = session.host(name);
    leave(session, out);
    code
}

/// Makes each order of the device of this name wait for the host from now on, and returns OK. A line that orders
/// something is answered only after the host has passed the order to its hardware (`kijolvar_next_order`) and reported
/// what became of it (`kijolvar_order_done`). An order that the simulated device would refuse is refused at once. The
/// host may call this again, and may have called `kijolvar_host` before, which has no effect then. The till is what is
/// written to `out` from then on.
///
/// # Errors
///
/// NO_DEVICE if the profile has no device of the name, it is one of Hard Totals, its line is `flaky`, or it is
/// detached. Then nothing changes.
#[unsafe(no_mangle)]
pub extern "C" fn kijolvar_drive(till: Till, out: &mut Slot, name: &[u8]) -> u32
    ensures { MatchOption out.new.left ⊥
        (Drives ⟦<Device as Awaits>⟧.course ⟦<Device as Peripheral>⟧ till.session name.now result) }
{
    let mut session = take(till);
    let code = session.drive(name);
    leave(session, out);
    code
}

/// Removes the oldest order of the devices that the host has, and writes its line to `text` and to `needed` how many
/// bytes it has. Returns ORDER; or OK if no order is left, and `needed` is 0. The line has the device's name, the
/// order's word and its arguments (abi/README.md). The till is what is written to `out` from then on.
///
/// The order of a driven device comes after all others, and once. The host owes a report of it
/// (`kijolvar_order_done`).
///
/// # Errors
///
/// - SHORT if `text` has less room than `needed` says. The order stays the next one, and nothing else is written.
/// - ERRANDS if errands are left, and DISK_FAILED if one failed. Then nothing is written.
/// - NO_MEMORY if memory ran out for the line of a driven device. Then nothing is written.
#[unsafe(no_mangle)]
pub extern "C" fn kijolvar_next_order(
    till: Till,
    out: &mut Slot,
    text: &mut [u8],
    needed: &mut usize,
) -> u32
    ensures { MatchOption out.new.left ⊥ (NextOrder ⟦<Device as Awaits>⟧.course ⟦<Device as Peripheral>⟧ till.session
        text.old text.new needed.old needed.new result) }
{
    let mut session = take(till);
    let code = session.next_order(text, needed);
    leave(session, out);
    code
}

/// Reports the order of a driven device that the host has: `outcome` is 0 if the hardware has done it, and any other
/// number if not. The line that waits for it goes on, and then the others that are held, up to one that waits again. It
/// writes to `text` what these lines print, and to `needed` how many bytes that is, and returns OK. The till is what is
/// written to `out` from then on.
///
/// `inputs` are `input` lines, which say what happened at the hardware meanwhile. If the order is done, they are
/// carried out after its line. If it isn't, they are carried out first: then the line is answered as the device stands,
/// such as with an open cover, or it fails (E_FAILURE) if they don't say why.
///
/// # Errors
///
/// - SHORT, CUT, ERRANDS and DISK_FAILED as `kijolvar_carry_out` has them. After CUT no line is held.
/// - WAITS if the next line waits for an order. `text` has the answer of the lines before it.
/// - NO_MEMORY if memory ran out. The answer of the lines that went on is in `text`: no bytes if none did. The host may
///   make the same call again: a report that was taken is kept, and isn't taken twice.
/// - NO_ORDER if the host has no order of a driven device. Nothing was carried out or written.
#[unsafe(no_mangle)]
pub extern "C" fn kijolvar_order_done(
    till: Till,
    out: &mut Slot,
    outcome: u32,
    inputs: &[u8],
    text: &mut [u8],
    needed: &mut usize,
) -> u32
    ensures { MatchOption out.new.left ⊥ (AnswersReport ⟦<TillDisk as Disk>⟧ ⟦<Device as Awaits>⟧.course
        ⟦<Device as Peripheral>⟧ till.session outcome inputs.now text.old text.new needed.old needed.new result) }
{
    let mut session = take(till);
    let code = report(&mut session, outcome, inputs, text, needed);
    leave(session, out);
    code
}

/// Takes the printed paper of the device of this name away, and returns OK. A printer keeps no line and no cut then,
/// only the line that has begun, and a `show` line shows it so; another device stays as it is. A till keeps all that a
/// printer prints until the host does this, which it may do after each receipt. The till is what is written to `out`
/// from then on.
///
/// # Errors
///
/// NO_DEVICE if the profile has no device of the name, it is one of Hard Totals, or it is detached, and NO_MEMORY if
/// memory ran out. Then nothing changes.
#[unsafe(no_mangle)]
pub extern "C" fn kijolvar_tear_off(till: Till, out: &mut Slot, name: &[u8]) -> u32
    ensures { MatchOption out.new.left ⊥
        (TearsOff ⟦<Device as Awaits>⟧.course ⟦<Device as Peripheral>⟧ till.session name.now result) }
{
    let mut session = take(till);
    let code = session.tear_off(name);
    leave(session, out);
    code
}

/// Writes the bytes of the pending order of a driven device to `bytes`, and to `needed` how many they are, and returns
/// OK. It is the order that waits, or that the host has. Send them to the hardware as they are (abi/README.md, "Bytes
/// of orders"). This changes nothing of the till. The till is what is written to `out` from then on.
///
/// - `settings` say what the hardware is. Only those of the device's kind count.
/// - `is_new` is 1 if these are the first bytes of a connection, or if a line failed before: the hardware is started
///   then, and a display gets all its rows. Otherwise it is 0.
/// - `end` is what is asked of a printer behind the bytes: 0 to 65,535 the acknowledgement of a job of this number,
///   65,536 its paper (GS r 1), 65,537 its drawer (GS r 2), and 65,538 or more nothing.
///
/// # Errors
///
/// - SHORT if `bytes` has less room. Then only `needed` is written.
/// - NO_ORDER if no order is pending, or the order has no bytes for hardware of its kind.
/// - BAD_SETTINGS if a setting of the device's kind is out of its range.
/// - NO_MEMORY if memory ran out.
///
/// But for SHORT nothing is written then.
#[unsafe(no_mangle)]
pub extern "C" fn kijolvar_order_bytes(
    till: Till,
    out: &mut Slot,
    settings: &WireSettings,
    is_new: u32,
    end: u32,
    bytes: &mut [u8],
    needed: &mut usize,
) -> u32
    ensures till { out.new.left ≡ Some till.session }
    ensures bytes { AnswersOrderBytes ⟦<Device as Awaits>⟧.course till.session settings.now is_new end bytes.old
        bytes.new needed.old needed.new result }
{
    let session = take(till);
    let code = session.order_bytes(settings, is_new, end, bytes, needed);
    leave(session, out);
    code
}

/// Reads bytes that a printer sent, up to the end of the first reply. Writes the reply's lines to `text`, and to
/// `needed` how many bytes they have, 0 if no reply ends in these bytes. Returns OK. `name` is the printer's device, or
/// that of the drawer on its connector. This changes nothing of the till. The till is what is written to `out` from
/// then on.
///
/// - `asked` is what the printer was asked before: 1 to 4 DLE EOT of this number, 5 GS r 1, 6 GS r 2, and 0 nothing.
/// - `used` says how many bytes were read, with the reply. Pass the others again, with what comes behind them.
/// - `skipped` says how many of those are no reply.
///
/// The lines are `input` lines by which the device becomes what the printer says, and then `status` with what it says;
/// or `job` and a number, if all of that job is printed (abi/README.md, "Bytes of orders").
///
/// # Errors
///
/// - SHORT if `text` has less room. Then only `needed` is written, and no byte is used.
/// - NO_DEVICE if the profile has no printer or drawer of the name, or it is detached.
/// - BAD_SETTINGS if a setting of the device's kind is out of its range.
/// - NO_MEMORY if memory ran out.
///
/// But for SHORT nothing is written then.
#[unsafe(no_mangle)]
pub extern "C" fn kijolvar_replies(
    till: Till,
    out: &mut Slot,
    name: &[u8],
    settings: &WireSettings,
    asked: u32,
    bytes: &[u8],
    used: &mut usize,
    skipped: &mut usize,
    text: &mut [u8],
    needed: &mut usize,
) -> u32
    ensures till { out.new.left ≡ Some till.session }
    ensures reply { AnswersReplies ⟦<Device as Peripheral>⟧ till.session settings.now name.now asked bytes.now used.old
        used.new skipped.old skipped.new text.old text.new needed.old needed.new result }
{
    let session = take(till);
    let code = session.replies(name, settings, asked, bytes, used, skipped, text, needed);
    leave(session, out);
    code
}

/// Writes the number of the control of this name to `control`, and returns OK. The controls of a till are numbered from
/// 0, in the order of their `new` lines that were answered `ok`. The till is what is written to `out` from then on.
///
/// # Errors
///
/// NO_CONTROL if no control has the name. Then nothing is written.
#[unsafe(no_mangle)]
pub extern "C" fn kijolvar_control(
    till: Till,
    out: &mut Slot,
    name: &[u8],
    control: &mut usize,
) -> u32
    ensures till { out.new.left ≡ Some till.session }
    ensures number { FindsNumber (number_named (names_of till.session.names) name.now) control.old control.new
        result }
{
    let session = take(till);
    let code = session.find_number(name, control);
    leave(session, out);
    code
}

/// Writes the lowest number, `from` or above, of a control that has an event to deliver to `control`, and returns
/// EVENT; or returns OK if no such control has one. A `deliver` line of that control gives the event. This changes
/// nothing of the till. The till is what is written to `out` from then on.
///
/// # Errors
///
/// ERRANDS if errands are left, and DISK_FAILED if one failed. Then nothing is written, and neither with OK.
#[unsafe(no_mangle)]
pub extern "C" fn kijolvar_next_event(
    till: Till,
    out: &mut Slot,
    from: usize,
    control: &mut usize,
) -> u32
    ensures till { out.new.left ≡ Some till.session }
    ensures event { NextEvent ⟦<Device as Peripheral>⟧ till.session from control.old control.new result }
{
    let session = take(till);
    let code = session.next_event(from, control);
    leave(session, out);
    code
}

/// Closes a till, its totals at rest. Errands and orders that are left are dropped.
#[unsafe(no_mangle)]
pub extern "C" fn kijolvar_close(till: Till) {
    drop(take(till));
}
