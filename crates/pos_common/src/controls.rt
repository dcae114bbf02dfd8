//! What comes to all controls of a device at once.
ghost use Rattle.std.specs.Prelude.{◌≡◌, ℕ, ◌+◌, All, OnOk, OnErr, IfOk};
ghost use Rattle.pos_service.specs.declared.input.Scan.{Scan};
ghost use Rattle.pos_service.specs.Controls.{all_listening, read, failed};
ghost use Rattle.pos_service.specs.Statuses.{heard_signs};
ghost use Rattle.pos_common.specs.KeptControls.{HasRoom, AreCopies, copies_from, controls_of, input_events, sign_events, fault_events};

use crate::control::{Control, INPUT_EVENTS};
use pos_service::{Bytes, NoMemory, Scan, Signs};
use std::alloc::Global;

/// Makes room for this many events in each control that has the device at a place open and enabled.
///
/// # Errors
///
/// [`NoMemory`] if memory ran out. Then nothing but such room has changed.
pub fn room_all(controls: &mut [Control], place: usize, count: usize) -> Result<(), NoMemory>
    ensures room { OnOk result (All (HasRoom place count) controls.new) }
    ensures full { OnErr result (¬ (All (HasRoom place count) controls.old)) }
    ensures same { controls_of controls.new ≡ controls_of controls.old }
{
    for control in controls.iter_mut() {
        control.room_for(place, count)?;
    }
    Ok(())
}

/// Enqueues the StatusUpdateEvents of the signs that have changed in each control that has the device at a place open
/// and enabled. The order is drawer, cover, paper, power. That of power comes only to a control that is notified of it
/// (common chapter, StatusUpdateEvent and device power reporting).
pub fn hear_all(controls: &mut [Control], place: usize, old: Signs, new: Signs)
    requires { All (HasRoom place sign_events) controls.old }
    ensures heard { controls_of controls.new ≡
        all_listening place (heard_signs old new) (controls_of controls.old) }
    ensures room { (count : ℕ) → All (HasRoom place (sign_events + count)) controls.old →
        All (HasRoom place count) controls.new }
{
    for control in controls.iter_mut() {
        control.hear(place, old, new);
    }
}

/// A copy of a scan, for one of the controls.
#[derive(Drop)]
pub(crate) struct ScanCopy {
    /// The control's number in the list of controls.
    pub(crate) control: usize,
    /// The copy.
    pub(crate) scan: Scan,
}

/// Returns copies of a scan, which has a type, all that was read, and the label. There is one for each control that has
/// the device at a place open and enabled, and the control has room for the events of an input.
///
/// # Errors
///
/// [`NoMemory`] if memory ran out. Then nothing but such room has changed.
#[tactic(auto, using(crate::proofs::KeptLemmas::same_control))]
pub(crate) fn copy_for_all(
    alloc: Global,
    controls: &mut [Control],
    place: usize,
    kind: u32,
    bytes: &Bytes,
    label: &Bytes,
) -> Result<Vec<ScanCopy>, NoMemory>
    ensures room { OnOk result (All (HasRoom place input_events) controls.new) }
    ensures copies { let scan : Scan = record { kind = kind; bytes = bytes.now; label = label.now } in
        IfOk result (λ copies. copies.items ≡ copies_from 0 scan place (controls_of controls.new)) }
    ensures same { controls_of controls.new ≡ controls_of controls.old }
{
    let mut copies = Vec::new(alloc);
    for number in 0..controls.len() {
        let control = &mut controls[number];
        if control.listens(place) {
            control.room(INPUT_EVENTS)?;
            copies.reserve(1)?;
            copies.push_reserved(ScanCopy {
                control: number,
                scan: copy_of(alloc, kind, bytes, label)?,
            });
        }
    }
    Ok(copies)
}

/// Returns a copy of a scan.
///
/// # Errors
///
/// [`NoMemory`] if memory ran out.
fn copy_of(alloc: Global, kind: u32, bytes: &Bytes, label: &Bytes) -> Result<Scan, NoMemory>
    ensures { let scan : Scan = record { kind = kind; bytes = bytes.now; label = label.now } in
        IfOk result (λ copy. copy ≡ scan) }
{
    Ok(Scan {
        kind,
        bytes: Bytes::from_slice(alloc, bytes.as_slice())?,
        label: Bytes::from_slice(alloc, label.as_slice())?,
    })
}

/// Gives each of the copies of a scan to its control (see `Control::read`).
pub(crate) fn read_all(controls: &mut [Control], copies: Vec<ScanCopy>)
    requires { (place : ℕ) × (scan : Scan) × AreCopies scan place controls.old copies.items }
    ensures { (place : ℕ) (scan : Scan) → AreCopies scan place controls.old copies.items →
        controls_of controls.new ≡ all_listening place (read scan) (controls_of controls.old) }
{
    for ScanCopy { control, scan } in copies {
        controls[control].read(scan);
    }
}

/// Puts each control that has the device at a place open and enabled into the input error state (see
/// `Control::fail_input`; common chapter, error handling).
pub(crate) fn fail_all(controls: &mut [Control], place: usize)
    requires { All (HasRoom place fault_events) controls.old }
    ensures { controls_of controls.new ≡ all_listening place failed (controls_of controls.old) }
{
    for control in controls.iter_mut() {
        control.fail_input(place);
    }
}
