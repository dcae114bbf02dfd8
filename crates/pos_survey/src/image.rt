//! Why the image of a disk is damaged, by the heads of its slots.
ghost use Rattle.std.specs.Prelude.{◌≡◌, List, ℕ};
ghost use Rattle.pos_image.specs.Layout.{first_of, layout_on};
ghost use Rattle.pos_image.specs.Slots.{HeadsAre};
ghost use Rattle.pos_image.specs.Standing.{is_tied, current_on, image_on, DamagedImage};
ghost use Rattle.pos_survey.specs.Damages.{Breaks};

use crate::fault::{Rule, SurveyFault};
use pos_image::{Heads, LENGTH, SEQUENCE, Slot};

// The slot of the current image, if there is one.
fn current_slot(heads: Heads) -> Slot
    ensures { (bytes : List ℕ) → HeadsAre bytes heads → result ≡ current_on bytes }
{
    let slot = heads.layout.first();
    if !heads.first.gate {
        return slot.other();
    }
    if !heads.second.gate {
        return slot;
    }
    if heads.second.sequence < heads.first.sequence {
        return slot;
    }
    slot.other()
}

// Whether both slots are open, with the same sequence.
fn is_tied(heads: Heads) -> bool
    ensures { (bytes : List ℕ) → HeadsAre bytes heads → result ≡ is_tied bytes (first_of (layout_on bytes)) }
{
    if !heads.first.gate {
        return false;
    }
    if !heads.second.gate {
        return false;
    }
    heads.first.sequence == heads.second.sequence
}

/// Returns the rule that the image breaks, and the place.
pub(crate) fn damage_of(heads: Heads) -> SurveyFault
    ensures { (bytes : List ℕ) → HeadsAre bytes heads → image_on bytes ≡ DamagedImage → Breaks bytes result }
{
    if is_tied(heads) {
        let at = heads.layout.first().other().start() + SEQUENCE;
        return SurveyFault::Damaged(at, Rule::SameSequence);
    }
    SurveyFault::Damaged(current_slot(heads).start() + LENGTH, Rule::LongBody)
}
