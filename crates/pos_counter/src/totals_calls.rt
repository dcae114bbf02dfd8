//! The calls of Hard Totals (chapter Hard Totals).
ghost use Rattle.std.specs.Prelude.{◌≡◌, true};
ghost use Rattle.pos_service.specs.declared.category.Category.TheVariants as category;
ghost use Rattle.pos_service.specs.Calls.{has_call};
ghost use Rattle.pos_counter.specs.FileCalls.{CallsFiles};

use pos_disk::Disk;
use pos_service::{Answer, Call, NoMemory};
use pos_totals::Totals;

/// Does a call of Hard Totals that the control with a number may make.
///
/// # Errors
///
/// [`NoMemory`] if memory ran out. Refused as the call's table says.
pub(crate) fn call_files<D: Disk>(
    totals: &mut Totals<D>,
    number: usize,
    call: &Call,
) -> Result<Answer, NoMemory>
    requires { has_call category.HardTotals call.now ≡ true }
    ensures { CallsFiles D.Disk totals.old number call.now result totals.new }
{
    totals.call(number, call)
}
