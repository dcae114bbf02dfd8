//! What a registry keeps of a profile's devices.
ghost use Rattle.std.specs.Prelude.{◌≡◌, IfOk};
ghost use Rattle.pos_profile.specs.Registries.{planned_of};

use crate::entry::Entry;
use pos_service::{Bytes, Kind, NoMemory};
use std::alloc::Global;

/// A device that will have a place in a registry.
#[derive(Drop)]
pub(crate) struct Planned {
    pub(crate) name: Bytes,
    pub(crate) kind: Kind,
}

/// Returns the devices that have a peripheral, in order.
pub(crate) fn plan(alloc: Global, entries: &[Entry]) -> Result<Vec<Planned>, NoMemory>
    ensures { IfOk result (λ plan. plan.items ≡ planned_of entries.now) }
{
    let mut plan = Vec::with_capacity(alloc, entries.len())?;
    for entry in entries {
        let Some(kind) = entry.kind() else {
            continue;
        };
        let name = Bytes::from_slice(alloc, entry.name.as_bytes())?;
        plan.push_reserved(Planned { name, kind });
    }
    Ok(plan)
}
