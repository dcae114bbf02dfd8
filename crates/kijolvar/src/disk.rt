//! The disks that tills begin with.
ghost use Rattle.std.specs.Prelude.{◌≡◌, ◌≢◌, ◌⊎◌, MatchResult, Some, false};
ghost use Rattle.kijolvar.specs.Codes.{no_memory, ok};
ghost use Rattle.kijolvar.specs.Openings.{IsFormattedOf, IsMovedOf, RefusesMove, RefusesTotals, disk_in_file};
ghost use Rattle.kijolvar.specs.Openings.{format_code, move_code};
ghost use Rattle.pos_disk.specs.Memory.{fresh};
ghost use Rattle.kijolvar.specs.Errands.{no_work};
ghost use Rattle.kijolvar.specs.TillDisks.{IsInStep, fixed_of, hosted, settlement_with};
ghost use Rattle.kijolvar.specs.declared.till_disk.Settlement.TheVariants.{Owed};

use crate::codes::{DAMAGED, FORMATTED, MOVED, NO_MEMORY, TOO_SMALL, UNFORMATTED};
use crate::till_disk::{Settlement, TillDisk};
use pos_image::{ImageFault, Images};
use pos_program::migrate_disk;
use pos_store::StoreFault;
use std::alloc::Global;

/// How many bytes the disk of the totals has.
pub(crate) const SIZE: usize = 327_680;

/// Returns the disk of a file of these bytes, formatted: its totals have no files. What formatting writes are errands
/// of the host.
///
/// # Errors
///
/// - TOO_SMALL if the file has fewer than 327,680 bytes, and FORMATTED if it has totals.
/// - NO_MEMORY if memory ran out.
pub(crate) fn format_in_file(alloc: Global, bytes: &[u8]) -> Result<TillDisk, u32>
    ensures { MatchResult result
        (λ formatted. (format_code bytes.now ≡ ok) × IsFormattedOf bytes.now formatted)
        (λ code. (code ≡ no_memory) ⊎ ((code ≡ format_code bytes.now) × (code ≢ ok))) }
{
    match TillDisk::in_file(alloc, bytes) {
        Ok(disk) => format_disk(disk),
        Err(_) => Err(NO_MEMORY),
    }
}

// Formats a disk that has the bytes of its host's file, in which no errand was done, and returns it. What formatting
// writes are errands of the host.
fn format_disk(disk: TillDisk) -> Result<TillDisk, u32>
    ensures { let bytes = disk.memory.present.reading in fixed_of disk ≡ fixed_of (disk_in_file bytes) →
        MatchResult result
        (λ formatted. (format_code bytes ≡ ok) × IsFormattedOf bytes formatted)
        (λ code. (code ≡ no_memory) ⊎ ((code ≡ format_code bytes) × (code ≢ ok))) }
{
    match Images::format(disk) {
        Ok(formatted) => {
            formatted.is_in_step();
            if formatted.settlement(false) == Settlement::Owed {
                Ok(formatted)
            } else {
                Err(NO_MEMORY)
            }
        }
        Err((ImageFault::AlreadyFormatted, _)) => Err(FORMATTED),
        Err((ImageFault::TooSmall, _)) => Err(TOO_SMALL),
        Err((_, _)) => Err(NO_MEMORY),
    }
}

// Returns the code for why totals aren't moved to layout 2.
fn move_code(why: StoreFault) -> u32
    ensures { result ≡ move_code why }
{
    match why {
        StoreFault::Unformatted => UNFORMATTED,
        StoreFault::Damaged => DAMAGED,
        StoreFault::AlreadyLayout2 => MOVED,
        _ => NO_MEMORY,
    }
}

/// Returns the disk of a file of these bytes, whose files are by layout 2 then. What the move writes are errands of the
/// host.
///
/// # Errors
///
/// - TOO_SMALL if the file has fewer than 327,680 bytes, UNFORMATTED if it has no totals, and DAMAGED if they are
///   damaged.
/// - MOVED if they have layout 2 already.
/// - NO_MEMORY if memory ran out.
pub(crate) fn move_in_file(alloc: Global, bytes: &[u8]) -> Result<TillDisk, u32>
    ensures { MatchResult result (IsMovedOf bytes.now) (RefusesMove bytes.now) }
{
    if bytes.len() < SIZE {
        return Err(TOO_SMALL);
    }
    match TillDisk::in_file(alloc, bytes) {
        Ok(disk) => move_disk(alloc, disk),
        Err(_) => Err(NO_MEMORY),
    }
}

// Returns the disk, if its host has errands. If it has none, one was lost because memory ran out.
fn with_errands(disk: TillDisk) -> Result<TillDisk, u32>
    ensures { MatchResult result
        (λ same. (same ≡ disk) × IsInStep disk × (settlement_with disk.work false ≡ Owed))
        (λ code. code ≡ no_memory) }
{
    disk.is_in_step();
    if disk.settlement(false) == Settlement::Owed {
        Ok(disk)
    } else {
        Err(NO_MEMORY)
    }
}

// Moves the totals on a disk that has the bytes of its host's file, and returns it. What the move writes are errands of
// the host.
fn move_disk(alloc: Global, disk: TillDisk) -> Result<TillDisk, u32>
    ensures { let bytes = disk.memory.present.reading in disk ≡ hosted (fresh bytes) (Some (no_work bytes))
        → MatchResult result (IsMovedOf bytes) (λ code. (code ≡ no_memory) ⊎ RefusesTotals bytes code) }
{
    let (moved, outcome) = migrate_disk(alloc, disk);
    match outcome {
        Ok(()) => with_errands(moved),
        Err(why) => Err(move_code(why)),
    }
}
