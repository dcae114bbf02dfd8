//! Totals that are made of a text.
ghost use Rattle.std.specs.Prelude.{◌≡◌, IfOk};
ghost use Rattle.pos_report.specs.Load.{Dumps, IsLoaded, is_fresh};

use crate::dump::dump_text;
use pos_dir::{Change, DirectoryFault, Group, LentBytes};
use pos_disk::{Disk, MemDisk};
use pos_image::new_disk;
use pos_store::{Store, StoreFault};
use pos_survey::{Survey, SurveyFault};
use std::alloc::{AllocError, Global};
use std::str;
use thiserror::Error;

/// Why no totals are made of a text.
#[derive(Clone, Copy, Debug, PartialEq, Eq, Error)]
pub enum LoadFault {
    /// There was no memory.
    #[error("no memory")]
    NoMemory,
    /// It isn't what a dump prints of totals.
    #[error("is no dump of totals")]
    NoDump,
}

impl From<AllocError> for LoadFault {
    ghost use Rattle.std.specs.Prelude.{◌≡◌};
    ghost use Rattle.pos_report.specs.declared.load.LoadFault.TheVariants.{NoMemory};

    ghost from_gives = { λ _ fault. fault ≡ NoMemory };

    fn from(_: AllocError) -> Self {
        LoadFault::NoMemory
    }
}

// A store's fault, as one of a text.
fn fault_of_store(fault: StoreFault) -> LoadFault {
    match fault {
        StoreFault::NoMemory => LoadFault::NoMemory,
        _ => LoadFault::NoDump,
    }
}

// A store without files, by the layout that a line names.
fn begin(alloc: Global, line: &str) -> Result<Store<MemDisk>, LoadFault> {
    let mut store = Store::new(alloc, new_disk(alloc)?);
    if let Err(fault) = store.recover() {
        return Err(fault_of_store(fault));
    }
    if line == "layout 1" {
        return Ok(store);
    }
    if line != "layout 2" {
        return Err(LoadFault::NoDump);
    }
    match store.migrate() {
        Ok(()) => Ok(store),
        Err(fault) => Err(fault_of_store(fault)),
    }
}

// The bytes that a text has in hex.
fn unhex(alloc: Global, text: &str) -> Result<Vec<u8>, LoadFault> {
    match hex::decode(alloc, text.as_bytes()) {
        Ok(bytes) => Ok(bytes),
        Err(hex::FromHexError::OutOfMemory) => Err(LoadFault::NoMemory),
        Err(_) => Err(LoadFault::NoDump),
    }
}

// What a change that isn't taken is, of a text.
fn pushed(outcome: Result<(), (DirectoryFault, Change<'_>)>) -> Result<(), LoadFault> {
    match outcome {
        Ok(()) => Ok(()),
        Err((DirectoryFault::NoMemory, _)) => Err(LoadFault::NoMemory),
        Err(_) => Err(LoadFault::NoDump),
    }
}

// Adds the file of a line, after so many others.
fn add(alloc: Global, store: &mut Store<MemDisk>, index: u16, line: &str) -> Result<(), LoadFault> {
    let Some((name, bytes)) = line.split_once('=') else {
        return Err(LoadFault::NoDump);
    };
    let name = unhex(alloc, name)?;
    let bytes = unhex(alloc, bytes)?;
    let Ok(size) = u32::try_from(bytes.len()) else {
        return Err(LoadFault::NoDump);
    };
    let mut group = Group::new(alloc);
    pushed(group.push(Change::Create {
        name: LentBytes::from_slice(&name),
        size,
    }))?;
    pushed(group.push(Change::Write {
        index,
        offset: 0,
        bytes: LentBytes::from_slice(&bytes),
    }))?;
    if group.len() == 0 {
        return Err(LoadFault::NoDump);
    }
    match store.commit(&group) {
        Ok(()) => Ok(()),
        Err(fault) => Err(fault_of_store(fault)),
    }
}

// The bytes of a disk in memory.
fn bytes_of(alloc: Global, mut disk: MemDisk) -> Result<Vec<u8>, LoadFault> {
    let mut bytes = vec![in alloc; 0; disk.len() as usize]?;
    match disk.read(0, bytes.as_mut_slice()) {
        Ok(()) => Ok(bytes),
        Err(_) => Err(LoadFault::NoMemory),
    }
}

// The bytes of totals that have the layout and the files of a text.
fn build(alloc: Global, text: &str) -> Result<Vec<u8>, LoadFault> {
    let mut lines = text.lines();
    let Some(first) = lines.next() else {
        return Err(LoadFault::NoDump);
    };
    let mut store = begin(alloc, first)?;
    let mut count: u16 = 0;
    for line in lines {
        add(alloc, &mut store, count, line)?;
        if count == u16::MAX {
            return Err(LoadFault::NoDump);
        }
        count += 1;
    }
    bytes_of(alloc, store.into_disk())
}

/// How many bytes a totals file has.
const LENGTH: usize = 327_680;

// Whether totals are as they are after each file was made by one change: none longer, and no more changes.
fn is_fresh(bytes: &[u8], survey: &Survey) -> bool
    ensures { result ≡ is_fresh bytes.now survey.now }
{
    let files = survey.directory.len();
    bytes.len() == LENGTH
        && survey.records <= files
        && survey.sequence.saturating_sub(1) <= files as u64
}

// Whether totals with these bytes are fresh, and a dump of them prints a text.
fn is_dump(alloc: Global, bytes: &[u8], text: &[u8]) -> Result<bool, LoadFault>
    ensures { IfOk result (λ is. Dumps bytes.now text.now is) }
{
    match Survey::of(alloc, bytes) {
        Ok(survey) => {
            let dumped = dump_text(alloc, &survey)?;
            Ok(is_fresh(bytes, &survey) && dumped.as_slice() == text)
        }
        Err(SurveyFault::NoMemory) => Err(LoadFault::NoMemory),
        Err(_) => Ok(false),
    }
}

/// Returns the bytes of sound totals of which a dump prints this very text. They have as many bytes as a totals file,
/// and each file is made by one change.
///
/// # Errors
///
/// `NoDump` if the totals that are made of it have another dump, or none can be made, and `NoMemory`.
pub fn load_totals(alloc: Global, text: &[u8]) -> Result<Vec<u8>, LoadFault>
    ensures { IfOk result (λ bytes. IsLoaded text.now bytes.items) }
{
    let Ok(lines) = str::from_utf8(text) else {
        return Err(LoadFault::NoDump);
    };
    let bytes = build(alloc, lines)?;
    if is_dump(alloc, &bytes, text)? {
        return Ok(bytes);
    }
    Err(LoadFault::NoDump)
}
