//! The files of the totals as calls see them, with their handles and claims.
ghost use Rattle.std.specs.Prelude.{◌≡◌, ◌≤◌, pos, length, position, IfSome, slice_get, nat_eq};
ghost use Rattle.std.specs.Option.{option_map};
ghost use Rattle.pos_dir.specs.declared.file.TheConstants.{LAYOUT_2};
ghost use Rattle.pos_totals.specs.TotalsFiles.{is_named, is_called, free_data, has_room};
ghost use Rattle.pos_totals.specs.HardTotals.{totals_limits};
ghost use Rattle.pos_totals.specs.Groups.{index_of};
ghost use Rattle.pos_totals.specs.Checks.{files_in, limits_in, file_of, AreFiles, FindsFile, IsSeen};
ghost use Rattle.pos_totals.specs.Views.{HasDirectory, IsSound, mode_of};

use crate::handles::FileTag;
use crate::totals::Holdings;
use pos_dir::Directory;
use pos_dir::laws::is_directory;
use pos_disk::Disk;
use pos_image::Layout;
use pos_service::numbers::to_natural;
use pos_store::{Store, limits_of};

/// The files of the totals that are ready.
#[derive(Clone, Copy)]
pub(crate) struct Files<'a> {
    /// The layout of their disk.
    pub layout: Layout,
    /// Their names and bytes.
    pub directory: &'a Directory,
    /// Their handles and claims, in index order.
    pub tags: &'a [FileTag],
}

/// A file that was found.
#[derive(Clone, Copy)]
pub(crate) struct FoundFile<'a> {
    /// Its index, from 0.
    pub index: u16,
    /// Its handle.
    pub handle: u64,
    /// Its name.
    pub name: &'a [u8],
    /// Its bytes.
    pub bytes: &'a [u8],
    /// The control that has claimed it, if one has.
    pub claim: Option<usize>,
}

/// Returns the files of a store that is ready, with their tags, or `None` while it is off.
pub(crate) fn see_files<'a, D: Disk>(
    store: &'a Store<D>,
    holdings: &'a Holdings,
) -> Option<Files<'a>>
    requires { IsSound store.now.layout store.now.state holdings.now }
    ensures seen { IsSeen (mode_of holdings.now.handles.given store.now.state) (option_map files_in result) }
    ensures files { IfSome result AreFiles }
    ensures layout { IfSome result (λ files. files.layout ≡ holdings.now.layout) }
    ensures directory { HasDirectory holdings.now.layout store.now.state }
{
    let Some(directory) = store.files() else {
        return None;
    };
    is_directory(directory);
    Some(Files {
        layout: holdings.layout,
        directory,
        tags: holdings.handles.as_slice(),
    })
}

/// Returns the file at an index, if there is one.
#[tactic(auto, using(crate::proofs::PairLemmas::placed))]
pub(crate) fn get_file<'a>(files: Files<'a>, index: usize) -> Option<FoundFile<'a>>
    requires { AreFiles files }
    ensures file { option_map file_of result ≡ slice_get (files_in files.entry) index }
    ensures index { IfSome result (λ found. found.index ≡ index) }
    ensures small { IfSome result (λ found. length found.bytes.now ≤ LAYOUT_2.bytes) }
{
    if index >= files.tags.len() {
        return None;
    }
    let Some(name) = files.directory.name(index) else {
        return None;
    };
    let Some(bytes) = files.directory.bytes(index) else {
        return None;
    };
    let tag = files.tags[index];
    Some(FoundFile {
        index: index as u16,
        handle: tag.handle,
        name,
        bytes,
        claim: tag.claim,
    })
}

/// Returns the file with a name, if there is one.
#[tactic(auto, using(crate::proofs::SearchLemmas::searched))]
pub(crate) fn find_name<'a>(files: Files<'a>, name: &[u8]) -> Option<FoundFile<'a>>
    requires { AreFiles files }
    ensures { FindsFile (is_named name.now) (files_in files.entry) result }
{
    match files.directory.index_of(name) {
        Some(index) => get_file(files, index),
        None => None,
    }
}

/// Returns the file with a handle, if there is one.
pub(crate) fn find_handle<'a>(files: Files<'a>, handle: i128) -> Option<FoundFile<'a>>
    requires { AreFiles files }
    ensures finds { FindsFile (is_called handle) (files_in files.entry) result }
    ensures called { IfSome result (λ found. handle ≡ pos found.handle) }
{
    let Some(handle) = to_natural(handle) else {
        return None;
    };
    find_number(files, handle)
}

// Returns the file with a handle that isn't below 0.
#[tactic(auto, using(crate::proofs::SearchLemmas::searched))]
fn find_number<'a>(files: Files<'a>, handle: u128) -> Option<FoundFile<'a>>
    requires { AreFiles files }
    ensures { FindsFile (is_called (pos handle)) (files_in files.entry) result }
{
    match search(files.tags, handle) {
        Some(index) => get_file(files, index),
        None => None,
    }
}

/// Returns the index of the file with a handle, or the number of files if there is none.
#[tactic(auto, using(crate::proofs::SearchLemmas::searched))]
pub(crate) fn find_index(files: Files<'_>, handle: u64) -> u16
    requires { AreFiles files }
    ensures { result ≡ index_of (is_called (pos handle)) (files_in files.entry) }
{
    match search(files.tags, handle as u128) {
        Some(index) => index as u16,
        None => files.tags.len() as u16,
    }
}

// Returns the index of a handle.
fn search(tags: &[FileTag], handle: u128) -> Option<usize>
    ensures { result ≡ position (λ tag. nat_eq tag.handle handle) tags.now }
{
    tags.iter().position(|tag| tag.handle as u128 == handle)
}

/// Returns FreeData: how many bytes are left for new files.
#[tactic(auto, using(crate::proofs::GroupLemmas::paired_size))]
pub(crate) fn measure_free(files: Files<'_>) -> usize
    requires { AreFiles files }
    ensures { result ≡ free_data (limits_in files.entry) (files_in files.entry) }
{
    totals_size(files.layout) - files.directory.size()
}

/// Returns NumberOfFiles.
#[tactic(auto, using(crate::proofs::PairLemmas::paired))]
pub(crate) fn count_files(files: Files<'_>) -> usize
    requires { AreFiles files }
    ensures { result ≡ length (files_in files.entry) }
{
    files.directory.len()
}

/// Returns whether there is room for one more file, of `size` bytes.
pub(crate) fn has_room(files: Files<'_>, size: u128) -> bool
    requires { AreFiles files }
    ensures { result ≡ has_room (limits_in files.entry) (files_in files.entry) (pos size) }
{
    size <= measure_free(files) as u128 && count_files(files) < most_files(files.layout)
}

/// Returns TotalsSize on a disk of a layout: the most bytes of all files in total. A transaction may cost as much.
pub(crate) fn totals_size(layout: Layout) -> usize
    ensures { result ≡ (totals_limits layout).bytes }
{
    limits_of(layout).bytes as usize
}

// Returns the most files on a disk of a layout.
fn most_files(layout: Layout) -> usize
    ensures { result ≡ (totals_limits layout).files }
{
    limits_of(layout).files as usize
}
