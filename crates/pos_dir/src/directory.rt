//! The files of Hard Totals, in memory.
ghost use Rattle.std.specs.Prelude.{◌≡◌, ◌≤◌, [], length, slice_get};
ghost use Rattle.std.specs.Option.{option_copied, option_map};
ghost use Rattle.pos_dir.specs.declared.file.TheConstants.{LAYOUT_2};
ghost use Rattle.pos_dir.specs.Files.{AreWider, directory_of, index_of, total_size};

use crate::file::{File, Limits, sum_sizes};
use std::alloc::Global;
use std::marker::Model;

/// The files of Hard Totals in index order, which is the order of their creation (UnifiedPOS 1.16, Hard Totals).
///
/// A name has 1 to 10 bytes of 0x20 to 0x7F, and no two names are the same. There are no more files, and no more bytes
/// in total, than the limits allow. Contracts see the limits and the list of the files.
#[derive(Drop)]
pub struct Directory {
    pub(crate) limits: Limits,
    pub(crate) files: Vec<File>,
}

impl Model for Directory {
    ghost use Rattle.pos_dir.specs.Files.{DirectoryView, IsHeld, directory_of};

    ghost Value = { DirectoryView };

    ghost view = { λ directory. directory_of directory.limits directory.files.items };

    ghost invariant = { λ directory. IsHeld directory.limits directory.files.items };
}

impl Directory {
    /// Returns a directory without files, within limits of at most 250 files.
    pub fn new(alloc: Global, limits: Limits) -> Self
        requires { limits.files ≤ LAYOUT_2.files }
        ensures { result ≡ directory_of limits [] }
    {
        Directory {
            limits,
            files: Vec::new(alloc),
        }
    }

    /// Gives the same files wider limits, of at most 250 files. It takes no memory.
    pub fn widen(&mut self, limits: Limits)
        requires few { limits.files ≤ LAYOUT_2.files }
        requires wider { AreWider self.old.limits limits }
        ensures { self.new ≡ directory_of limits self.old.files }
    {
        self.limits = limits;
    }

    /// Returns how many files there are (property NumberOfFiles).
    pub fn len(&self) -> usize
        ensures { result ≡ length self.now.files }
    {
        self.files.len()
    }

    /// Returns how many bytes all files have in total.
    pub fn size(&self) -> usize
        ensures { result ≡ total_size self.now.files }
    {
        sum_sizes(self.limits, &self.files)
    }

    /// Returns the name of the file at an index, or `None` if no file has the index.
    pub fn name(&self, index: usize) -> Option<&[u8]>
        ensures { option_copied result ≡ option_map (λ file. file.name) (slice_get self.now.files index) }
    {
        let file = self.files.get(index)?;
        Some(file.name.as_slice())
    }

    /// Returns the bytes of the file at an index, or `None` if no file has the index.
    pub fn bytes(&self, index: usize) -> Option<&[u8]>
        ensures { option_copied result ≡ option_map (λ file. file.bytes) (slice_get self.now.files index) }
    {
        let file = self.files.get(index)?;
        Some(file.bytes.as_slice())
    }

    /// Returns the index of the file with a name, or `None` if no file has the name.
    pub fn index_of(&self, name: &[u8]) -> Option<usize>
        ensures { result ≡ index_of self.now.files name.now }
    {
        self.files
            .iter()
            .position(|file| file.name.as_slice() == name)
    }
}
