//! A file of Hard Totals, and how much a directory of them may hold.
ghost use Rattle.std.specs.Prelude.{◌≡◌, ◌≤◌};
ghost use Rattle.pos_dir.specs.Files.{total_size};

use pos_bytes::Bytes;

/// A file of Hard Totals: its name and its bytes. It keeps the size with which it was created, which may be 0
/// (UnifiedPOS 1.16, Hard Totals).
#[derive(Drop)]
pub struct File {
    /// Its name: 1 to 10 bytes of 0x20 to 0x7F.
    pub name: Bytes,
    /// Its bytes.
    pub bytes: Bytes,
}

/// Returns how many bytes all files have in total.
pub(crate) fn sum_sizes(limits: Limits, files: &[File]) -> usize
    requires { total_size files.now ≤ limits.bytes }
    ensures { result ≡ total_size files.now }
{
    files.iter().map(|file| file.bytes.as_slice().len()).sum()
}

/// How much a directory may hold.
#[derive(Clone, Copy, PartialEq, Eq)]
pub struct Limits {
    /// The most bytes of all files in total.
    pub bytes: u32,
    /// The most files, at most 250.
    pub files: u16,
}

/// The limits of a totals disk of layout 1: 8,192 bytes, 64 files.
pub const LAYOUT_1: Limits = Limits {
    bytes: 8_192,
    files: 64,
};

/// The limits of a totals disk of layout 2: 65,536 bytes, 250 files. No directory has more files.
pub const LAYOUT_2: Limits = Limits {
    bytes: 65_536,
    files: 250,
};
