//! The rules of a directory's spelling.
use thiserror::Error;

/// A rule of a directory's spelling that bytes break. docs/reference/totals-file.md, "The layouts".
#[derive(Clone, Copy, Debug, PartialEq, Eq, Error)]
pub enum Flaw {
    /// There are more files than the limits allow.
    #[error("there are too many files")]
    TooManyFiles,
    /// There are more bytes in the files than the limits allow.
    #[error("the files have too many bytes")]
    TooManyBytes,
    /// A name isn't 1 to 10 bytes of 0x20 to 0x7F.
    #[error("a name is bad")]
    BadName,
    /// Two files have one name.
    #[error("two files have one name")]
    NameTwice,
    /// Bytes are missing at the end.
    #[error("bytes are missing")]
    BytesMissing,
    /// Bytes are left over after the last file.
    #[error("bytes are left over")]
    BytesLeft,
}
