//! A reply that has begun.
ghost use Rattle.std.specs.Prelude.{◌≡◌, ◌<◌, ◌≤◌, length, true};
ghost use Rattle.pos_escpos.specs.Replies.{Reader, is_job_character, is_plain, job_number, later_received};
ghost use Rattle.pos_escpos.specs.BegunReplies.{bytes_begun, is_begun, is_begun_next, is_job_begun, is_status_begun, step_by};

use crate::statuses::{PrinterReply, automatic_status};

/// The bytes of a reply that has begun.
#[derive(Clone, Copy)]
pub(crate) enum BegunReply {
    /// None has begun.
    Nothing,
    /// One byte of an automatic status.
    Status1(u8),
    /// Two bytes of it.
    Status2(u8, u8),
    /// Three bytes of it.
    Status3(u8, u8, u8),
    /// One byte of an acknowledgement.
    Job1,
    /// Two bytes of it.
    Job2,
    /// Three bytes of it: one character of the job's number.
    Job3(u8),
    /// Four bytes of it.
    Job4(u8, u8),
    /// Five bytes of it.
    Job5(u8, u8, u8),
    /// Six bytes of it: all four characters.
    Job6(u8, u8, u8, u8),
}

/// What comes of the next byte.
#[derive(Clone, Copy)]
pub(crate) enum ByteResult {
    /// The reply is whole.
    Whole(PrinterReply),
    /// It isn't yet.
    More(BegunReply),
    /// All of it is no reply.
    Broken,
}

/// Returns whether a byte is a character of a job's number.
fn is_job_character(byte: u8) -> bool
    ensures { result ≡ is_job_character byte }
{
    64 <= byte && byte <= 79
}

/// Returns whether a byte may go on an automatic status, or be a reply to GS r.
pub(crate) fn is_plain(byte: u8) -> bool
    ensures { result ≡ is_plain byte }
{
    byte & 0x90 == 0
}

/// Returns the number of a job by its characters.
fn job_number(a: u8, b: u8, c: u8, d: u8) -> u16
    ensures { result ≡ job_number a b c d }
{
    let high = u16::from(a % 16) * 4096 + u16::from(b % 16) * 256;
    high + u16::from(c % 16) * 16 + u16::from(d % 16)
}

impl BegunReply {
    /// Returns how many bytes have come.
    pub fn len(self) -> u8
        ensures count { result ≡ length (bytes_begun self) }
        ensures most { result ≤ 6 }
    {
        match self {
            BegunReply::Nothing => 0,
            BegunReply::Status1(_) | BegunReply::Job1 => 1,
            BegunReply::Status2(_, _) | BegunReply::Job2 => 2,
            BegunReply::Status3(_, _, _) | BegunReply::Job3(_) => 3,
            BegunReply::Job4(_, _) => 4,
            BegunReply::Job5(_, _, _) => 5,
            BegunReply::Job6(_, _, _, _) => 6,
        }
    }

    /// Returns what comes of the next byte of an automatic status.
    pub fn with_status_byte(self, byte: u8) -> ByteResult
        requires begun { is_begun self ≡ true }
        requires status { is_status_begun self ≡ true }
        ensures next { (reader : Reader) →
            step_by (bytes_begun self) result reader ≡ later_received (bytes_begun self) byte reader }
        ensures begun { is_begun_next result ≡ true }
    {
        if !is_plain(byte) {
            return ByteResult::Broken;
        }
        match self {
            BegunReply::Status1(a) => ByteResult::More(BegunReply::Status2(a, byte)),
            BegunReply::Status2(a, b) => ByteResult::More(BegunReply::Status3(a, b, byte)),
            BegunReply::Status3(a, b, c) => {
                ByteResult::Whole(PrinterReply::Automatic(automatic_status(a, b, c)))
            }
            _ => ByteResult::Broken,
        }
    }

    /// Returns what comes of the next byte of an acknowledgement.
    pub fn with_job_byte(self, byte: u8) -> ByteResult
        requires job { is_job_begun self ≡ true }
        ensures next { (reader : Reader) →
            step_by (bytes_begun self) result reader ≡ later_received (bytes_begun self) byte reader }
        ensures begun { is_begun_next result ≡ true }
    {
        match self {
            BegunReply::Job1 if byte == 0x22 => ByteResult::More(BegunReply::Job2),
            BegunReply::Job2 if is_job_character(byte) => ByteResult::More(BegunReply::Job3(byte)),
            BegunReply::Job3(a) if is_job_character(byte) => ByteResult::More(BegunReply::Job4(
                a, byte,
            )),
            BegunReply::Job4(a, b) if is_job_character(byte) => ByteResult::More(BegunReply::Job5(
                a, b, byte,
            )),
            BegunReply::Job5(a, b, c) if is_job_character(byte) => {
                ByteResult::More(BegunReply::Job6(a, b, c, byte))
            }
            BegunReply::Job6(a, b, c, d) if byte == 0 => {
                ByteResult::Whole(PrinterReply::JobDone(job_number(a, b, c, d)))
            }
            _ => ByteResult::Broken,
        }
    }
}
