//! What a printer tells of itself, and what the bits of its replies mean.
ghost use Rattle.std.specs.Prelude.{◌≡◌};
ghost use Rattle.pos_escpos.specs.Replies.{automatic_status, has_bits, now_status, order_status, paper_by, paper_if_empty, status_of};

use crate::printer_commands::{NowStatus, OrderStatus};
use pos_service::PaperLevel;

/// What a printer tells of itself. What a reply doesn't tell is `None`.
#[derive(Clone, Copy, PartialEq, Eq)]
pub struct Status {
    /// Whether pin 3 of the drawer connector is high.
    pub is_pin_high: Option<bool>,
    /// Whether the printer is offline, for whatever cause.
    pub is_offline: Option<bool>,
    /// Whether its cover is open.
    pub is_cover_open: Option<bool>,
    /// How much paper it has.
    pub paper: Option<PaperLevel>,
    /// Whether it has a fault: of its cutter, one that lasts, or one that it recovers from.
    pub has_fault: Option<bool>,
}

/// A reply of a printer.
#[derive(Clone, Copy, PartialEq, Eq)]
pub enum PrinterReply {
    /// An automatic status.
    Automatic(Status),
    /// The reply to DLE EOT.
    Now(NowStatus, Status),
    /// The reply to GS r.
    InOrder(OrderStatus, Status),
    /// All before the end of the job with this number is printed.
    JobDone(u16),
}

/// What comes of a byte.
#[derive(Clone, Copy, PartialEq, Eq)]
pub struct Received {
    /// How many bytes turned out to be no reply, up to this one.
    pub skipped: u8,
    /// The reply that ends with it.
    pub reply: Option<PrinterReply>,
}

impl PrinterReply {
    /// Returns what it tells of the printer. An acknowledgement tells nothing.
    pub fn status(self) -> Option<Status>
        ensures { result ≡ status_of self }
    {
        match self {
            PrinterReply::Automatic(status)
            | PrinterReply::Now(_, status)
            | PrinterReply::InOrder(_, status) => Some(status),
            PrinterReply::JobDone(_) => None,
        }
    }
}

/// Returns whether one of these bits is set.
pub(crate) fn has_bits(mask: u8, byte: u8) -> bool
    ensures { result ≡ has_bits mask byte }
{
    byte & mask != 0
}

/// Returns how much paper two sensors see.
fn paper_by(is_end: bool, is_near: bool) -> PaperLevel
    ensures { result ≡ paper_by is_end is_near }
{
    if is_end {
        return PaperLevel::Empty;
    }
    if is_near {
        return PaperLevel::NearEnd;
    }
    PaperLevel::Good
}

/// Returns no paper, or `None` if it isn't known how much there is.
fn paper_if_empty(is_end: bool) -> Option<PaperLevel>
    ensures { result ≡ paper_if_empty is_end }
{
    if is_end {
        Some(PaperLevel::Empty)
    } else {
        None
    }
}

/// What a reply tells that tells nothing.
const UNTOLD: Status = Status {
    is_pin_high: None,
    is_offline: None,
    is_cover_open: None,
    paper: None,
    has_fault: None,
};

/// Returns what a reply to DLE EOT tells.
pub(crate) fn now_status(asked: NowStatus, byte: u8) -> Status
    ensures { result ≡ now_status asked byte }
{
    match asked {
        NowStatus::Printer => Status {
            is_pin_high: Some(has_bits(0x04, byte)),
            is_offline: Some(has_bits(0x08, byte)),
            ..UNTOLD
        },
        NowStatus::OfflineCause => Status {
            is_cover_open: Some(has_bits(0x04, byte)),
            paper: paper_if_empty(has_bits(0x20, byte)),
            has_fault: Some(has_bits(0x40, byte)),
            ..UNTOLD
        },
        NowStatus::Fault => Status {
            has_fault: Some(has_bits(0x68, byte)),
            ..UNTOLD
        },
        NowStatus::Paper => Status {
            paper: Some(paper_by(has_bits(0x60, byte), has_bits(0x0C, byte))),
            ..UNTOLD
        },
    }
}

/// Returns what a reply to GS r tells.
pub(crate) fn order_status(asked: OrderStatus, byte: u8) -> Status
    ensures { result ≡ order_status asked byte }
{
    match asked {
        OrderStatus::Paper => Status {
            paper: Some(paper_by(has_bits(0x0C, byte), has_bits(0x03, byte))),
            ..UNTOLD
        },
        OrderStatus::Drawer => Status {
            is_pin_high: Some(has_bits(0x01, byte)),
            ..UNTOLD
        },
    }
}

/// Returns what the first three bytes of an automatic status tell. The fourth tells nothing.
pub(crate) fn automatic_status(first: u8, second: u8, third: u8) -> Status
    ensures { result ≡ automatic_status first second third }
{
    Status {
        is_pin_high: Some(has_bits(0x04, first)),
        is_offline: Some(has_bits(0x08, first)),
        is_cover_open: Some(has_bits(0x20, first)),
        paper: Some(paper_by(has_bits(0x0C, third), has_bits(0x03, third))),
        has_fault: Some(has_bits(0x68, second)),
    }
}
