//! The calls of an application on a control.
ghost use Rattle.std.specs.Prelude.{◌≡◌};
ghost use Rattle.pos_service.specs.Calls.{own_row, row_of, needs_of};

use crate::answer::Value;
use crate::category::Category;
use crate::needs::{ClaimNeed, Needs};
use crate::property::Property;
use pos_bytes::Bytes;

/// A call of an application on one of its controls.
#[derive(Drop)]
pub enum Call {
    /// `open`: the control is for the device of this name from now on (common chapter).
    Open(Bytes),
    /// `close`: the control is for no device any more (common chapter).
    Close,
    /// `claim` with a timeout in milliseconds, or -1 for no end: it keeps other controls from the device from now on
    /// (common chapter).
    Claim(i128),
    /// `release`: other controls aren't kept from the device any more (common chapter).
    Release,
    /// Sets a property (common chapter).
    Set(Property, Value),
    /// Gets a property (common chapter).
    Get(Property),
    /// `openDrawer` (chapter Cash Drawer).
    OpenDrawer,
    /// `clearInput`: deletes the input that is held (common chapter, chapter Scanner).
    ClearInput,
    /// `clearInputProperties`: gives the properties of the last input their defaults again (common chapter, chapter
    /// Scanner).
    ClearInputProperties,
    /// `displayText` with the text and the number of its attribute: shows the text from the cursor on (chapter Line
    /// Display, as the calls below).
    DisplayText(Bytes, i128),
    /// `displayTextAt` with a row, a column, the text and the number of its attribute.
    DisplayTextAt(i128, i128, Bytes, i128),
    /// `clearText`: blanks the display.
    ClearText,
    /// `scrollText` with the number of a direction, and by how many rows or columns.
    ScrollText(i128, i128),
    /// `printNormal` with the number of a station and the text: prints it, at once or later, as AsyncMode says (chapter
    /// POS Printer, as the calls below).
    PrintNormal(i128, Bytes),
    /// `printImmediate` with the number of a station and the text: prints it before all that is queued.
    PrintImmediate(i128, Bytes),
    /// `cutPaper` with how much of the paper is cut, in percent, 0 to 100.
    CutPaper(i128),
    /// `clearOutput`: deletes all output that is queued (common chapter).
    ClearOutput,
    /// `create` with the new file's name, its size in bytes, and whether errors are to be detected, which has no effect
    /// (chapter Hard Totals, as the calls below).
    Create(Bytes, i128, bool),
    /// `delete` with the file's name.
    Delete(Bytes),
    /// `find` with the file's name.
    Find(Bytes),
    /// `findByIndex` with an index, counted from 0 in the order of creation.
    FindByIndex(i128),
    /// `read` with the file's handle, an offset from 0 and how many bytes.
    Read(i128, i128, i128),
    /// `write` with the file's handle, an offset from 0 and the bytes.
    Write(i128, i128, Bytes),
    /// `setAll` with the file's handle and a byte.
    SetAll(i128, i128),
    /// `rename` with the file's handle and its new name.
    Rename(i128, Bytes),
    /// `claimFile` with the file's handle and a timeout in milliseconds, or -1 for no end.
    ClaimFile(i128, i128),
    /// `releaseFile` with the file's handle.
    ReleaseFile(i128),
    /// `beginTrans`.
    BeginTrans,
    /// `commitTrans`.
    CommitTrans,
    /// `rollback`.
    Rollback,
}

/// What is known of a call beforehand.
#[derive(Clone, Copy, PartialEq, Eq)]
pub struct CallRow {
    /// The category that has it; none if each category has it. Such a call says by itself what it asks.
    pub category: Option<Category>,
    /// What it asks of the claim of the device.
    pub claim: ClaimNeed,
    /// Whether the device has to be enabled.
    pub is_enabled: bool,
    /// Whether it may take memory. This says no of a call that each category has: for some of them it depends on the
    /// control, and the layer above says it.
    pub takes_memory: bool,
}

/// The row of a call of a category's own.
fn own_row(category: Category, claim: ClaimNeed, is_enabled: bool, takes_memory: bool) -> CallRow
    ensures { result ≡ own_row category claim is_enabled takes_memory }
{
    CallRow {
        category: Some(category),
        claim,
        is_enabled,
        takes_memory,
    }
}

impl Call {
    /// Returns what is known of it beforehand.
    pub fn row(&self) -> CallRow
        ensures { result ≡ row_of self.now }
    {
        match self {
            Call::Open(_)
            | Call::Close
            | Call::Claim(_)
            | Call::Release
            | Call::Set(_, _)
            | Call::Get(_) => CallRow {
                category: None,
                claim: ClaimNeed::Any,
                is_enabled: false,
                takes_memory: false,
            },
            Call::OpenDrawer => own_row(Category::CashDrawer, ClaimNeed::NoOther, true, true),
            Call::ClearInput | Call::ClearInputProperties => {
                own_row(Category::Scanner, ClaimNeed::Own, false, false)
            }
            Call::DisplayText(_, _)
            | Call::DisplayTextAt(_, _, _, _)
            | Call::ClearText
            | Call::ScrollText(_, _) => own_row(Category::LineDisplay, ClaimNeed::Own, true, true),
            Call::PrintNormal(_, _) | Call::PrintImmediate(_, _) | Call::CutPaper(_) => {
                own_row(Category::PosPrinter, ClaimNeed::Own, true, true)
            }
            Call::ClearOutput => own_row(Category::PosPrinter, ClaimNeed::Own, false, false),
            Call::Create(_, _, _)
            | Call::Delete(_)
            | Call::FindByIndex(_)
            | Call::Read(_, _, _)
            | Call::Write(_, _, _)
            | Call::SetAll(_, _)
            | Call::Rename(_, _)
            | Call::CommitTrans => own_row(Category::HardTotals, ClaimNeed::NoOther, true, true),
            Call::Find(_) => own_row(Category::HardTotals, ClaimNeed::NoOther, true, false),
            Call::ClaimFile(_, _) | Call::ReleaseFile(_) | Call::BeginTrans | Call::Rollback => {
                own_row(Category::HardTotals, ClaimNeed::Any, true, false)
            }
        }
    }

    /// Returns what it asks of a control of a category before anything else, if it isn't a call that every category
    /// has.
    pub fn needs(&self, category: Category) -> Needs
        ensures { result ≡ needs_of category self.now }
    {
        let row = self.row();
        Needs {
            is_open: true,
            is_there: row.category == Some(category),
            claim: row.claim,
            is_enabled: row.is_enabled,
        }
    }
}
