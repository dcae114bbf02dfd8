//! What a control asks of a peripheral, and what that replies.
ghost use Rattle.std.specs.Prelude.{◌≡◌, ◌↔◌, ◌&&◌, Some, true, IfOk, nat_le};
ghost use Rattle.std.specs.List.{filter_map};
ghost use Rattle.pos_service.specs.Codes.{code_by, extended_by};
ghost use Rattle.pos_service.specs.Displays.{is_cursor_place, is_display_text, most_units};
ghost use Rattle.pos_service.specs.Kinds.{columns_of, rows_of};
ghost use Rattle.pos_service.specs.Peripherals.{order_arguments, order_fits, order_word, place_at};

use crate::code::{Code, EPTR_COVER_OPEN, EPTR_REC_EMPTY};
use crate::display_text::{Attribute, Direction, is_text_of_display};
use crate::faults::NoMemory;
use crate::kind::{Kind, columns_of, rows_of};
use crate::receipt_text::is_printable;
use pos_bytes::{Bytes, LentBytes};
use std::alloc::Global;

/// What a control asks of a peripheral.
#[derive(Drop)]
pub enum Order {
    /// Opens a drawer (chapter Cash Drawer).
    OpenDrawer,
    /// Shows a text with an attribute on a display (chapter Line Display).
    ShowText {
        /// The row where it begins, from 0.
        row: u32,
        /// The column where it begins, from 0: at most one right of the last column.
        column: u32,
        /// How it is shown.
        attribute: Attribute,
        /// The text.
        bytes: Bytes,
    },
    /// Blanks a display (chapter Line Display).
    ClearText,
    /// Moves what a display shows (chapter Line Display).
    Scroll {
        /// Where it moves.
        direction: Direction,
        /// By how many rows or columns: at most all.
        units: u32,
    },
    /// Prints a text (chapter POS Printer).
    Print {
        /// The text, at most 4,096 bytes.
        bytes: Bytes,
    },
    /// Cuts the paper of a printer (chapter POS Printer).
    Cut {
        /// How much of the paper, 0 to 100 percent.
        percentage: u8,
    },
}

impl Order {
    /// Returns whether a peripheral of this kind takes it.
    pub fn fits(&self, kind: Kind) -> bool
        ensures { result ≡ order_fits kind self.now }
    {
        match self {
            Order::OpenDrawer => kind.is_drawer(),
            Order::ShowText {
                row,
                column,
                attribute: _,
                bytes,
            } => kind.is_display() && text_fits(kind, *row, *column, bytes.as_slice()),
            Order::ClearText => kind.is_display(),
            Order::Scroll { direction, units } => {
                kind.is_display() && units_fit(kind, *direction, *units)
            }
            Order::Print { bytes } => kind.is_printer() && is_printable(bytes.as_slice()),
            Order::Cut { percentage } => kind.is_printer() && *percentage <= 100,
        }
    }

    /// Returns the word for it: the method that asks for it.
    pub fn word(&self) -> &'static str
        ensures { result.now ≡ order_word self.now }
    {
        match self {
            Order::OpenDrawer => "openDrawer",
            Order::ShowText { .. } => "displayTextAt",
            Order::ClearText => "clearText",
            Order::Scroll { .. } => "scrollText",
            Order::Print { .. } => "print",
            Order::Cut { .. } => "cutPaper",
        }
    }

    /// Returns what follows its word, in the method's order. If it has fewer arguments, the rest are `None`.
    pub fn arguments(&self) -> [Option<Argument<'_>>; 4]
        ensures { filter_map (λ given. given) result ≡ order_arguments self.now }
    {
        match self {
            Order::OpenDrawer | Order::ClearText => [None, None, None, None],
            Order::ShowText {
                row,
                column,
                attribute,
                bytes,
            } => [
                Some(Argument::Number(*row)),
                Some(Argument::Number(*column)),
                Some(Argument::Bytes(LentBytes::from_slice(bytes.as_slice()))),
                Some(Argument::Number(attribute.number())),
            ],
            Order::Scroll { direction, units } => [
                Some(Argument::Number(direction.number())),
                Some(Argument::Number(*units)),
                None,
                None,
            ],
            Order::Print { bytes } => [
                Some(Argument::Bytes(LentBytes::from_slice(bytes.as_slice()))),
                None,
                None,
                None,
            ],
            Order::Cut { percentage } => {
                [
                    Some(Argument::Number(u32::from(*percentage))),
                    None,
                    None,
                    None,
                ]
            }
        }
    }

    /// Returns a copy of it.
    ///
    /// # Errors
    ///
    /// [`NoMemory`] if memory ran out.
    pub fn copy(&self, alloc: Global) -> Result<Order, NoMemory>
        ensures { IfOk result (λ copy. copy ≡ self.now) }
    {
        match self {
            Order::OpenDrawer => Ok(Order::OpenDrawer),
            Order::ShowText {
                row,
                column,
                attribute,
                bytes,
            } => Ok(Order::ShowText {
                row: *row,
                column: *column,
                attribute: *attribute,
                bytes: Bytes::from_slice(alloc, bytes.as_slice())?,
            }),
            Order::ClearText => Ok(Order::ClearText),
            Order::Scroll { direction, units } => Ok(Order::Scroll {
                direction: *direction,
                units: *units,
            }),
            Order::Print { bytes } => Ok(Order::Print {
                bytes: Bytes::from_slice(alloc, bytes.as_slice())?,
            }),
            Order::Cut { percentage } => Ok(Order::Cut {
                percentage: *percentage,
            }),
        }
    }

    /// Returns whether another order is the same.
    pub fn is_same(&self, other: &Order) -> bool
        ensures { (result ≡ true) ↔ (self.now ≡ other.now) }
    {
        match (self, other) {
            (Order::OpenDrawer, Order::OpenDrawer) => true,
            (
                Order::ShowText {
                    row,
                    column,
                    attribute,
                    bytes,
                },
                Order::ShowText {
                    row: other_row,
                    column: other_column,
                    attribute: other_attribute,
                    bytes: other_bytes,
                },
            ) => {
                *row == *other_row
                    && *column == *other_column
                    && *attribute == *other_attribute
                    && bytes.as_slice() == other_bytes.as_slice()
            }
            (Order::ClearText, Order::ClearText) => true,
            (
                Order::Scroll { direction, units },
                Order::Scroll {
                    direction: other_direction,
                    units: other_units,
                },
            ) => *direction == *other_direction && *units == *other_units,
            (Order::Print { bytes }, Order::Print { bytes: other_bytes }) => {
                bytes.as_slice() == other_bytes.as_slice()
            }
            (
                Order::Cut { percentage },
                Order::Cut {
                    percentage: other_percentage,
                },
            ) => *percentage == *other_percentage,
            _ => false,
        }
    }
}

/// An argument of an order, after its word.
#[derive(Drop)]
pub enum Argument<'a> {
    /// A number, as the method takes it.
    Number(u32),
    /// The bytes of a text.
    Bytes(LentBytes<'a>),
}

/// Whether a display of this kind shows such a text from a row and a column on.
fn text_fits(kind: Kind, row: u32, column: u32, bytes: &[u8]) -> bool
    ensures { result ≡
        (is_cursor_place (rows_of (Some kind)) (columns_of (Some kind)) (place_at row column)
        && is_display_text bytes.now) }
{
    row < rows_of(Some(kind)) && column <= columns_of(Some(kind)) && is_text_of_display(bytes)
}

/// Whether a display of this kind scrolls so far in a direction.
fn units_fit(kind: Kind, direction: Direction, units: u32) -> bool
    ensures { result ≡ nat_le units (most_units (rows_of (Some kind)) (columns_of (Some kind)) direction) }
{
    units <= direction.most_units(rows_of(Some(kind)), columns_of(Some(kind)))
}

/// What a peripheral replies to an order.
#[derive(Clone, Copy, PartialEq, Eq)]
pub enum Reply {
    /// It is done.
    Done,
    /// A printer's cover is open, and nothing was done.
    CoverOpen,
    /// A printer has too little paper, and nothing was done.
    PaperEnd,
    /// The line to the peripheral failed, and nothing was done.
    LineFault,
    /// The peripheral is off, and nothing was done.
    Offline,
}

impl Reply {
    /// Returns the result code that it means: E_EXTENDED for an open cover and too little paper, E_FAILURE for a line
    /// that failed, E_OFFLINE for a peripheral that is off.
    pub fn code(self) -> Code
        ensures { result ≡ code_by self }
    {
        match self {
            Reply::Done => Code::Success,
            Reply::CoverOpen | Reply::PaperEnd => Code::Extended,
            Reply::LineFault => Code::Failure,
            Reply::Offline => Code::Offline,
        }
    }

    /// Returns the extended code with it: EPTR_COVER_OPEN or EPTR_REC_EMPTY with E_EXTENDED, otherwise 0.
    pub fn extended(self) -> u32
        ensures { result ≡ extended_by self }
    {
        match self {
            Reply::Done | Reply::LineFault | Reply::Offline => 0,
            Reply::CoverOpen => EPTR_COVER_OPEN,
            Reply::PaperEnd => EPTR_REC_EMPTY,
        }
    }
}
