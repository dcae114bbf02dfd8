//! What an order adds to a receipt, as the bytes of its printer.
ghost use Rattle.std.specs.Prelude.{◌≡◌, ◌+◌, ◌++◌, ◌<◌, ◌≤◌, ◌^◌, List, [], IfOk, OnOk, IsErrOf, length, true, false};
ghost use Rattle.pos_service.specs.Receipts.{Item, items_from};
ghost use Rattle.pos_escpos.specs.ReceiptProgress.{line_characters};
ghost use Rattle.pos_escpos.specs.declared.bytes_fault.BytesFault.TheVariants as fault;
ghost use Rattle.pos_escpos.specs.PrinterBytes.{all_fit, all_on_paper};
ghost use Rattle.pos_escpos.specs.Printers.{IsReady, Press, PrintsOnly, press_after};

use crate::bytes_fault::BytesFault;
use crate::printer_bytes::{receipt_bytes, split_line};
use crate::settings::{CutSettings, LineSettings};
use pos_service::Receipt;
use pos_service::receipt_text::{Mark, PrintedCharacter};
use std::alloc::Global;

/// How much of a receipt was sent to its printer.
#[derive(Clone, Copy, PartialEq, Eq)]
pub struct SentReceipt {
    /// How many lines and cuts.
    pub marks: usize,
    /// How many characters these lines have.
    pub characters: usize,
}

/// Returns how many characters the lines have.
fn line_characters(marks: &[Mark], characters: &[PrintedCharacter]) -> usize
    ensures count { result ≡ line_characters (items_from marks.now characters.now) }
    ensures most { result ≤ length characters.now }
{
    let mut rest = characters;
    let mut count = 0;
    for mark in marks {
        if let Mark::Line(_, len) = mark {
            let (line, after) = split_line(rest, *len);
            count += line.len();
            rest = after;
        }
    }
    count
}

impl SentReceipt {
    ghost use Rattle.pos_escpos.specs.ReceiptProgress.{Added, IsSent};

    /// Returns that nothing was sent.
    pub fn nothing() -> Self
        ensures { IsSent [] result }
    {
        SentReceipt {
            marks: 0,
            characters: 0,
        }
    }

    /// Returns what the receipt has more than was sent.
    fn unsent<'a>(self, receipt: &'a Receipt) -> (&'a [Mark], &'a [PrintedCharacter])
        ensures items { (added : List Item) → Added receipt.now.items self added →
            items_from result.0.now result.1.now ≡ added }
        ensures marks { (added : List Item) → Added receipt.now.items self added →
            self.marks + length result.0.now < 2 ^ 64 }
        ensures characters { (added : List Item) → Added receipt.now.items self added →
            self.characters + length result.1.now < 2 ^ 64 }
    {
        let (marks, characters) = receipt.printed();
        let (_, marks) = marks.split_at(self.marks.min(marks.len()));
        let (_, characters) = characters.split_at(self.characters.min(characters.len()));
        (marks, characters)
    }

    /// Returns that these were sent too.
    fn and(self, marks: &[Mark], characters: &[PrintedCharacter]) -> SentReceipt
        ensures { (before : List Item) → IsSent before self → self.marks + length marks.now < 2 ^ 64 →
            self.characters + length characters.now < 2 ^ 64 →
            IsSent (before ++ items_from marks.now characters.now) result }
    {
        let count = line_characters(marks, characters);
        SentReceipt {
            marks: self.marks.saturating_add(marks.len()),
            characters: self.characters.saturating_add(count),
        }
    }

    /// Returns the bytes of what the receipt has more than was sent, for its printer, and how much is sent with them.
    ///
    /// The line buffer isn't sent: it is sent with its line. Send the bytes to a printer that is ready, as it is after
    /// [`crate::start_bytes`] and after all bytes of this function.
    ///
    /// # Errors
    ///
    /// Those of [`receipt_bytes`].
    pub fn added_bytes(
        self,
        alloc: Global,
        line: LineSettings,
        cut: CutSettings,
        receipt: &Receipt,
    ) -> Result<(Vec<u8>, SentReceipt), BytesFault>
        // A ready printer prints what was added since, and nothing else.
        ensures prints { (added : List Item) → Added receipt.now.items self added →
            IfOk result (λ made. (press : Press) → IsReady press →
            PrintsOnly press (all_on_paper cut added) (press_after line.width press made.0.items)) }
        // All is sent with them.
        ensures sent { (added : List Item) → Added receipt.now.items self added →
            IfOk result (λ made. IsSent receipt.now.items made.1) }
        ensures fit { (added : List Item) → Added receipt.now.items self added →
            OnOk result (all_fit line.columns added ≡ true) }
        ensures misfit { (added : List Item) → Added receipt.now.items self added →
            IsErrOf result fault.Misfit → all_fit line.columns added ≡ false }
    {
        let (marks, characters) = self.unsent(receipt);
        match receipt_bytes(alloc, line, cut, marks, characters) {
            Ok(bytes) => Ok((bytes, self.and(marks, characters))),
            Err(fault) => Err(fault),
        }
    }
}
