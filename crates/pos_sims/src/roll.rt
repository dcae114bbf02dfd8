//! The roll of a receipt printer.
ghost use Rattle.std.specs.Prelude.{◌≡◌, ◌≤◌, List, [], false, None, IfOk, IfSome, OnErr};
ghost use Rattle.pos_service.specs.declared.receipt_text.Piece.{Piece};
ghost use Rattle.pos_service.specs.Receipts.{Prints, empty_roll, pieces, cut_pieces, items_from, buffer_from};
ghost use Rattle.pos_sims.specs.PaperNeeds.{outcome_by};
ghost use Rattle.pos_sims.specs.Tapes.{pieces_asked};

use crate::paper_needs::request_fits;
use crate::tape::{Asked, PrintStop, Tape};
use pos_service::receipt_text::{Mark, PrintedCharacter};
use pos_service::{NoMemory, Reply};
use std::alloc::Global;
use std::marker::Model;

/// The roll of a receipt printer: what is printed on it, the line buffer, how many lines of paper are left, and whether
/// the cover is open (UnifiedPOS 1.16, chapter POS Printer). A request is printed whole or not at all.
#[derive(Drop)]
pub struct Roll {
    tape: Tape,
    left: u32,
    is_cover_open: bool,
}

impl Model for Roll {
    ghost use Rattle.pos_service.specs.Receipts.{Printer};
    ghost use Rattle.pos_sims.specs.Tapes.{printer_of};

    ghost Value = { Printer };

    ghost view = { λ roll. printer_of roll.tape roll.left roll.is_cover_open };
}

impl Roll {
    /// Returns a roll for 1 to 255 characters a line, with so many lines of paper, on which nothing is printed. The
    /// cover is closed.
    pub fn new(alloc: Global, chars: u32, lines: u32) -> Self
        requires { (1 ≤ chars) × (chars ≤ 255) }
        ensures { result ≡ empty_roll chars lines }
    {
        Roll {
            tape: Tape::new(alloc, chars as usize),
            left: lines,
            is_cover_open: false,
        }
    }

    /// Returns a roll that differs from this one only in that nothing is printed on it. It has the same line buffer.
    ///
    /// # Errors
    ///
    /// [`NoMemory`] if memory ran out.
    pub fn begun(&self, alloc: Global) -> Result<Roll, NoMemory>
        ensures { IfOk result (λ begun. begun ≡ record self.now { items = [] }) }
    {
        Ok(Roll {
            tape: self.tape.begun(alloc)?,
            left: self.left,
            is_cover_open: self.is_cover_open,
        })
    }

    /// Opens or closes the cover.
    pub fn move_cover(&mut self, is_open: bool)
        ensures { self.new ≡ record self.old { is_cover_open = is_open } }
    {
        self.is_cover_open = is_open;
    }

    /// Sets how many lines of paper are left.
    pub fn load(&mut self, lines: u32)
        ensures { self.new ≡ record self.old { left = lines } }
    {
        self.left = lines;
    }

    /// Returns the reply to each request while something hinders it: an open cover, or otherwise no line of paper left.
    fn hindrance(&self) -> Option<Reply>
        ensures hindered { (ps : List Piece) → IfSome result (λ outcome. Prints self.now ps outcome self.now) }
        ensures free { result ≡ None → (self.now.is_cover_open ≡ false) × (1 ≤ self.now.left) }
    {
        if self.is_cover_open {
            return Some(Reply::CoverOpen);
        }
        if self.left == 0 {
            return Some(Reply::PaperEnd);
        }
        None
    }

    /// Carries out a request, as `print` says.
    fn request(&mut self, asked: &Asked<'_>) -> Result<Reply, NoMemory>
        ensures outcome { IfOk result (λ outcome. Prints self.old (pieces_asked asked.now) outcome self.new) }
        ensures no_memory { OnErr result (self.new ≡ self.old) }
    {
        if let Some(outcome) = self.hindrance() {
            return Ok(outcome);
        }
        match self.tape.print(asked, self.left) {
            Ok(used) => {
                self.left -= used;
                Ok(Reply::Done)
            }
            Err(PrintStop::PaperEnd) => Ok(Reply::PaperEnd),
            Err(PrintStop::NoMemory) => Err(NoMemory),
        }
    }

    /// Prints the data of a request, all of it or nothing, and returns the reply: `CoverOpen` if the cover is open,
    /// otherwise `PaperEnd` if no line of paper is left, or fewer than the request needs, otherwise `Done`.
    ///
    /// # Errors
    ///
    /// [`NoMemory`] if memory ran out. Then nothing has changed.
    pub fn print(&mut self, bytes: &[u8]) -> Result<Reply, NoMemory>
        ensures outcome { IfOk result (λ outcome. Prints self.old (pieces bytes.now) outcome self.new) }
        ensures no_memory { OnErr result (self.new ≡ self.old) }
    {
        self.request(&Asked::Text(bytes))
    }

    /// Cuts the paper by 0 to 100 percent, which is a request with that cut alone. Its replies are those of `print`.
    ///
    /// # Errors
    ///
    /// [`NoMemory`] if memory ran out. Then nothing has changed.
    pub fn cut(&mut self, percentage: u8) -> Result<Reply, NoMemory>
        requires { percentage ≤ 100 }
        ensures outcome { IfOk result (λ outcome. Prints self.old (cut_pieces percentage) outcome self.new) }
        ensures no_memory { OnErr result (self.new ≡ self.old) }
    {
        self.request(&Asked::Cut(percentage))
    }

    /// Returns what a request would get as its reply.
    fn would(&self, asked: &Asked<'_>) -> Reply
        ensures { result ≡ outcome_by self.now (pieces_asked asked.now) }
    {
        if let Some(outcome) = self.hindrance() {
            return outcome;
        }
        let begun = self.tape.buffer_length();
        if request_fits(self.chars(), self.left, begun, asked) {
            Reply::Done
        } else {
            Reply::PaperEnd
        }
    }

    /// Returns what the data of a request would get as their reply, if memory didn't run out.
    pub fn would_print(&self, bytes: &[u8]) -> Reply
        ensures { result ≡ outcome_by self.now (pieces bytes.now) }
    {
        self.would(&Asked::Text(bytes))
    }

    /// Returns what a cut by so many percent would get as its reply, if memory didn't run out.
    pub fn would_cut(&self, percentage: u8) -> Reply
        ensures { result ≡ outcome_by self.now (cut_pieces percentage) }
    {
        self.would(&Asked::Cut(percentage))
    }

    /// Returns how many characters a line has, 1 to 255.
    pub fn chars(&self) -> u32
        ensures chars { result ≡ self.now.chars }
        ensures in_range { (1 ≤ result) × (result ≤ 255) }
    {
        self.tape.chars as u32
    }

    /// Returns how many lines of paper are left.
    pub fn lines_left(&self) -> u32
        ensures { result ≡ self.now.left }
    {
        self.left
    }

    /// Returns whether the cover is open.
    pub fn is_cover_open(&self) -> bool
        ensures { result ≡ self.now.is_cover_open }
    {
        self.is_cover_open
    }

    /// Returns what is printed, in two flat lists: the lines and the cuts, and all characters, those of the line buffer
    /// last.
    pub fn printed(&self) -> (&[Mark], &[PrintedCharacter])
        ensures items { items_from result.0.now result.1.now ≡ self.now.items }
        ensures buffer { buffer_from result.0.now result.1.now ≡ self.now.buffer }
    {
        (self.tape.marks.as_slice(), self.tape.characters.as_slice())
    }

    /// Returns the line buffer: the characters of the line that has begun.
    pub fn buffer(&self) -> &[PrintedCharacter]
        ensures { result.now ≡ self.now.buffer }
    {
        self.tape.buffer()
    }
}
