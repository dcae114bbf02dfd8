//! What a printer has printed, and how a request is printed on it.
ghost use Rattle.std.specs.Prelude.{◌≡◌, ◌+◌, ◌≤◌, vec_len};
ghost use Rattle.pos_service.specs.Receipts.{characters_in};

use pos_service::NoMemory;
use pos_service::receipt_text::{
    Alignment, Mark, Piece, PrintedCharacter, Token, cut_of, next_character, next_token,
};
use std::alloc::Global;

/// What is printed, and the request that prints. It is in two flat lists that only grow at their ends or go back to an
/// earlier length.
#[derive(Drop)]
pub(crate) struct Tape {
    /// The characters of a line.
    pub chars: usize,
    /// The characters of all lines, and after them those of the line buffer.
    pub characters: Vec<PrintedCharacter>,
    /// The lines and the cuts.
    pub marks: Vec<Mark>,
    /// Where the line buffer begins among the characters.
    pub start: usize,
    /// Whether characters are bold.
    pub is_bold: bool,
    /// The alignment in force.
    pub alignment: Alignment,
    /// How many lines the request has used.
    pub used: u32,
    /// How many lines the request may use.
    pub limit: u32,
    ghost some: { 1 ≤ chars },
    ghost covered: { characters_in marks.items ≡ start },
    ghost within: { start ≤ vec_len characters },
    ghost most: { chars ≤ 255 },
    ghost bounded: { vec_len characters ≤ start + chars },
    ghost sparing: { used ≤ limit },
}

/// What a request asks for.
#[derive(Drop)]
pub(crate) enum Asked<'a> {
    /// The text of these bytes.
    Text(&'a [u8]),
    /// A cut of the paper by so many percent.
    Cut(u8),
}

/// Why a request stops before its end.
#[derive(Clone, Copy, PartialEq, Eq)]
pub(crate) enum PrintStop {
    /// Memory ran out.
    NoMemory,
    /// A line ends, and no line of paper is left for it.
    PaperEnd,
}

impl Tape {
    ghost use Rattle.std.specs.Prelude.{◌≡◌, [], ◌+◌, ◌-◌, ◌<◌, ◌≤◌, take, length, replicate, vec_len, Err, OnOk, OnErr, IfOk};
    ghost use Rattle.pos_service.specs.Receipts.{characters_in, plain, pieces, pieces_in};
    ghost use Rattle.pos_sims.specs.Tapes.{Adds, IsPrinted, StopsShort, add_cut, end_begun, end_full, end_line, lines_on, pieces_asked, printed_on, put_character, step, work_after, work_of};

    /// Returns a tape on which nothing is printed, with an empty line buffer.
    pub fn new(alloc: Global, chars: usize) -> Self
        requires { (1 ≤ chars) × (chars ≤ 255) }
        ensures made { printed_on result ≡ record { items = []; buffer = [] } }
        ensures chars { result.chars ≡ chars }
    {
        Tape {
            chars,
            characters: Vec::new(alloc),
            marks: Vec::new(alloc),
            start: 0,
            is_bold: false,
            alignment: Alignment::Left,
            used: 0,
            limit: 0,
        }
    }

    /// Returns a tape with the same line buffer, on which nothing is printed.
    ///
    /// # Errors
    ///
    /// [`NoMemory`] if memory ran out.
    pub fn begun(&self, alloc: Global) -> Result<Tape, NoMemory>
        ensures made { IfOk result (λ begun.
            printed_on begun ≡ record { items = []; buffer = (printed_on self.now).buffer }) }
        ensures chars { IfOk result (λ begun. begun.chars ≡ self.now.chars) }
    {
        Ok(Tape {
            chars: self.chars,
            characters: Vec::from_slice(alloc, self.buffer())?,
            marks: Vec::new(alloc),
            start: 0,
            is_bold: false,
            alignment: Alignment::Left,
            used: 0,
            limit: 0,
        })
    }

    /// Begins a request.
    fn begin(&mut self, limit: u32)
        ensures work { work_of self.new ≡ record { style = plain; made = printed_on self.old; used = 0 } }
        ensures characters { self.new.characters ≡ self.old.characters }
        ensures marks { self.new.marks ≡ self.old.marks }
        ensures start { self.new.start ≡ self.old.start }
        ensures chars { self.new.chars ≡ self.old.chars }
        ensures limit { self.new.limit ≡ limit }
    {
        self.is_bold = false;
        self.alignment = Alignment::Left;
        self.used = 0;
        self.limit = limit;
    }

    /// Makes the line buffer a line.
    #[tactic(auto, using(crate::proofs::TapeLemmas::characters_append))]
    fn end_line(&mut self) -> Result<(), PrintStop>
        ensures ok { OnOk result (work_of self.new ≡ end_line (work_of self.old)) }
        ensures empty { OnOk result (vec_len self.new.characters ≡ self.new.start) }
        ensures paper { StopsShort result self.old.limit (end_line (work_of self.old)).used }
        ensures adds { Adds self.old self.new }
    {
        if self.used >= self.limit {
            return Err(PrintStop::PaperEnd);
        }
        let end = self.characters.len();
        match self
            .marks
            .push(Mark::Line(self.alignment, end - self.start))
        {
            Ok(()) => {
                self.start = end;
                self.used += 1;
                Ok(())
            }
            Err(_) => Err(PrintStop::NoMemory),
        }
    }

    /// Makes the line buffer a line, if it has begun.
    fn end_begun(&mut self) -> Result<(), PrintStop>
        ensures ok { OnOk result (work_of self.new ≡ end_begun (work_of self.old)) }
        ensures paper { StopsShort result self.old.limit (end_begun (work_of self.old)).used }
        ensures adds { Adds self.old self.new }
    {
        if self.characters.len() == self.start {
            return Ok(());
        }
        self.end_line()
    }

    /// Makes the line buffer a line, if it is full.
    fn end_full(&mut self) -> Result<(), PrintStop>
        ensures ok { OnOk result (work_of self.new ≡ end_full self.old.chars (work_of self.old)) }
        ensures room { OnOk result (vec_len self.new.characters < self.new.start + self.new.chars) }
        ensures paper { StopsShort result self.old.limit (end_full self.old.chars (work_of self.old)).used }
        ensures adds { Adds self.old self.new }
    {
        if self.characters.len() - self.start < self.chars {
            return Ok(());
        }
        self.end_line()
    }

    /// Puts a character at the end of the line buffer, which isn't full.
    fn push(&mut self, character: PrintedCharacter) -> Result<(), PrintStop>
        requires { vec_len self.old.characters < self.old.start + self.old.chars }
        ensures ok { OnOk result (work_of self.new ≡ put_character character (work_of self.old)) }
        ensures err { OnErr result (result ≡ Err PrintStop.NoMemory) }
        ensures adds { Adds self.old self.new }
    {
        match self.characters.push(character) {
            Ok(()) => Ok(()),
            Err(_) => Err(PrintStop::NoMemory),
        }
    }

    /// Puts a cut after the items.
    #[tactic(auto, using(crate::proofs::TapeLemmas::items_append, crate::proofs::TapeLemmas::characters_append))]
    fn cut(&mut self, percentage: u8) -> Result<(), PrintStop>
        ensures ok { OnOk result (work_of self.new ≡ add_cut percentage (work_of self.old)) }
        ensures err { OnErr result (result ≡ Err PrintStop.NoMemory) }
        ensures adds { Adds self.old self.new }
    {
        match self.marks.push(Mark::Cut(percentage)) {
            Ok(()) => Ok(()),
            Err(_) => Err(PrintStop::NoMemory),
        }
    }

    /// Puts one character. If the line buffer is full, it begins a line of its own.
    fn lay_character(&mut self, byte: u8) -> Result<(), PrintStop>
        ensures ok { OnOk result (work_of self.new ≡ step self.old.chars (work_of self.old) (Piece.Character byte)) }
        ensures paper { StopsShort result self.old.limit
            (step self.old.chars (work_of self.old) (Piece.Character byte)).used }
        ensures adds { Adds self.old self.new }
    {
        let is_bold = self.is_bold;
        match self.end_full() {
            Ok(()) => self.push(PrintedCharacter { byte, is_bold }),
            Err(stop) => Err(stop),
        }
    }

    /// Prints one piece.
    fn lay_piece(&mut self, piece: Piece) -> Result<(), PrintStop>
        ensures ok { OnOk result (work_of self.new ≡ step self.old.chars (work_of self.old) piece) }
        ensures paper { StopsShort result self.old.limit (step self.old.chars (work_of self.old) piece).used }
        ensures adds { Adds self.old self.new }
    {
        match piece {
            Piece::Character(byte) => self.lay_character(byte),
            Piece::LineEnd => self.end_line(),
            Piece::Return => self.end_begun(),
            Piece::Cut(percentage) => match self.end_begun() {
                Ok(()) => self.cut(percentage),
                Err(stop) => Err(stop),
            },
            Piece::Bold => {
                self.is_bold = true;
                Ok(())
            }
            Piece::Align(alignment) => {
                self.alignment = alignment;
                Ok(())
            }
            Piece::Normal => {
                self.is_bold = false;
                self.alignment = Alignment::Left;
                Ok(())
            }
            Piece::OutOfRange => Ok(()),
        }
    }

    /// Prints so many line ends.
    fn end_lines(&mut self, count: u8) -> Result<(), PrintStop>
        ensures ok { OnOk result (work_of self.new ≡ work_after self.old (replicate count Piece.LineEnd)) }
        ensures paper { StopsShort result self.old.limit (work_after self.old (replicate count Piece.LineEnd)).used }
        ensures adds { Adds self.old self.new }
    {
        for _ in 0..count {
            if let Err(stop) = self.end_line() {
                return Err(stop);
            }
        }
        Ok(())
    }

    /// Prints the pieces of a token.
    fn lay_token(&mut self, token: Token) -> Result<(), PrintStop>
        ensures ok { OnOk result (work_of self.new ≡ work_after self.old (pieces_in token)) }
        ensures paper { StopsShort result self.old.limit (work_after self.old (pieces_in token)).used }
        ensures adds { Adds self.old self.new }
    {
        match token {
            Token::Nothing => Ok(()),
            Token::One(piece) => self.lay_piece(piece),
            Token::LineEnds(count) => self.end_lines(count),
        }
    }

    /// Prints all pieces of some bytes, in one pass over them.
    fn lay(&mut self, bytes: &[u8]) -> Result<(), PrintStop>
        ensures ok { OnOk result (work_of self.new ≡ work_after self.old (pieces bytes.now)) }
        ensures paper { StopsShort result self.old.limit (work_after self.old (pieces bytes.now)).used }
        ensures adds { Adds self.old self.new }
    {
        let mut rest = bytes;
        while !rest.is_empty() {
            if let Some((byte, next)) = next_character(rest) {
                if let Err(stop) = self.lay_character(byte) {
                    return Err(stop);
                }
                rest = next;
            } else {
                let (token, next) = next_token(rest);
                if let Err(stop) = self.lay_token(token) {
                    return Err(stop);
                }
                rest = next;
            }
        }
        Ok(())
    }

    /// Makes the tape as it was when it had so many characters and marks, and its line buffer began there.
    fn back_to(&mut self, characters: usize, marks: usize, start: usize)
        requires covered { characters_in (take marks self.old.marks.items) ≡ start }
        requires within { start ≤ characters }
        requires bounded { characters ≤ start + self.old.chars }
        requires no_more { characters ≤ vec_len self.old.characters }
        ensures characters { self.new.characters.items ≡ take characters self.old.characters.items }
        ensures marks { self.new.marks.items ≡ take marks self.old.marks.items }
        ensures start { self.new.start ≡ start }
        ensures chars { self.new.chars ≡ self.old.chars }
    {
        self.characters.truncate(characters);
        self.marks.truncate(marks);
        self.start = start;
    }

    /// Prints all that is asked.
    fn lay_asked(&mut self, asked: &Asked<'_>) -> Result<(), PrintStop>
        ensures ok { OnOk result (work_of self.new ≡ work_after self.old (pieces_asked asked.now)) }
        ensures paper { StopsShort result self.old.limit (work_after self.old (pieces_asked asked.now)).used }
        ensures adds { Adds self.old self.new }
    {
        match asked {
            Asked::Text(bytes) => self.lay(bytes),
            Asked::Cut(percentage) => self.lay_token(cut_of(u32::from(*percentage))),
        }
    }

    /// Prints a request, which may use so many lines, and returns how many it has used. A request that stops is undone
    /// whole.
    ///
    /// # Errors
    ///
    /// `NoMemory` if memory ran out, and `PaperEnd` if the request needs more lines.
    pub fn print(&mut self, asked: &Asked<'_>, limit: u32) -> Result<u32, PrintStop>
        ensures ok { OnOk result (IsPrinted self.old (pieces_asked asked.now) self.new) }
        ensures used { IfOk result (λ used. (used ≡ lines_on self.old (pieces_asked asked.now)) × (used ≤ limit)) }
        ensures paper { StopsShort result limit (lines_on self.old (pieces_asked asked.now)) }
        ensures err { OnErr result (printed_on self.new ≡ printed_on self.old) }
        ensures chars { self.new.chars ≡ self.old.chars }
    {
        let characters = self.characters.len();
        let marks = self.marks.len();
        let start = self.start;
        self.begin(limit);
        match self.lay_asked(asked) {
            Ok(()) => Ok(self.used),
            Err(stop) => {
                self.back_to(characters, marks, start);
                Err(stop)
            }
        }
    }

    /// Returns how many characters the line buffer has.
    pub fn buffer_length(&self) -> u32
        ensures count { result ≡ length (printed_on self.now).buffer }
        ensures within { result ≤ self.now.chars }
    {
        (self.characters.len() - self.start) as u32
    }

    /// Returns the line buffer.
    pub fn buffer(&self) -> &[PrintedCharacter]
        ensures { result.now ≡ (printed_on self.now).buffer }
    {
        &self.characters.as_slice()[self.start..]
    }
}
