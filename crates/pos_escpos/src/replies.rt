//! The replies of a printer, read byte by byte.
ghost use Rattle.std.specs.Prelude.{◌≡◌, ℕ, List, ◌++◌, ◌+◌, ◌<◌, ◌≤◌, ◌^◌, ◌∷◌, [], length, vec_len, true, Some, None, IfOk, OnOk, OnErr};
ghost use Rattle.std.specs.Vec.{vec_capacity};
ghost use Rattle.pos_escpos.specs.Replies.{replies_before};

use crate::begun::{BegunReply, ByteResult, is_plain};
use crate::printer_commands::{NowStatus, OrderStatus};
use crate::statuses::{PrinterReply, Received, now_status, order_status};
use std::alloc::{AllocError, Global};
use std::marker::Model;

/// Reads what a printer sends, byte by byte. Contracts see what was asked, and the bytes of a reply that has begun.
///
/// It finds automatic statuses and acknowledgements by themselves. A reply to DLE EOT or GS r doesn't say what was
/// asked, so it is found only after [`ReplyReader::expect_now`] or [`ReplyReader::expect_in_order`].
#[derive(Drop)]
pub struct ReplyReader {
    asked_now: Option<NowStatus>,
    asked_in_order: Option<OrderStatus>,
    begun: BegunReply,
}

impl Model for ReplyReader {
    ghost use Rattle.std.specs.Prelude.{◌≡◌, true};
    ghost use Rattle.pos_escpos.specs.Replies.{Reader};
    ghost use Rattle.pos_escpos.specs.BegunReplies.{bytes_begun, is_begun};

    ghost Value = { Reader };

    ghost view = { λ r. record {
      asked_now = r.asked_now;
      asked_in_order = r.asked_in_order;
      begun = bytes_begun r.begun;
    } };

    ghost invariant = { λ r. is_begun r.begun ≡ true };
}

/// Adds a reply, if there is one, to those for which there is room.
fn add_reply(replies: &mut Vec<PrinterReply>, reply: Option<PrinterReply>)
    requires { vec_len replies.old < vec_capacity replies.old }
    ensures items { replies.new.items ≡ replies.old.items ++ replies_before reply [] }
    ensures room { vec_len replies.new ≤ vec_len replies.old + 1 }
    ensures capacity { vec_capacity replies.old ≤ vec_capacity replies.new }
{
    if let Some(reply) = reply
        && replies.push(reply).is_err()
    {
        unreachable!();
    }
}

impl ReplyReader {
    ghost use Rattle.pos_escpos.specs.Replies.{Reader, byte_received, bytes_told, idle, first_received, later_received, lone_received, now_received, reading_of, step_of};
    ghost use Rattle.pos_escpos.specs.BegunReplies.{is_begun_next, step_by};

    /// Returns a reader that expects no reply to a question, with none begun.
    pub fn new() -> Self
        ensures { result ≡ record { asked_now = None; asked_in_order = None; begun = [] } }
    {
        ReplyReader {
            asked_now: None,
            asked_in_order: None,
            begun: BegunReply::Nothing,
        }
    }

    /// Expects the reply to DLE EOT, in the place of any expected before.
    ///
    /// Ask one question at a time: a late reply to another one would be read as the reply to this.
    pub fn expect_now(&mut self, status: NowStatus)
        ensures { self.new ≡ record self.old { asked_now = Some status } }
    {
        self.asked_now = Some(status);
    }

    /// Expects the reply to GS r, in the place of any expected before.
    ///
    /// That reply is a single byte without a mark. So ask GS r only while automatic status is off and no
    /// acknowledgement is due: if bytes of these were lost, what is left of them could be taken for the reply.
    pub fn expect_in_order(&mut self, status: OrderStatus)
        ensures { self.new ≡ record self.old { asked_in_order = Some status } }
    {
        self.asked_in_order = Some(status);
    }

    /// Expects no reply to a question any more.
    pub fn expect_none(&mut self)
        ensures { self.new ≡ record self.old { asked_now = None; asked_in_order = None } }
    {
        self.asked_now = None;
        self.asked_in_order = None;
    }

    /// Returns how many bytes of a reply that has begun have come, at most 6.
    pub fn begun_len(&self) -> u8
        ensures count { result ≡ length self.now.begun }
        ensures most { result ≤ 6 }
    {
        self.begun.len()
    }

    /// Gives up a reply that has begun, after a silence on the line, and returns how many bytes it had.
    pub fn give_up(&mut self) -> u8
        ensures count { result ≡ length self.old.begun }
        ensures reader { self.new ≡ record self.old { begun = [] } }
    {
        let count = self.begun.len();
        self.begun = BegunReply::Nothing;
        count
    }

    /// Takes a reply to DLE EOT behind so many bytes that were none.
    fn take_now(&mut self, skipped: u8, byte: u8) -> Received
        requires { skipped ≤ 6 }
        ensures { (begun : List ℕ) → skipped ≡ length begun →
            step_of result self.new ≡ now_received self.old.asked_now begun byte (idle self.old) }
    {
        self.begun = BegunReply::Nothing;
        let Some(asked) = self.asked_now else {
            return Received {
                skipped: skipped + 1,
                reply: None,
            };
        };
        self.asked_now = None;
        Received {
            skipped,
            reply: Some(PrinterReply::Now(asked, now_status(asked, byte))),
        }
    }

    /// Takes a byte that a reply may begin with.
    fn take_first(&mut self, byte: u8) -> Received
        ensures { step_of result self.new ≡ first_received self.old.begun byte self.old }
    {
        let skipped = self.begun.len();
        if byte & 0x93 == 0x10 {
            self.begun = BegunReply::Status1(byte);
            return Received {
                skipped,
                reply: None,
            };
        }
        if byte == 0x37 {
            self.begun = BegunReply::Job1;
            return Received {
                skipped,
                reply: None,
            };
        }
        self.begun = BegunReply::Nothing;
        if byte & 0x93 == 0x12 {
            return self.take_now(skipped, byte);
        }
        Received {
            skipped: skipped + 1,
            reply: None,
        }
    }

    /// Takes a byte that no marked reply begins with, while none has begun.
    fn take_lone(&mut self, byte: u8) -> Received
        requires { self.old.begun ≡ [] }
        ensures { step_of result self.new ≡ lone_received self.old.asked_in_order byte self.old }
    {
        if let Some(asked) = self.asked_in_order
            && is_plain(byte)
        {
            self.asked_in_order = None;
            return Received {
                skipped: 0,
                reply: Some(PrinterReply::InOrder(asked, order_status(asked, byte))),
            };
        }
        Received {
            skipped: 1,
            reply: None,
        }
    }

    /// Takes what comes of a byte behind a reply that has begun.
    fn take_next(&mut self, next: ByteResult) -> Received
        requires { is_begun_next next ≡ true }
        ensures { step_of result self.new ≡ step_by self.old.begun next self.old }
    {
        let count = self.begun.len();
        self.begun = BegunReply::Nothing;
        match next {
            ByteResult::Whole(reply) => Received {
                skipped: 0,
                reply: Some(reply),
            },
            ByteResult::More(begun) => {
                self.begun = begun;
                Received {
                    skipped: 0,
                    reply: None,
                }
            }
            ByteResult::Broken => Received {
                skipped: count + 1,
                reply: None,
            },
        }
    }

    /// Takes a byte that no marked reply begins with.
    fn take_later(&mut self, byte: u8) -> Received
        ensures { step_of result self.new ≡ later_received self.old.begun byte self.old }
    {
        match self.begun {
            BegunReply::Nothing => self.take_lone(byte),
            BegunReply::Status1(_) | BegunReply::Status2(_, _) | BegunReply::Status3(_, _, _) => {
                self.take_next(self.begun.with_status_byte(byte))
            }
            _ => self.take_next(self.begun.with_job_byte(byte)),
        }
    }

    /// Takes the next byte by what it may be.
    fn take_byte(&mut self, byte: u8) -> Received
        ensures { step_of result self.new ≡ byte_received self.old byte }
    {
        if byte & 0x10 != 0 {
            return self.take_first(byte);
        }
        self.take_later(byte)
    }

    /// Takes the next byte, and returns what comes of it.
    pub fn take(&mut self, byte: u8) -> Received
        ensures step { step_of result self.new ≡ byte_received self.old byte }
        // The byte is of a reply, or of none, or of one that has begun.
        ensures counts { result.skipped + bytes_told result.reply + length self.new.begun ≡ length self.old.begun + 1 }
    {
        self.take_byte(byte)
    }

    /// Takes bytes in order, and returns the replies that end in them, and how many bytes turned out to be no reply.
    ///
    /// # Errors
    ///
    /// [`AllocError`] if memory ran out. Then no byte was taken.
    pub fn take_all(
        &mut self,
        alloc: Global,
        bytes: &[u8],
    ) -> Result<(Vec<PrinterReply>, usize), AllocError>
        ensures replies { IfOk result (λ read. read.0.items ≡ (reading_of self.old bytes.now).replies) }
        ensures skipped { IfOk result (λ read. read.1 ≡ (reading_of self.old bytes.now).skipped) }
        ensures reader { OnOk result (self.new ≡ (reading_of self.old bytes.now).reader) }
        ensures err { OnErr result (self.new ≡ self.old) }
    {
        let mut replies = Vec::with_capacity(alloc, bytes.len())?;
        // These may be skipped too.
        let _begun = self.begun_len();
        let mut skipped = 0;
        for byte in bytes {
            let received = self.take(*byte);
            skipped += usize::from(received.skipped);
            add_reply(&mut replies, received.reply);
        }
        Ok((replies, skipped))
    }
}
