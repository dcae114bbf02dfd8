//! The first reply in what came of a printer.
ghost use Rattle.std.specs.Prelude.{◌≡◌, ◌≤◌, length};
ghost use Rattle.pos_wire.specs.Replies.{Reads, reader_of};

use pos_escpos::{NowStatus, OrderStatus, PrinterReply, ReplyReader, losses_are_seen};

/// What a printer was asked for, and has not told yet.
#[derive(Clone, Copy, PartialEq, Eq)]
pub enum AwaitedReply {
    /// Nothing.
    Nothing,
    /// A status at once (DLE EOT).
    Now(NowStatus),
    /// A status after all that came before it (GS r).
    InOrder(OrderStatus),
}

/// What was read up to the end of the first reply.
#[derive(Clone, Copy)]
pub struct ReplyRead {
    /// How many bytes: with those of the reply, but without those of a reply that has only begun.
    pub used: usize,
    /// How many of them are no reply.
    pub skipped: usize,
    /// The reply, or `None` if none ends in the bytes.
    pub reply: Option<PrinterReply>,
}

/// Returns a reader that expects the reply to what was asked.
fn reader_for(asked: AwaitedReply) -> ReplyReader
    ensures { result ≡ reader_of asked }
{
    let mut reader = ReplyReader::new();
    match asked {
        AwaitedReply::Nothing => {}
        AwaitedReply::Now(status) => reader.expect_now(status),
        AwaitedReply::InOrder(status) => reader.expect_in_order(status),
    }
    reader
}

/// Reads what came of a printer up to the end of the first reply.
///
/// Pass the bytes that aren't used again, before those that come next: a reply that has only begun is then read whole.
/// Pass what was asked until its reply has come.
pub fn read_reply(asked: AwaitedReply, bytes: &[u8]) -> ReplyRead
    ensures reads { Reads (reader_of asked) bytes.now result result.reply }
    ensures used { result.used ≤ length bytes.now }
    ensures skipped { result.skipped ≤ result.used }
{
    // What it proves: a stream may come in any pieces.
    losses_are_seen();
    let mut reader = reader_for(asked);
    let mut skipped = 0;
    for place in 0..bytes.len() {
        let received = reader.take(bytes[place]);
        skipped += usize::from(received.skipped);
        if let Some(reply) = received.reply {
            return ReplyRead {
                used: place + 1,
                skipped,
                reply: Some(reply),
            };
        }
    }
    ReplyRead {
        used: skipped,
        skipped,
        reply: None,
    }
}
