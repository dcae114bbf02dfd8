//! What holds of orders and replies on the way between a till and its printer.
ghost use Rattle.std.specs.Prelude.{◌≡◌, ◌≢◌, ℕ, List, Bool, [], ◌∷◌, ◌++◌, ◌+◌, ◌<◌, ◌^◌, length, true, Some, None, ◌≤◌};
ghost use Rattle.pos_escpos.specs.declared.printer_commands.NowStatus.{NowStatus};
ghost use Rattle.pos_escpos.specs.declared.printer_commands.OrderStatus.{OrderStatus};
ghost use Rattle.pos_escpos.specs.declared.statuses.PrinterReply.TheVariants as reply;
ghost use Rattle.pos_escpos.specs.Replies.{Reader, ReadsOne, answers_now, automatic_status, begins_status, bytes_of_replies, is_long_reply, is_plain, job_reply, joined, kept, now_status, order_status, reading_of};
ghost use Rattle.std.specs.List.{list_all};
ghost use Rattle.pos_service.specs.declared.receipt_text.PrintedCharacter.{PrintedCharacter};
ghost use Rattle.pos_service.specs.Receipts.{cut_pieces, is_printable_text, pieces, printed_by};
ghost use Rattle.pos_escpos.specs.PrinterBytes.{FitsPrinter, is_character};

/// Proves that a reply is found, whatever came before it: a part of another one, or noise.
pub fn replies_are_found()
    // An automatic status: its four bytes.
    ensures automatic { (reader : Reader) (a b c d : ℕ) →
        begins_status a ≡ true → is_plain b ≡ true → is_plain c ≡ true → is_plain d ≡ true →
        ReadsOne reader (reply.Automatic (automatic_status a b c)) reader (reading_of reader (a ∷ b ∷ c ∷ d ∷ [])) }
    // The acknowledgement of a job.
    ensures job { (reader : Reader) (number : ℕ) → number < 2 ^ 16 →
        ReadsOne reader (reply.JobDone number) reader (reading_of reader (job_reply number)) }
    // A reply to DLE EOT, where one was asked for.
    ensures now { (reader : Reader) (asked : NowStatus) (b : ℕ) → reader.asked_now ≡ Some asked → answers_now b ≡ true →
        ReadsOne reader (reply.Now asked (now_status asked b)) (record reader { asked_now = None })
        (reading_of reader (b ∷ [])) }
    // A reply to GS r, where one was asked for; it has no mark of its own, so none may have begun before it.
    ensures in_order { (reader : Reader) (asked : OrderStatus) (b : ℕ) → reader.asked_in_order ≡ Some asked →
        reader.begun ≡ [] → is_plain b ≡ true →
        ReadsOne reader (reply.InOrder asked (order_status asked b)) (record reader { asked_in_order = None })
        (reading_of reader (b ∷ [])) }
{}

/// Proves that the pieces of a stream don't matter, that no byte is passed over in silence, and that a reply of which
/// bytes were lost gives none.
pub fn losses_are_seen()
    // A stream may come in any pieces.
    ensures pieces { (reader : Reader) (first next : List ℕ) → reading_of reader (first ++ next)
        ≡ joined (reading_of reader first) (reading_of (reading_of reader first).reader next) }
    // Each byte is of a reply, or was reported as none, or is of a reply that has begun.
    ensures counts { (reader : Reader) (bytes : List ℕ) → let reading = reading_of reader bytes in
        reading.skipped + bytes_of_replies reading.replies + length reading.reader.begun
        ≡ length reader.begun + length bytes }
    // No reply comes of an automatic status or an acknowledgement of which bytes were lost, whichever they are.
    ensures lost { (reader : Reader) (sent : List ℕ) (which : List Bool) → reader.asked_in_order ≡ None →
        reader.begun ≡ [] → is_long_reply sent ≡ true → length (kept which sent) ≢ length sent →
        (reading_of reader (kept which sent)).replies ≡ [] }
    // The same if another one had begun, of which bytes were lost, and the first byte of this one came.
    ensures begun { (reader : Reader) (sent : List ℕ) (which : List Bool) → reader.asked_in_order ≡ None →
        is_long_reply sent ≡ true → length (kept (true ∷ which) sent) ≢ length sent →
        (reading_of reader (kept (true ∷ which) sent)).replies ≡ [] }
    // An acknowledgement is such a reply.
    ensures acknowledgements { (number : ℕ) → number < 2 ^ 16 → is_long_reply (job_reply number) ≡ true }
    // An automatic status is one.
    ensures statuses { (a b c d : ℕ) →
        begins_status a ≡ true → is_plain b ≡ true → is_plain c ≡ true → is_plain d ≡ true →
        is_long_reply (a ∷ b ∷ c ∷ d ∷ []) ≡ true }
{}

/// Proves that what an order adds to a receipt is never a misfit, if the printer's columns are at least the characters
/// of the device's lines. The line buffer that it leaves is as it has to be for the next order.
pub fn orders_fit()
    ensures text { (chars columns : ℕ) (buffer : List PrintedCharacter) (bytes : List ℕ) → 1 ≤ chars → chars ≤ columns →
        list_all is_character buffer ≡ true → is_printable_text bytes ≡ true →
        FitsPrinter columns (printed_by chars buffer (pieces bytes)) }
    ensures cut { (chars columns : ℕ) (buffer : List PrintedCharacter) (percentage : ℕ) → 1 ≤ chars → chars ≤ columns →
        list_all is_character buffer ≡ true → FitsPrinter columns (printed_by chars buffer (cut_pieces percentage)) }
{}
