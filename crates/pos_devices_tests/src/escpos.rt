//! The bytes of receipts, rows and replies: that the definitions are those of the devices.
use pos_escpos::{
    BytesFault, CutSettings, Cutter, DisplayProtocol, DrawerKick, DrawerPin, LineSettings,
    NowStatus, OrderStatus, PrinterReply, ReplyReader, SensorSettings, SentReceipt, blank_cells,
    display_start_bytes, drawer_inputs, job_bytes, printer_inputs, receipt_bytes, rows_bytes,
    start_bytes,
};
use pos_service::display_text::{Attribute, DisplayCell};
use pos_service::receipt_text::{Alignment, Mark, PrintedCharacter};
use pos_service::{DisplayCells, Input, PaperLevel, Receipt, Signs};
use std::alloc::{AllocError, Global};
use std::test::Fail;

/// Returns the characters of texts, each bold or not.
fn characters(alloc: Global, parts: &[(&str, bool)]) -> Result<Vec<PrintedCharacter>, AllocError> {
    let mut all = Vec::new(alloc);
    for (text, is_bold) in parts {
        for byte in text.as_bytes() {
            all.push(PrintedCharacter {
                byte: *byte,
                is_bold: *is_bold,
            })?;
        }
    }
    Ok(all)
}

/// Returns how a printer cuts, without a feed.
fn cut_by(cutter: Cutter) -> CutSettings {
    CutSettings { cutter, feed: 3 }
}

#[test]
fn a_receipt_has_its_bytes(rt: HostRuntime) -> Result<(), Fail> {
    let alloc = rt.alloc();
    let line = LineSettings::new(42, 9).expect(&rt, "columns within the width");
    let parts = [
        ("SHOP", true),
        ("Milk ", false),
        ("1.20", true),
        ("Tea", false),
    ];
    let all = characters(alloc, &parts)?;
    let marks = [
        Mark::Line(Alignment::Center, 4),
        Mark::Line(Alignment::Left, 9),
        Mark::Line(Alignment::Right, 0),
        Mark::Cut(100),
        Mark::Cut(50),
    ];
    let bytes = receipt_bytes(alloc, line, cut_by(Cutter::Both), &marks, all.as_slice())?;
    let want =
        b"\x1Ba\x01\x1BE\x01SHOP\x1BE\x00\n\x1Ba\x00Milk \x1BE\x011.20\x1BE\x00\n\x1Ba\x02\n\x1DVA\x03\x1DVB\x03";
    assert!(rt; bytes.as_slice() == want.as_slice());
    Ok(())
}

#[test]
fn printers_cut_as_they_can(rt: HostRuntime) -> Result<(), Fail> {
    let line = LineSettings::new(42, 42).expect(&rt, "columns within the width");
    for (cutter, percentage, want) in [
        (Cutter::Both, 99, b"\x1DVB\x03".as_slice()),
        (Cutter::Full, 1, b"\x1DVA\x03"),
        (Cutter::Partial, 100, b"\x1DVB\x03"),
        (Cutter::Absent, 100, b"\x1Bd\x03"),
    ] {
        let marks = [Mark::Cut(percentage)];
        let bytes = receipt_bytes(rt.alloc(), line, cut_by(cutter), &marks, &[])?;
        assert!(rt; bytes.as_slice() == want);
    }
    Ok(())
}

#[test]
fn lines_that_do_not_fit_have_no_bytes(rt: HostRuntime) -> Result<(), Fail> {
    let alloc = rt.alloc();
    assert!(rt; LineSettings::new(4, 5).is_none());
    let line = LineSettings::new(5, 4).expect(&rt, "columns within the width");
    for (text, fits) in [("four", true), ("fiver", false), ("a\tb", false)] {
        let all = characters(alloc, &[(text, false)])?;
        let marks = [Mark::Line(Alignment::Left, text.len())];
        let bytes = receipt_bytes(alloc, line, cut_by(Cutter::Full), &marks, all.as_slice());
        assert!(rt; bytes.is_ok() == fits);
        if let Err(fault) = bytes {
            assert!(rt; fault == BytesFault::Misfit);
        }
    }
    Ok(())
}

#[test]
fn an_order_is_sent_from_where_the_last_ended(rt: HostRuntime) -> Result<(), Fail> {
    let alloc = rt.alloc();
    let line = LineSettings::new(9, 9).expect(&rt, "columns within the width");
    let cut = cut_by(Cutter::Full);
    let mut marks = Vec::new(alloc);
    marks.push(Mark::Line(Alignment::Left, 2))?;
    let all = characters(alloc, &[("ab", false), ("cd", false)])?;
    let receipt = Receipt::new(9, marks, all, 8, false);
    let (bytes, sent) = SentReceipt::nothing().added_bytes(alloc, line, cut, &receipt)?;
    assert!(rt; bytes.as_slice() == b"\x1Ba\x00ab\n".as_slice());
    let mut marks = Vec::new(alloc);
    marks.push(Mark::Line(Alignment::Left, 2))?;
    marks.push(Mark::Line(Alignment::Right, 3))?;
    let all = characters(alloc, &[("ab", false), ("cde", false), ("f", false)])?;
    let receipt = Receipt::new(9, marks, all, 7, false);
    let (bytes, sent) = sent.added_bytes(alloc, line, cut, &receipt)?;
    assert!(rt; bytes.as_slice() == b"\x1Ba\x02cde\n".as_slice());
    assert!(rt; sent.marks == 2 && sent.characters == 5);
    let (bytes, _) = sent.added_bytes(alloc, line, cut, &receipt)?;
    assert!(rt; bytes.is_empty());
    Ok(())
}

#[test]
fn commands_have_their_bytes(rt: HostRuntime) {
    let kick = DrawerKick {
        pin: DrawerPin::Two,
        on: 0x19,
        off: 0xFA,
    };
    let five = DrawerKick {
        pin: DrawerPin::Five,
        on: 1,
        off: 2,
    };
    for (bytes, want) in [
        (start_bytes(true).as_slice(), b"\x1B@\x1Da\xFF".as_slice()),
        (start_bytes(false).as_slice(), b"\x1B@\x1Da\x00"),
        (kick.bytes().as_slice(), b"\x1Bp\x00\x19\xFA"),
        (five.bytes().as_slice(), b"\x1Bp\x01\x01\x02"),
        (NowStatus::Printer.bytes().as_slice(), b"\x10\x04\x01"),
        (NowStatus::OfflineCause.bytes().as_slice(), b"\x10\x04\x02"),
        (NowStatus::Fault.bytes().as_slice(), b"\x10\x04\x03"),
        (NowStatus::Paper.bytes().as_slice(), b"\x10\x04\x04"),
        (OrderStatus::Paper.bytes().as_slice(), b"\x1Dr\x01"),
        (OrderStatus::Drawer.bytes().as_slice(), b"\x1Dr\x02"),
        (job_bytes(0x12AF).as_slice(), b"\x1D(H\x06\x0000ABJO"),
        (display_start_bytes().as_slice(), b"\x1B@\x0C"),
    ] {
        assert!(rt; bytes == want);
    }
}

/// Returns what a stream tells a reader that expects the replies to DLE EOT n: how many bytes were no reply, and for
/// each reply its pin, cover, paper and fault, or its job.
fn told(alloc: Global, now: NowStatus, stream: &[u8]) -> Result<String, AllocError> {
    let mut reader = ReplyReader::new();
    reader.expect_now(now);
    let (replies, skipped) = reader.take_all(alloc, stream)?;
    let mut text = format!(in alloc; "{skipped}+{}", reader.begun_len())?;
    for reply in replies.as_slice() {
        let more = match reply {
            PrinterReply::JobDone(number) => format!(in alloc; " job{number}")?,
            other => status_text(alloc, *other)?,
        };
        text.push_str(more.as_str())?;
    }
    Ok(text)
}

/// Returns what a reply tells as a text.
fn status_text(alloc: Global, reply: PrinterReply) -> Result<String, AllocError> {
    let Some(status) = reply.status() else {
        return String::from_str(alloc, " none");
    };
    let paper = match status.paper {
        None => "-",
        Some(PaperLevel::Good) => "good",
        Some(PaperLevel::NearEnd) => "near",
        Some(PaperLevel::Empty) => "empty",
    };
    let flags = [
        status.is_pin_high,
        status.is_offline,
        status.is_cover_open,
        status.has_fault,
    ];
    let mut text = format!(in alloc; " ")?;
    for flag in flags {
        text.push_str(match flag {
            None => "-",
            Some(false) => "0",
            Some(true) => "1",
        })?;
    }
    text.push_str(paper)?;
    Ok(text)
}

#[test]
fn replies_are_read(rt: HostRuntime) -> Result<(), Fail> {
    let alloc = rt.alloc();
    for (now, stream, want) in [
        // Automatic statuses: well; pin and offline; cover; cutter; near end; end; the fourth byte tells nothing.
        (
            NowStatus::Paper,
            b"\x10\x00\x00\x0F".as_slice(),
            "0+0 0000good",
        ),
        (NowStatus::Paper, b"\x1C\x00\x00\x00", "0+0 1100good"),
        (NowStatus::Paper, b"\x30\x08\x03\x60", "0+0 0011near"),
        (NowStatus::Paper, b"\x10\x20\x0F\x00", "0+0 0001empty"),
        // DLE EOT: the same byte by what was asked.
        (NowStatus::Printer, b"\x1E", "0+0 11---"),
        (NowStatus::OfflineCause, b"\x76", "0+0 --11empty"),
        (NowStatus::OfflineCause, b"\x12", "0+0 --00-"),
        (NowStatus::Fault, b"\x1A", "0+0 ---1-"),
        (NowStatus::Paper, b"\x1E", "0+0 ----near"),
        (NowStatus::Paper, b"\x72", "0+0 ----empty"),
        // A second one that nobody asked for.
        (NowStatus::Paper, b"\x12\x12", "1+0 ----good"),
        // Acknowledgements of jobs.
        (NowStatus::Paper, b"7\"ABJO\x00", "0+0 job4783"),
        (
            NowStatus::Paper,
            b"7\"OOOO\x007\"@@@@\x00",
            "0+0 job65535 job0",
        ),
        // Bytes that were lost: the second; the first; the last; of an acknowledgement.
        (
            NowStatus::Paper,
            b"\x30\x03\x00\x10\x00\x00\x00",
            "3+0 0000good",
        ),
        (
            NowStatus::Paper,
            b"\x00\x0C\x00\x10\x00\x00\x00",
            "3+0 0000good",
        ),
        (NowStatus::Paper, b"\x10\x00\x0C\x12", "3+0 ----good"),
        (
            NowStatus::Paper,
            b"7\"AJO\x00\x10\x00\x00\x00",
            "6+0 0000good",
        ),
        (
            NowStatus::Paper,
            b"\"ABJO\x00\x10\x00\x00\x00",
            "6+0 0000good",
        ),
        // Noise, and a reply that has begun.
        (NowStatus::Paper, b"\xFF\x11\x13\x80ok\x10\x00", "6+2"),
        (NowStatus::Paper, b"\x10\x00\x80\x00\x00", "5+0"),
    ] {
        let text = told(alloc, now, stream)?;
        assert!(rt; text.as_str() == want, "{}", text.as_str());
    }
    Ok(())
}

#[test]
fn a_reply_may_come_in_pieces(rt: HostRuntime) {
    let mut reader = ReplyReader::new();
    for byte in [0x30, 0x00, 0x00] {
        let received = reader.take(byte);
        assert!(rt; received.skipped == 0 && received.reply.is_none());
    }
    let received = reader.take(0x00);
    let reply = received.reply.expect(&rt, "a status");
    let status = reply.status().expect(&rt, "what it tells");
    assert!(rt; status.is_cover_open == Some(true) && status.paper == Some(PaperLevel::Good));
    reader.take(0x10);
    assert!(rt; reader.give_up() == 1);
    // GS r: found where it was asked for, and once.
    reader.expect_in_order(OrderStatus::Paper);
    let reply = reader.take(0x0C).reply.expect(&rt, "the paper");
    let status = reply.status().expect(&rt, "what it tells");
    assert!(rt; status.paper == Some(PaperLevel::Empty));
    assert!(rt; reader.take(0x0C).skipped == 1);
    reader.expect_in_order(OrderStatus::Drawer);
    let reply = reader.take(0x01).reply.expect(&rt, "the drawer");
    let status = reply.status().expect(&rt, "what it tells");
    assert!(rt; status.is_pin_high == Some(true));
    reader.expect_in_order(OrderStatus::Drawer);
    reader.expect_none();
    assert!(rt; reader.take(0x01).skipped == 1);
}

/// The signs of a device that is on, with so much paper.
fn signs_with(powered: bool, cover_open: bool, paper: PaperLevel) -> Signs {
    Signs {
        powered,
        drawer_open: false,
        cover_open,
        paper,
    }
}

/// Returns an input as a number: 1 power, 2 and 3 the cover closed and open, 4 and 5 the drawer, 100 and more paper.
fn input_number(input: &Option<Input>) -> u32 {
    match input {
        Some(Input::PowerMoved(true)) => 1,
        Some(Input::CoverMoved(is_open)) => 2 + u32::from(*is_open),
        Some(Input::DrawerMoved(is_open)) => 4 + u32::from(*is_open),
        Some(Input::PaperLoaded(lines)) if *lines <= 100_000 => 100 + *lines,
        _ => 0,
    }
}

#[test]
fn statuses_are_inputs(rt: HostRuntime) {
    let good = PaperLevel::Good;
    let (near, empty) = (PaperLevel::NearEnd, PaperLevel::Empty);
    assert!(rt; SensorSettings::new(true, 5, 5).is_none());
    assert!(rt; SensorSettings::new(true, 5, 100_001).is_none());
    let sensors = SensorSettings::new(true, 5, 900).expect(&rt, "lines in their range");
    let none = SensorSettings::new(false, 0, 900).expect(&rt, "lines in their range");
    for (sensors, signs, stream, want) in [
        (
            sensors,
            signs_with(true, false, good),
            [0x10, 0, 0, 0],
            [0, 0, 0, 0],
        ),
        (
            sensors,
            signs_with(false, true, empty),
            [0x14, 0, 0, 0],
            [1, 2, 1_000, 5],
        ),
        (
            sensors,
            signs_with(true, false, good),
            [0x30, 0, 0x03, 0],
            [0, 3, 105, 0],
        ),
        (
            sensors,
            signs_with(true, true, near),
            [0x30, 0, 0x0F, 0],
            [0, 0, 100, 0],
        ),
        (
            sensors,
            signs_with(true, false, near),
            [0x10, 0, 0x03, 0],
            [0, 0, 0, 0],
        ),
        (
            none,
            signs_with(true, false, good),
            [0x10, 0, 0x03, 0],
            [0, 0, 0, 5],
        ),
        (
            none,
            signs_with(true, false, empty),
            [0x14, 0, 0x03, 0],
            [0, 0, 1_000, 0],
        ),
    ] {
        let mut reader = ReplyReader::new();
        for byte in &stream[..3] {
            reader.take(*byte);
        }
        let reply = reader.take(stream[3]).reply.expect(&rt, "a status");
        let status = reply.status().expect(&rt, "what it tells");
        let printer = printer_inputs(sensors, signs, status);
        let drawer = drawer_inputs(sensors, signs, status);
        for place in 0..3 {
            assert!(rt; input_number(&printer[place]) == want[place]);
        }
        assert!(rt; input_number(&drawer[1]) == want[3]);
    }
}

/// Returns cells with the characters of a text.
fn cells_of(
    alloc: Global,
    rows: u32,
    columns: u32,
    text: &str,
) -> Result<DisplayCells, AllocError> {
    let mut cells = Vec::new(alloc);
    for byte in text.as_bytes() {
        cells.push(DisplayCell {
            character: *byte,
            attribute: Attribute::Blink,
        })?;
    }
    Ok(DisplayCells::new(rows, columns, cells))
}

#[test]
fn changed_rows_have_their_bytes(rt: HostRuntime) -> Result<(), Fail> {
    let alloc = rt.alloc();
    let blank = blank_cells(alloc, 3, 4)?;
    let tea = cells_of(alloc, 3, 4, "Tea     1.20")?;
    let milk = cells_of(alloc, 3, 4, "Milk    1.20")?;
    for (protocol, before, after, want) in [
        (
            DisplayProtocol::Cd5220,
            &blank,
            &tea,
            b"\x1Bl\x01\x01Tea \x1Bl\x01\x031.20".as_slice(),
        ),
        (
            DisplayProtocol::EscPos,
            &blank,
            &tea,
            b"\x1F$\x01\x01Tea \x1F$\x01\x031.20",
        ),
        (DisplayProtocol::EscPos, &tea, &milk, b"\x1F$\x01\x01Milk"),
        (DisplayProtocol::Cd5220, &milk, &milk, b""),
    ] {
        let bytes = rows_bytes(alloc, protocol, before, after)?;
        assert!(rt; bytes.as_slice() == want);
    }
    Ok(())
}

#[test]
fn cells_that_are_no_rows_have_no_bytes(rt: HostRuntime) -> Result<(), Fail> {
    let alloc = rt.alloc();
    let blank = blank_cells(alloc, 3, 4)?;
    let short = cells_of(alloc, 3, 4, "Tea")?;
    let other = cells_of(alloc, 4, 3, "Tea     1.20")?;
    let control = cells_of(alloc, 3, 4, "Tea\t    1.20")?;
    for after in [&short, &other, &control] {
        let bytes = rows_bytes(alloc, DisplayProtocol::EscPos, &blank, after);
        assert!(rt; matches!(bytes, Err(BytesFault::Misfit)));
    }
    Ok(())
}

#[test]
fn faults_have_texts(rt: HostRuntime) -> Result<(), Fail> {
    let alloc = rt.alloc();
    let text = format!(in alloc; "{}, {}", BytesFault::Misfit, BytesFault::NoMemory)?;
    assert!(rt; text.as_str() == "it doesn't fit the device, no memory");
    Ok(())
}
