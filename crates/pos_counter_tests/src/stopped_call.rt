//! Stops of one call over copies of a disk that doesn't work any more, crashes behind them, and what new counters find.
use crate::counters::told;
use crate::rows::{BEFORE, Files, Row, look_lines, look_text};
use pos_disk::{Fill, FuseDisk, MemDisk};
use pos_profile::Profile;
use std::alloc::{AllocError, Global};
use std::test::Fail;

const OPENING: &str = "new t HardTotals\nopen t t1\n";

const ENABLING: &str = "set t DeviceEnabled true\n";

/// Each call on the totals, and each property that needs them.
const OTHERS: [&str; 15] = [
    "call t create 44 1 false\n",
    "call t delete 41\n",
    "call t find 41\n",
    "call t findByIndex 0\n",
    "call t read 1 0 4\n",
    "call t write 1 0 05\n",
    "call t setAll 1 5\n",
    "call t rename 1 44\n",
    "call t claimFile 1 0\n",
    "call t releaseFile 1\n",
    "call t beginTrans\n",
    "call t commitTrans\n",
    "call t rollback\n",
    "get t FreeData\n",
    "get t NumberOfFiles\n",
];

const FILLS: [Fill; 4] = [Fill::Old, Fill::New, Fill::Byte(0xA5), Fill::Byte(0)];

/// These texts, one behind another.
fn joined(alloc: Global, texts: &[&str]) -> Result<String, AllocError> {
    let mut whole = String::new(alloc);
    for text in texts {
        whole.push_str(text)?;
    }
    Ok(whole)
}

/// A text so many times.
fn repeated(alloc: Global, text: &str, times: u64) -> Result<String, AllocError> {
    let mut whole = String::new(alloc);
    for _ in 0..times {
        whole.push_str(text)?;
    }
    Ok(whole)
}

/// Fails where something else was printed.
fn check(found: &[u8], wanted: &str) -> Result<(), Fail> {
    if found == wanted.as_bytes() {
        return Ok(());
    }
    match str::from_utf8(found) {
        Ok(found) => Err(Fail::new(format_args!("wanted: {wanted}found: {found}"))),
        Err(_) => Err(Fail::new("no text")),
    }
}

/// A call, and the disk of which each stop has a copy.
#[derive(Drop)]
pub struct StoppedCall {
    alloc: Global,
    profile: Profile,
    disk: MemDisk,
    row: Row,
    /// The lines of a new counter that looks for the files, and what they print before the call and after it.
    lines: String,
    before: String,
    after: String,
}

/// The lines of a new counter that opens and enables the totals, and looks for the files.
fn reopening_lines(alloc: Global) -> Result<String, AllocError> {
    let look = look_lines(alloc, 1)?;
    joined(alloc, &[OPENING, ENABLING, look.as_str()])
}

/// What these lines print if there are these files.
fn reopening_text(alloc: Global, files: Files) -> Result<String, AllocError> {
    let look = look_text(alloc, files, 1)?;
    joined(alloc, &["ok\nok\nok\n", look.as_str()])
}

impl StoppedCall {
    pub fn new(alloc: Global, disk: MemDisk, row: Row) -> Result<Self, Fail> {
        Ok(StoppedCall {
            alloc,
            profile: Profile::built(alloc)?,
            disk,
            row,
            lines: reopening_lines(alloc)?,
            before: reopening_text(alloc, BEFORE)?,
            after: reopening_text(alloc, row.after)?,
        })
    }

    /// What lines print over a copy of the disk that works for so many calls, with that copy.
    fn fused(&self, pass: u64, lines: &[&str]) -> Result<(Vec<u8>, FuseDisk<MemDisk>), Fail> {
        let fuse = FuseDisk::new(self.disk.crash(Fill::New)?, pass, u64::MAX);
        let lines = joined(self.alloc, lines)?;
        told(self.alloc, &self.profile, fuse, lines.as_bytes())
    }

    /// How many calls of the disk these lines make after an opening.
    fn calls(&self, first: &'static str, line: &'static str) -> Result<u64, Fail> {
        let (_, fuse) = self.fused(u64::MAX, &[OPENING, first, line])?;
        Ok(fuse.calls())
    }

    /// Runs lines over a copy of the disk that works for so many calls, and returns that copy. They have to print these
    /// texts, and to make so many calls.
    fn run_checked(
        &self,
        pass: u64,
        lines: &[&str],
        wanted: &[&str],
        calls: u64,
    ) -> Result<MemDisk, Fail> {
        let (text, fuse) = self.fused(pass, lines)?;
        check(&text, joined(self.alloc, wanted)?.as_str())?;
        if fuse.calls() != calls {
            return Err(Fail::new("another number of calls of the disk"));
        }
        Ok(fuse.into_inner())
    }

    /// Stops the call at the disk call with a number, asks all others, which leave the disk alone, and closes.
    fn stop(&self, pass: u64) -> Result<MemDisk, Fail> {
        let (first, line) = (self.row.first, self.row.line.0);
        let others = joined(self.alloc, &OTHERS)?;
        let refusals = repeated(self.alloc, self.row.refusal, OTHERS.len() as u64)?;
        let lines = [OPENING, first.0, line, others.as_str(), "close t\n"];
        let wanted = ["ok\nok\n", first.1, "err 111\n", refusals.as_str(), "ok\n"];
        self.run_checked(pass, &lines, &wanted, pass.saturating_add(1))
    }

    /// Makes the call, which meets no fault, looks for the files, which leaves the disk alone, and closes.
    fn finish(&self, pass: u64) -> Result<MemDisk, Fail> {
        let (first, line) = (self.row.first, self.row.line);
        let look = look_lines(self.alloc, self.row.first_kept)?;
        let found = look_text(self.alloc, self.row.after, self.row.first_kept)?;
        let lines = [OPENING, first.0, line.0, look.as_str(), "close t\n"];
        let wanted = ["ok\nok\n", first.1, line.1, found.as_str(), "ok\n"];
        self.run_checked(pass, &lines, &wanted, pass)
    }

    /// What a new counter over a disk prints as it looks for the files, with its disk.
    fn look(&self, disk: MemDisk) -> Result<(Vec<u8>, MemDisk), Fail> {
        told(self.alloc, &self.profile, disk, self.lines.as_bytes())
    }

    /// Crashes a disk with each fill. New counters have to find the files after the call, or, unless it is done, those
    /// before it. After a second crash others have to find the same.
    fn crash(&self, disk: &MemDisk, is_done: bool) -> Result<(), Fail> {
        for fill in FILLS {
            let (text, again) = self.look(disk.crash(fill)?)?;
            let (same, _) = self.look(again.crash(Fill::Old)?)?;
            if same != text {
                return Err(Fail::new("a second reopening finds other files"));
            }
            if is_done || text.as_slice() != self.before.as_bytes() {
                check(&text, self.after.as_str())?;
            }
        }
        Ok(())
    }

    /// Stops the call at each of its disk calls in turn, until it meets no fault: how often.
    pub fn stop_at_each(&self) -> Result<u64, Fail> {
        let (first, line) = (self.row.first.0, self.row.line.0);
        let (begin, end) = (self.calls(first, "")?, self.calls(first, line)?);
        // The enabling alone reads the disk: what is refused or buffered after it doesn't.
        let enabling = if first.is_empty() { "" } else { ENABLING };
        if begin != self.calls(enabling, "")? {
            return Err(Fail::new("what is refused or buffered asks the disk"));
        }
        for pass in begin..end {
            self.crash(&self.stop(pass)?, false)?;
        }
        self.crash(&self.finish(end)?, true)?;
        Ok(end.saturating_sub(begin))
    }
}
