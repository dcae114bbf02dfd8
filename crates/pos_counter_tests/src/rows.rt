//! The calls that reach the disk of the totals, and which files are there before and after each of them.
use std::alloc::{AllocError, Global};

/// Files in their order: the name and the four bytes of each, in hex.
pub type Files = &'static [(&'static str, &'static str)];

/// The files before each call, which have the handles 1 and 2.
pub const BEFORE: Files = &[("41", "01020304"), ("42", "00000000")];

/// A call that reaches the disk.
#[derive(Clone, Copy)]
pub struct Row {
    /// The lines behind `open` that come before it, and what they print.
    pub first: (&'static str, &'static str),
    /// The call, and what is printed where it is done.
    pub line: (&'static str, &'static str),
    /// What is printed of each other call behind one in which the disk failed.
    pub refusal: &'static str,
    /// The handle of the first file where the call is done.
    pub first_kept: u8,
    /// The files after it.
    pub after: Files,
}

/// Enabling, which recovers the totals.
pub const ENABLING: Row = Row {
    first: ("", ""),
    line: ("set t DeviceEnabled true\n", "ok\n"),
    refusal: "err 105\n",
    first_kept: 1,
    after: BEFORE,
};

/// A call that changes enabled totals, and what it prints; the handle of the first file where it is done, and the files
/// then.
fn changing(line: (&'static str, &'static str), first_kept: u8, after: Files) -> Row {
    Row {
        first: ("set t DeviceEnabled true\n", "ok\n"),
        line,
        refusal: "err 111\n",
        first_kept,
        after,
    }
}

/// The changes of one file, and a transaction that changes both.
pub fn changes() -> [Row; 6] {
    [
        changing(
            ("call t create 43 4 false\n", "ok 3\n"),
            1,
            &[("41", "01020304"), ("42", "00000000"), ("43", "00000000")],
        ),
        changing(("call t delete 41\n", "ok\n"), 2, &[("42", "00000000")]),
        changing(
            ("call t rename 1 43\n", "ok\n"),
            1,
            &[("43", "01020304"), ("42", "00000000")],
        ),
        changing(
            ("call t write 1 1 0809\n", "ok\n"),
            1,
            &[("41", "01080904"), ("42", "00000000")],
        ),
        changing(
            ("call t setAll 1 7\n", "ok\n"),
            1,
            &[("41", "07070707"), ("42", "00000000")],
        ),
        Row {
            first: (
                "set t DeviceEnabled true\ncall t create 41 4 false\ncall t write 1 3 0506\ncall t beginTrans\n\
                call t write 1 1 0809\ncall t write 1 3 0506\ncall t setAll 2 7\ncall t setAll 2 256\n",
                "ok\nerr 110\nerr 106\nok\nok\nerr 106\nok\nerr 106\n",
            ),
            ..changing(
                ("call t commitTrans\n", "ok\n"),
                1,
                &[("41", "01080904"), ("42", "07070707")],
            )
        },
    ]
}

/// The lines that tell which files there are, where they have the handles from `first` on.
pub fn look_lines(alloc: Global, first: u8) -> Result<String, AllocError> {
    let mut lines = String::new(alloc);
    lines.push_str(
        "get t NumberOfFiles\ncall t find 41\ncall t find 42\ncall t find 43\ncall t findByIndex 0\n",
    )?;
    for place in 0..3u8 {
        let handle = first as u32 + place as u32;
        lines.push_str(format!(in alloc; "call t read {handle} 0 4\n")?.as_str())?;
    }
    Ok(lines)
}

/// What these lines print where there are these files.
pub fn look_text(alloc: Global, files: Files, first: u8) -> Result<String, AllocError> {
    let mut text = format!(in alloc; "ok {}\n", files.len())?;
    for name in ["41", "42", "43"] {
        match files.iter().position(|file| file.0 == name) {
            Some(place) => {
                let handle = first as u128 + place as u128;
                text.push_str(format!(in alloc; "ok {handle} 4\n")?.as_str())?;
            }
            None => text.push_str("err 109\n")?,
        }
    }
    let named = files.first().map_or("-", |file| file.0);
    text.push_str(format!(in alloc; "ok {named}\n")?.as_str())?;
    for place in 0..3usize {
        match files.get(place) {
            Some(file) => text.push_str(format!(in alloc; "ok {}\n", file.1)?.as_str())?,
            None => text.push_str("err 106\n")?,
        }
    }
    Ok(text)
}
