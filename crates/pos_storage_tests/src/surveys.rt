// What is told of the bytes of a disk: the text of a whole one, and the rule that is broken, with its place.
use crate::shared_disks::{FORMATTED, GROUP, SECOND, bytes_of, disk_of};
use pos_dir::{DirectoryFault, Flaw};
use pos_survey::{Rule, Survey, SurveyFault};
use std::alloc::Global;
use std::test::Fail;

// The log of a formatted disk.
const LOG: usize = 16_384;

// The records of a file SALES of four bytes, and of a write of them.
const RECORDS: [u8; 40] = [
    0xA5, 0, 0, 0, 13, 0, 1, 1, 5, 0x53, 0x41, 0x4C, 0x45, 0x53, 0, 0, 0, 4, 0xA5, 0, 0, 0, 17, 0,
    1, 4, 0, 0, 0, 0, 0, 0, 0, 0, 0, 4, 0, 0, 0x41, 0x31,
];

const TEXT: &str =
    "layout 1\nslot 0\nsequence 1\nrecords 2\nroom 16338\nfiles 1\nfile 53414c4553\nname SALES\n\
    size 4\nhex 00004131\ntext ..A1\n";

// Why no survey is made of a disk with these runs.
fn fault_of(alloc: Global, runs: &[(usize, &[u8])]) -> Result<Option<SurveyFault>, Fail> {
    let bytes = bytes_of(alloc, &mut disk_of(alloc, 0, runs)?)?;
    Ok(Survey::of(alloc, &bytes).err())
}

#[test]
fn the_text_of_a_disk(rt: HostRuntime) -> Result<(), Fail> {
    let alloc = rt.alloc();
    let runs = [(0, FORMATTED.as_slice()), (LOG, RECORDS.as_slice())];
    let bytes = bytes_of(alloc, &mut disk_of(alloc, 0, &runs)?)?;
    let text = Survey::of(alloc, &bytes)?.to_text(alloc)?;
    assert!(rt; text.as_slice() == TEXT.as_bytes());
    Ok(())
}

#[test]
fn disks_that_hold_nothing(rt: HostRuntime) -> Result<(), Fail> {
    let alloc = rt.alloc();
    assert!(rt; Survey::of(alloc, &FORMATTED).err() == Some(SurveyFault::TooSmall));
    assert!(rt; fault_of(alloc, &[])? == Some(SurveyFault::Unformatted));
    let runs = [(0, FORMATTED.as_slice()), (SECOND, FORMATTED.as_slice())];
    assert!(rt; fault_of(alloc, &runs)? == Some(SurveyFault::Damaged(32_769, Rule::SameSequence)));
    let long = [0xA5, 0, 0, 0, 0, 0, 0, 0, 1, 0, 0, 0x3F, 0xF4];
    assert!(rt; fault_of(alloc, &[(0, &long)])? == Some(SurveyFault::Damaged(9, Rule::LongBody)));
    Ok(())
}

#[test]
fn bodies_that_spell_no_files(rt: HostRuntime) -> Result<(), Fail> {
    let alloc = rt.alloc();
    let rows: [([u8; 4], &[u8], u64, Flaw); 7] = [
        ([0, 0, 0, 1], &[0], 13, Flaw::BytesMissing),
        ([0, 0, 0, 2], &[0, 65], 13, Flaw::TooManyFiles),
        ([0, 0, 0, 4], &[0, 1, 1, 0x41], 15, Flaw::BytesMissing),
        ([0, 0, 0, 8], &[0, 1, 1, 0x1F], 15, Flaw::BadName),
        (
            [0, 0, 0x20, 9],
            &[0, 1, 1, 0x41, 0, 0, 0x20, 1],
            15,
            Flaw::TooManyBytes,
        ),
        ([0, 0, 0, 3], &[0, 0, 7], 15, Flaw::BytesLeft),
        (
            [0, 0, 0, 14],
            &[0, 2, 1, 0x41, 0, 0, 0, 0, 1, 0x41, 0, 0, 0, 0],
            21,
            Flaw::NameTwice,
        ),
    ];
    for (length, body, at, flaw) in rows {
        let runs = [
            (0, FORMATTED.as_slice()),
            (9, length.as_slice()),
            (13, body),
        ];
        let wanted = SurveyFault::Damaged(at, Rule::NoFiles(flaw));
        assert!(rt; fault_of(alloc, &runs)? == Some(wanted), "{at}");
    }
    Ok(())
}

#[test]
fn records_that_break_a_rule(rt: HostRuntime) -> Result<(), Fail> {
    let alloc = rt.alloc();
    let rows: [(&[u8], Rule); 4] = [
        (&[0xA5, 0, 0, 0x40, 0], Rule::LongRecord),
        (&[0xA5, 0, 0, 0, 1, 7], Rule::NoGroup),
        (&[0xA5, 0, 0, 0, 2, 0, 0], Rule::EmptyGroup),
        (
            &[0xA5, 0, 0, 0, 5, 0, 1, 2, 0, 5],
            Rule::NotApplicable(DirectoryFault::NoFile),
        ),
    ];
    for (record, rule) in rows {
        let runs = [
            (0, FORMATTED.as_slice()),
            (LOG, &[0xA5, 0, 0, 0, 24]),
            (LOG + 5, GROUP.as_slice()),
            (LOG + 29, record),
        ];
        assert!(rt; fault_of(alloc, &runs)? == Some(SurveyFault::Damaged(16_413, rule)));
    }
    Ok(())
}
