//! The codes that `explain` knows: result codes, extended codes, statuses, states and loci of UnifiedPOS 1.16.
ghost use Rattle.std.specs.Prelude.{◌≡◌, map};
ghost use Rattle.pos_report.specs.Codes.{identity_of, standard_codes};

/// A code of the standard: its name and number, what it is, what it means, and what to do about it.
#[derive(Clone, Copy)]
pub struct Code<'a> {
    /// Its name, as the standard writes it.
    pub name: &'a str,
    /// Its number.
    pub number: u32,
    /// What kind of code it is.
    pub kind: &'a str,
    /// What it means.
    pub meaning: &'a str,
    /// What to do about it.
    pub action: &'a str,
}

const RESULT: &str = "result code";

const STATUS: &str = "status of a StatusUpdateEvent";

const STATE: &str = "value of State";

const LOCUS: &str = "locus of an ErrorEvent";

const EXTENDED: &str = "extended code";

const POWER: &str = "value of PowerState";

const REPLY: &str = "reply to an ErrorEvent";

const NOTHING: &str = "nothing";

// The codes, by their kinds.
const CODES: [Code<'static>; 40] = [
    Code {
        number: 0,
        name: "E_SUCCESS",
        kind: RESULT,
        meaning: "the call succeeded",
        action: NOTHING,
    },
    Code {
        number: 101,
        name: "E_CLOSED",
        kind: RESULT,
        meaning: "the control is closed",
        action: "open it",
    },
    Code {
        number: 102,
        name: "E_CLAIMED",
        kind: RESULT,
        meaning: "another control has claimed the device or the file",
        action: "wait until it is released",
    },
    Code {
        number: 103,
        name: "E_NOTCLAIMED",
        kind: RESULT,
        meaning: "the device isn't claimed",
        action: "claim it first",
    },
    Code {
        number: 104,
        name: "E_NOSERVICE",
        kind: RESULT,
        meaning: "no peripheral is attached to the device",
        action: "attach one",
    },
    Code {
        number: 105,
        name: "E_DISABLED",
        kind: RESULT,
        meaning: "the device isn't enabled",
        action: "set DeviceEnabled to true: a release or AutoDisable may have disabled it",
    },
    Code {
        number: 106,
        name: "E_ILLEGAL",
        kind: RESULT,
        meaning: "an argument is out of its range, or the control's state doesn't allow the call",
        action: "look up the call's arguments",
    },
    Code {
        number: 107,
        name: "E_NOHARDWARE",
        kind: RESULT,
        meaning: "the device can't be used: the totals file isn't formatted or too short",
        action: "`kijolvar check FILE`",
    },
    Code {
        number: 108,
        name: "E_OFFLINE",
        kind: RESULT,
        meaning: "the device is off",
        action: "switch it on, and check its cable, its port, and who may use that",
    },
    Code {
        number: 109,
        name: "E_NOEXIST",
        kind: RESULT,
        meaning: "no device or file has that name",
        action: "check the name",
    },
    Code {
        number: 110,
        name: "E_EXISTS",
        kind: RESULT,
        meaning: "a file has that name already",
        action: "find it, or take another name",
    },
    Code {
        number: 111,
        name: "E_FAILURE",
        kind: RESULT,
        meaning: "the device or the disk failed",
        action: "check the device; for totals, `kijolvar check FILE`; after a failed sync restart the machine first",
    },
    Code {
        number: 112,
        name: "E_TIMEOUT",
        kind: RESULT,
        meaning: "another control has the device or the file",
        action: "wait until it is released",
    },
    Code {
        number: 113,
        name: "E_BUSY",
        kind: RESULT,
        meaning: "earlier output still waits",
        action: "wait for it, or clear the output",
    },
    Code {
        number: 114,
        name: "E_EXTENDED",
        kind: RESULT,
        meaning: "the extended code says what is wrong",
        action: "what the extended code says",
    },
    Code {
        number: 201,
        name: "ETOT_NOROOM",
        kind: EXTENDED,
        meaning: "the totals have no room for the file, or the transaction none for the change",
        action: "delete files, commit earlier, or `kijolvar migrate FILE`",
    },
    Code {
        number: 201,
        name: "EPTR_COVER_OPEN",
        kind: EXTENDED,
        meaning: "the printer's cover is open",
        action: "close it",
    },
    Code {
        number: 203,
        name: "EPTR_REC_EMPTY",
        kind: EXTENDED,
        meaning: "the receipt doesn't have enough paper",
        action: "put in a new roll, or print less at once",
    },
    Code {
        number: 0,
        name: "CASH_SUE_DRAWERCLOSED",
        kind: STATUS,
        meaning: "the drawer is closed",
        action: NOTHING,
    },
    Code {
        number: 1,
        name: "CASH_SUE_DRAWEROPEN",
        kind: STATUS,
        meaning: "the drawer is open",
        action: "close it",
    },
    Code {
        number: 11,
        name: "PTR_SUE_COVER_OPEN",
        kind: STATUS,
        meaning: "the printer's cover is open",
        action: "close it",
    },
    Code {
        number: 12,
        name: "PTR_SUE_COVER_OK",
        kind: STATUS,
        meaning: "the printer's cover is closed",
        action: NOTHING,
    },
    Code {
        number: 24,
        name: "PTR_SUE_REC_EMPTY",
        kind: STATUS,
        meaning: "there is no paper",
        action: "put in a new roll",
    },
    Code {
        number: 25,
        name: "PTR_SUE_REC_NEAREMPTY",
        kind: STATUS,
        meaning: "the paper is near its end",
        action: "have a new roll at hand",
    },
    Code {
        number: 26,
        name: "PTR_SUE_REC_PAPEROK",
        kind: STATUS,
        meaning: "there is enough paper",
        action: NOTHING,
    },
    Code {
        number: 2001,
        name: "SUE_POWER_ONLINE",
        kind: STATUS,
        meaning: "the device is on",
        action: NOTHING,
    },
    Code {
        number: 2004,
        name: "SUE_POWER_OFF_OFFLINE",
        kind: STATUS,
        meaning: "the device is off",
        action: "switch it on",
    },
    Code {
        number: 2000,
        name: "PS_UNKNOWN",
        kind: POWER,
        meaning: "the control is disabled, or PowerNotify is PN_DISABLED",
        action: NOTHING,
    },
    Code {
        number: 2001,
        name: "PS_ONLINE",
        kind: POWER,
        meaning: "the device is on",
        action: NOTHING,
    },
    Code {
        number: 2004,
        name: "PS_OFF_OFFLINE",
        kind: POWER,
        meaning: "the device is off",
        action: "switch it on",
    },
    Code {
        number: 1,
        name: "S_CLOSED",
        kind: STATE,
        meaning: "the control is closed",
        action: "open it",
    },
    Code {
        number: 2,
        name: "S_IDLE",
        kind: STATE,
        meaning: "the control is open, and nothing waits",
        action: NOTHING,
    },
    Code {
        number: 3,
        name: "S_BUSY",
        kind: STATE,
        meaning: "output waits",
        action: "wait for it",
    },
    Code {
        number: 4,
        name: "S_ERROR",
        kind: STATE,
        meaning: "the control is in an error state of input or output",
        action: "reply to its ErrorEvent, or clear it",
    },
    Code {
        number: 1,
        name: "EL_OUTPUT",
        kind: LOCUS,
        meaning: "output failed",
        action: "reply ER_RETRY or ER_CLEAR",
    },
    Code {
        number: 2,
        name: "EL_INPUT",
        kind: LOCUS,
        meaning: "input failed, and no earlier input is held",
        action: "reply ER_CLEAR, and scan again",
    },
    Code {
        number: 3,
        name: "EL_INPUT_DATA",
        kind: LOCUS,
        meaning: "input failed, and earlier input is still held",
        action: "reply ER_CONTINUEINPUT or ER_CLEAR",
    },
    Code {
        number: 11,
        name: "ER_RETRY",
        kind: REPLY,
        meaning: "tries the output again",
        action: NOTHING,
    },
    Code {
        number: 12,
        name: "ER_CLEAR",
        kind: REPLY,
        meaning: "deletes the output that waits, or the input that is held",
        action: NOTHING,
    },
    Code {
        number: 13,
        name: "ER_CONTINUEINPUT",
        kind: REPLY,
        meaning: "delivers the input that is held",
        action: NOTHING,
    },
];

/// Returns the codes of the standard, by their kinds. The names of a kind have the numbers that a counter answers and
/// sends.
pub fn standard_codes() -> &'static [Code<'static>]
    ensures { map identity_of result.now ≡ standard_codes }
{
    &CODES
}
