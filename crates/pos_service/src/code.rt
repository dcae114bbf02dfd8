//! The result codes of the standard.
ghost use Rattle.std.specs.Prelude.{◌≡◌};
ghost use Rattle.pos_service.specs.Codes.{number_of};

/// ETOT_NOROOM, the extended code of Hard Totals without room for what is asked (chapter Hard Totals).
pub const ETOT_NOROOM: u32 = 201;

/// EPTR_COVER_OPEN, the extended code of a printer whose cover is open (chapter POS Printer).
pub const EPTR_COVER_OPEN: u32 = 201;

/// EPTR_REC_EMPTY, the extended code of a printer that has too little paper (chapter POS Printer).
pub const EPTR_REC_EMPTY: u32 = 203;

/// A result code of the standard (common chapter, ErrorCode).
#[derive(Clone, Copy, PartialEq, Eq)]
pub enum Code {
    /// E_SUCCESS: the call did what it does.
    Success,
    /// E_CLOSED: the control is closed.
    Closed,
    /// E_CLAIMED: another control has claimed what is asked for.
    Claimed,
    /// E_NOTCLAIMED: what is asked for has to be claimed first.
    NotClaimed,
    /// E_NOSERVICE: the device has no peripheral.
    NoService,
    /// E_DISABLED: the control is disabled.
    Disabled,
    /// E_ILLEGAL: an argument or the state doesn't allow the call.
    Illegal,
    /// E_NOHARDWARE: the device can't be used as it is.
    NoHardware,
    /// E_OFFLINE: the device is off.
    Offline,
    /// E_NOEXIST: what is named isn't there.
    NoExist,
    /// E_EXISTS: what is to be made is there already.
    Exists,
    /// E_FAILURE: the device failed, or a number has run out.
    Failure,
    /// E_TIMEOUT: the time was over before the call could be done.
    Timeout,
    /// E_BUSY: the device is at work.
    Busy,
    /// E_EXTENDED: the extended code says what is wrong.
    Extended,
}

impl Code {
    /// Returns its number in the standard.
    pub fn number(self) -> u32
        ensures { result ≡ number_of self }
    {
        match self {
            Code::Success => 0,
            Code::Closed => 101,
            Code::Claimed => 102,
            Code::NotClaimed => 103,
            Code::NoService => 104,
            Code::Disabled => 105,
            Code::Illegal => 106,
            Code::NoHardware => 107,
            Code::Offline => 108,
            Code::NoExist => 109,
            Code::Exists => 110,
            Code::Failure => 111,
            Code::Timeout => 112,
            Code::Busy => 113,
            Code::Extended => 114,
        }
    }
}
