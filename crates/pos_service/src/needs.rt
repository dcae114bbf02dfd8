//! What calls and properties ask of a control before anything else (common chapter, sharable and exclusive-use
//! devices).

/// What is asked of the claim of a control's device.
#[derive(Clone, Copy, PartialEq, Eq)]
pub enum ClaimNeed {
    /// Nothing.
    Any,
    /// That no other control has claimed the device.
    NoOther,
    /// That the control has claimed the device.
    Own,
}

/// What a call or a property asks of a control before anything else.
#[derive(Clone, Copy, PartialEq, Eq)]
pub struct Needs {
    /// Whether the control has to be open.
    pub is_open: bool,
    /// Whether the control's category has it at all.
    pub is_there: bool,
    /// What it asks of the claim of the device.
    pub claim: ClaimNeed,
    /// Whether the device has to be enabled.
    pub is_enabled: bool,
}
