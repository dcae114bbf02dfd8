//! The properties of a control.
ghost use Rattle.std.specs.Prelude.{◌≡◌, ◌==◌, ◌||◌, bytes_eq, is_some, nat_le};
ghost use Rattle.std.specs.Map.{lookup};
ghost use Rattle.pos_service.specs.Controls.{default_settings};
ghost use Rattle.pos_service.specs.Properties.{names_of, property_named, row_of, plain, settable, of_device, is_in, needs_of, needs_to_set, settings_after, truth_of};

use crate::answer::Value;
use crate::category::Category;
use crate::needs::{ClaimNeed, Needs};
use crate::words::is;

/// A property of a control (common chapter, and chapters Cash Drawer, Scanner, Line Display, POS Printer and Hard
/// Totals).
#[derive(Clone, Copy, PartialEq, Eq)]
pub enum Property {
    /// The state of the control: closed 1, idle 2, busy 3, in error 4.
    State,
    /// Whether the control has claimed the device.
    Claimed,
    /// Whether the device is in operation for this control.
    DeviceEnabled,
    /// Whether no event is delivered.
    FreezeEvents,
    /// How the device reports its power: not at all (PR_NONE) 0, or whether it is on (PR_STANDARD) 1.
    CapPowerReporting,
    /// Whether the control is notified of the device's power: not (PN_DISABLED) 0, or notified (PN_ENABLED) 1.
    PowerNotify,
    /// The device's power, as far as the control is notified of it: unknown (PS_UNKNOWN) 2000, on (PS_ONLINE) 2001, off
    /// (PS_OFF_OFFLINE) 2004.
    PowerState,
    /// Whether DataEvents and errors of input are delivered.
    DataEventEnabled,
    /// Whether the next input that comes disables the control.
    AutoDisable,
    /// How many DataEvents are enqueued.
    DataCount,
    /// Whether the label and the type of what is scanned are reported.
    DecodeData,
    /// All that was scanned, of the last DataEvent that was delivered.
    ScanData,
    /// The label in it.
    ScanDataLabel,
    /// The type of its bar code, as a number of 0 to 999.
    ScanDataType,
    /// Whether the drawer can report if it is open.
    CapStatus,
    /// Whether the drawer is open.
    DrawerOpened,
    /// How many rows the display has.
    Rows,
    /// How many columns the display has.
    Columns,
    /// The row where the next text begins, from 0.
    CursorRow,
    /// The column where the next text begins, from 0: at most one right of the last column.
    CursorColumn,
    /// Whether a text moves the cursor to its end.
    CursorUpdate,
    /// Whether requests are queued, and done later.
    AsyncMode,
    /// The OutputID of the request that was queued last.
    OutputId,
    /// How many characters a line of the receipt has.
    RecLineChars,
    /// Whether the printer's cover is open.
    CoverOpen,
    /// Whether no paper is left.
    RecEmpty,
    /// Whether the paper is near its end, or none is left.
    RecNearEnd,
    /// How many bytes the files of the totals may have in total.
    TotalsSize,
    /// How many bytes are left for new files.
    FreeData,
    /// How many files there are.
    NumberOfFiles,
    /// Whether the control is in a transaction.
    TransactionInProgress,
    /// Whether changes can be made together as a transaction.
    CapTransactions,
    /// Whether there can be only one file.
    CapSingleFile,
    /// Whether files are kept with error detection.
    CapErrorDetection,
}

/// The properties of a control that are set, except DeviceEnabled and those of the cursor.
#[derive(Clone, Copy, PartialEq, Eq)]
pub struct Settings {
    /// FreezeEvents.
    pub freeze_events: bool,
    /// Whether PowerNotify is PN_ENABLED.
    pub power_notify: bool,
    /// DataEventEnabled.
    pub data_event_enabled: bool,
    /// AutoDisable.
    pub auto_disable: bool,
    /// DecodeData.
    pub decode_data: bool,
    /// AsyncMode.
    pub async_mode: bool,
}

impl Settings {
    /// Returns those of a control that was just opened.
    pub fn new() -> Self
        ensures { result ≡ default_settings }
    {
        Settings {
            freeze_events: false,
            power_notify: false,
            data_event_enabled: false,
            auto_disable: false,
            decode_data: false,
            async_mode: false,
        }
    }

    /// Returns the value of a property that is a truth value, or `None` if the property isn't one of these.
    pub fn truth(&self, property: Property) -> Option<bool>
        ensures { result ≡ truth_of self.now property }
    {
        match property {
            Property::FreezeEvents => Some(self.freeze_events),
            Property::DataEventEnabled => Some(self.data_event_enabled),
            Property::AutoDisable => Some(self.auto_disable),
            Property::DecodeData => Some(self.decode_data),
            Property::AsyncMode => Some(self.async_mode),
            _ => None,
        }
    }

    /// Sets a property that is a truth value. Returns whether the property is one of these; if not, nothing changes.
    pub fn set_truth(&mut self, property: Property, is_true: bool) -> bool
        ensures known { result ≡ is_some (truth_of self.old property) }
        ensures set { self.new ≡ settings_after self.old property (Value.Truth is_true) }
    {
        match property {
            Property::FreezeEvents => self.freeze_events = is_true,
            Property::DataEventEnabled => self.data_event_enabled = is_true,
            Property::AutoDisable => self.auto_disable = is_true,
            Property::DecodeData => self.decode_data = is_true,
            Property::AsyncMode => self.async_mode = is_true,
            _ => return false,
        }
        true
    }
}

/// What is known of a property beforehand.
#[derive(Clone, Copy, PartialEq, Eq)]
pub struct PropertyRow {
    /// The category whose controls have it; none if each has it.
    pub category: Option<Category>,
    /// Whether it can be read only of an open control.
    pub is_open: bool,
    /// What reading it asks of the claim of the device.
    pub claim: ClaimNeed,
    /// Whether it can be read only of an enabled device.
    pub is_enabled: bool,
    /// Whether it can be read only of totals that are ready.
    pub is_of_files: bool,
    /// Whether its value is a copy of bytes, which takes memory.
    pub is_of_bytes: bool,
    /// Whether it can be set at all.
    pub is_settable: bool,
}

/// The row of a property of an open control.
fn plain(category: Option<Category>) -> PropertyRow
    ensures { result ≡ plain category }
{
    PropertyRow {
        category,
        is_open: true,
        claim: ClaimNeed::Any,
        is_enabled: false,
        is_of_files: false,
        is_of_bytes: false,
        is_settable: false,
    }
}

/// The row of a property that can be set.
fn settable(category: Option<Category>) -> PropertyRow
    ensures { result ≡ settable category }
{
    PropertyRow {
        is_settable: true,
        ..plain(category)
    }
}

/// The row of a property of an enabled device.
fn of_device(category: Category, claim: ClaimNeed) -> PropertyRow
    ensures { result ≡ of_device category claim }
{
    PropertyRow {
        claim,
        is_enabled: true,
        ..plain(Some(category))
    }
}

/// The property of this name of at most 7 bytes.
fn named_shortly(word: &[u8]) -> Option<Property>
    ensures { result ≡ lookup (bytes_eq word.now) (names_of (λ k. nat_le k 7)) }
{
    match word {
        _ if is(word, "State") => Some(Property::State),
        _ if is(word, "Claimed") => Some(Property::Claimed),
        _ if is(word, "Rows") => Some(Property::Rows),
        _ if is(word, "Columns") => Some(Property::Columns),
        _ => None,
    }
}

/// The property of this name of 8 bytes.
fn named_in_eight(word: &[u8]) -> Option<Property>
    ensures { result ≡ lookup (bytes_eq word.now) (names_of (λ k. k == 8)) }
{
    match word {
        _ if is(word, "ScanData") => Some(Property::ScanData),
        _ if is(word, "OutputID") => Some(Property::OutputId),
        _ if is(word, "RecEmpty") => Some(Property::RecEmpty),
        _ if is(word, "FreeData") => Some(Property::FreeData),
        _ => None,
    }
}

/// The property of this name of 9 bytes.
fn named_in_nine(word: &[u8]) -> Option<Property>
    ensures { result ≡ lookup (bytes_eq word.now) (names_of (λ k. k == 9)) }
{
    match word {
        _ if is(word, "DataCount") => Some(Property::DataCount),
        _ if is(word, "CapStatus") => Some(Property::CapStatus),
        _ if is(word, "CursorRow") => Some(Property::CursorRow),
        _ if is(word, "AsyncMode") => Some(Property::AsyncMode),
        _ if is(word, "CoverOpen") => Some(Property::CoverOpen),
        _ => None,
    }
}

/// The property of this name of 10 or 11 bytes.
fn named_in_ten(word: &[u8]) -> Option<Property>
    ensures { result ≡ lookup (bytes_eq word.now) (names_of (λ k. k == 10 || k == 11)) }
{
    match word {
        _ if is(word, "PowerNotify") => Some(Property::PowerNotify),
        _ if is(word, "PowerState") => Some(Property::PowerState),
        _ if is(word, "AutoDisable") => Some(Property::AutoDisable),
        _ if is(word, "DecodeData") => Some(Property::DecodeData),
        _ if is(word, "RecNearEnd") => Some(Property::RecNearEnd),
        _ if is(word, "TotalsSize") => Some(Property::TotalsSize),
        _ => None,
    }
}

/// The property of this name of 12 bytes.
fn named_in_twelve(word: &[u8]) -> Option<Property>
    ensures { result ≡ lookup (bytes_eq word.now) (names_of (λ k. k == 12)) }
{
    match word {
        _ if is(word, "FreezeEvents") => Some(Property::FreezeEvents),
        _ if is(word, "ScanDataType") => Some(Property::ScanDataType),
        _ if is(word, "DrawerOpened") => Some(Property::DrawerOpened),
        _ if is(word, "CursorColumn") => Some(Property::CursorColumn),
        _ if is(word, "CursorUpdate") => Some(Property::CursorUpdate),
        _ if is(word, "RecLineChars") => Some(Property::RecLineChars),
        _ => None,
    }
}

/// The property of this name of 13 bytes.
fn named_in_thirteen(word: &[u8]) -> Option<Property>
    ensures { result ≡ lookup (bytes_eq word.now) (names_of (λ k. k == 13)) }
{
    match word {
        _ if is(word, "DeviceEnabled") => Some(Property::DeviceEnabled),
        _ if is(word, "ScanDataLabel") => Some(Property::ScanDataLabel),
        _ if is(word, "NumberOfFiles") => Some(Property::NumberOfFiles),
        _ if is(word, "CapSingleFile") => Some(Property::CapSingleFile),
        _ => None,
    }
}

/// The property of this name of 14 bytes or more.
fn named_at_length(word: &[u8]) -> Option<Property>
    ensures { result ≡ lookup (bytes_eq word.now) (names_of (λ k. nat_le 14 k)) }
{
    match word {
        _ if is(word, "CapPowerReporting") => Some(Property::CapPowerReporting),
        _ if is(word, "DataEventEnabled") => Some(Property::DataEventEnabled),
        _ if is(word, "TransactionInProgress") => Some(Property::TransactionInProgress),
        _ if is(word, "CapTransactions") => Some(Property::CapTransactions),
        _ if is(word, "CapErrorDetection") => Some(Property::CapErrorDetection),
        _ => None,
    }
}

impl Property {
    /// Returns the property of this name, as the standard writes it, or `None` if there is none. It is looked up among
    /// those whose names are as long.
    pub fn named(word: &[u8]) -> Option<Self>
        ensures { result ≡ property_named word.now }
    {
        match word.len() {
            0..=7 => named_shortly(word),
            8 => named_in_eight(word),
            9 => named_in_nine(word),
            10 | 11 => named_in_ten(word),
            12 => named_in_twelve(word),
            13 => named_in_thirteen(word),
            _ => named_at_length(word),
        }
    }

    /// Returns what is known of it beforehand.
    pub fn row(self) -> PropertyRow
        ensures { result ≡ row_of self }
    {
        match self {
            Property::State => PropertyRow {
                is_open: false,
                ..plain(None)
            },
            Property::Claimed | Property::CapPowerReporting | Property::PowerState => plain(None),
            Property::DeviceEnabled | Property::FreezeEvents | Property::PowerNotify => {
                settable(None)
            }
            Property::DataEventEnabled | Property::AutoDisable | Property::DecodeData => {
                settable(Some(Category::Scanner))
            }
            Property::DataCount | Property::ScanDataType => plain(Some(Category::Scanner)),
            Property::ScanData | Property::ScanDataLabel => PropertyRow {
                is_of_bytes: true,
                ..plain(Some(Category::Scanner))
            },
            Property::CapStatus => plain(Some(Category::CashDrawer)),
            Property::DrawerOpened => of_device(Category::CashDrawer, ClaimNeed::Any),
            Property::Rows | Property::Columns => plain(Some(Category::LineDisplay)),
            Property::CursorRow | Property::CursorColumn | Property::CursorUpdate => {
                settable(Some(Category::LineDisplay))
            }
            Property::AsyncMode => settable(Some(Category::PosPrinter)),
            Property::OutputId => plain(Some(Category::PosPrinter)),
            Property::RecLineChars
            | Property::CoverOpen
            | Property::RecEmpty
            | Property::RecNearEnd => of_device(Category::PosPrinter, ClaimNeed::Own),
            Property::FreeData | Property::NumberOfFiles => PropertyRow {
                is_of_files: true,
                ..of_device(Category::HardTotals, ClaimNeed::Any)
            },
            Property::TotalsSize
            | Property::TransactionInProgress
            | Property::CapTransactions
            | Property::CapSingleFile
            | Property::CapErrorDetection => plain(Some(Category::HardTotals)),
        }
    }

    /// Returns what reading it asks of a control of a category before anything else.
    pub fn needs(self, category: Category) -> Needs
        ensures { result ≡ needs_of category self }
    {
        let row = self.row();
        Needs {
            is_open: row.is_open,
            is_there: row.is_in(category),
            claim: row.claim,
            is_enabled: row.is_enabled,
        }
    }

    /// Returns what setting it asks of a control of a category before anything else. To set DeviceEnabled of an
    /// exclusive-use device, the control has to have claimed it.
    pub fn needs_to_set(self, category: Category) -> Needs
        ensures { result ≡ needs_to_set category self }
    {
        let row = self.row();
        let is_held = self == Property::DeviceEnabled && category.is_exclusive();
        Needs {
            is_open: true,
            is_there: row.is_in(category) && row.is_settable,
            claim: if is_held {
                ClaimNeed::Own
            } else {
                ClaimNeed::Any
            },
            is_enabled: false,
        }
    }
}

impl PropertyRow {
    /// Returns whether the controls of a category have it.
    fn is_in(self, category: Category) -> bool
        ensures { result ≡ is_in self.category category }
    {
        match self.category {
            Some(its) => its == category,
            None => true,
        }
    }
}
