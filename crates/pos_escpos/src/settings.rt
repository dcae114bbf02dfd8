//! What a driver has to know of a printer or a display.
ghost use Rattle.std.specs.Prelude.{◌≡◌, ◌<◌, ◌≤◌, ◌⊎◌, IfSome, IfNone};

/// A printer's line.
#[derive(Clone, Copy)]
pub struct LineSettings {
    /// How many characters the printer prints on a line.
    pub width: u32,
    /// How many characters the device's lines have, as RecLineChars: at most the width.
    pub columns: u32,
    ghost fits: { columns ≤ width },
}

impl LineSettings {
    /// Returns these settings, or `None` if the columns are more than the width.
    pub fn new(width: u32, columns: u32) -> Option<Self>
        ensures some { IfSome result (λ line. (line.width ≡ width) × (line.columns ≡ columns)) }
        ensures none { IfNone result (width < columns) }
    {
        if columns > width {
            return None;
        }
        Some(LineSettings { width, columns })
    }
}

/// What a printer's cutter does.
#[derive(Clone, Copy, PartialEq, Eq)]
pub enum Cutter {
    /// It cuts both ways: a cut of 100 percent is full, any other one partial.
    Both,
    /// Each cut is full.
    Full,
    /// Each cut is partial.
    Partial,
    /// There is none. A cut feeds the paper, which the user tears off.
    Absent,
}

/// How a printer cuts.
#[derive(Clone, Copy)]
pub struct CutSettings {
    /// What its cutter does.
    pub cutter: Cutter,
    /// How far it feeds the paper past the cutter before a cut, in dots; without a cutter, in lines.
    pub feed: u8,
}

/// The pin of the drawer connector that opens the drawer.
#[derive(Clone, Copy, PartialEq, Eq)]
pub enum DrawerPin {
    /// Pin 2.
    Two,
    /// Pin 5.
    Five,
}

/// The pulse that opens a drawer.
#[derive(Clone, Copy)]
pub struct DrawerKick {
    /// The pin that it is on.
    pub pin: DrawerPin,
    /// How long it lasts, in 2 ms.
    pub on: u8,
    /// How long the pin is off then at least, in 2 ms.
    pub off: u8,
}

/// What a printer's sensors mean for the device machine.
#[derive(Clone, Copy)]
pub struct SensorSettings {
    /// Whether the drawer is open when pin 3 of its connector is high. Else it is open when the pin is low.
    pub is_open_high: bool,
    /// At how many lines the device's paper is near its end.
    pub near: u32,
    /// How many lines a good roll has, more than that and at most 100,000.
    pub lines: u32,
    ghost more: { near < lines },
    ghost most: { lines ≤ 100000 },
}

impl SensorSettings {
    /// Returns these settings, or `None` if the lines are out of their range.
    pub fn new(is_open_high: bool, near: u32, lines: u32) -> Option<Self>
        ensures some { IfSome result (λ sensors.
            (sensors.is_open_high ≡ is_open_high) × (sensors.near ≡ near) × (sensors.lines ≡ lines)) }
        ensures none { IfNone result ((lines ≤ near) ⊎ (100000 < lines)) }
    {
        if lines <= near || lines > 100_000 {
            return None;
        }
        Some(SensorSettings {
            is_open_high,
            near,
            lines,
        })
    }
}

/// All settings of a receipt printer.
#[derive(Clone, Copy)]
pub struct PrinterSettings {
    /// Its line.
    pub line: LineSettings,
    /// How it cuts.
    pub cut: CutSettings,
    /// The pulse that opens its drawer.
    pub kick: DrawerKick,
    /// What its sensors mean.
    pub sensors: SensorSettings,
}

/// The commands that a customer display has.
#[derive(Clone, Copy, PartialEq, Eq)]
pub enum DisplayProtocol {
    /// CD5220.
    Cd5220,
    /// ESC/POS.
    EscPos,
}
