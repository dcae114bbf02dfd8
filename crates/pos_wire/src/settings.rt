//! What a host has to say of a device's hardware.
ghost use Rattle.std.specs.Prelude.{◌≡◌, ◌≤◌, ◌<◌, ◌==◌, true};
ghost use Rattle.pos_wire.specs.Settings.{cut_of, drawer_fits, kick_of, printer_fits, protocol_of, settings_fit};

use pos_escpos::{
    CutSettings, Cutter, DisplayProtocol, DrawerKick, DrawerPin, LineSettings, SensorSettings,
};
use pos_service::Kind;

/// What a host has to say of a device's hardware, as numbers. Only those of the device's kind count.
#[repr(C)]
#[derive(Clone, Copy)]
pub struct WireSettings {
    /// A printer: how many characters it prints on a line, at least the device's RecLineChars.
    pub width: u32,
    /// A printer: its cutter cuts both ways if this is 0, full only if 1, partial only if 2; there is none if 3.
    pub cutter: u32,
    /// A printer: how far it feeds the paper before a cut, 0 to 255 dots; without a cutter, lines.
    pub feed: u32,
    /// A printer: how many lines a good roll has, more than the device's paper is near its end at, at most 100,000.
    pub lines: u32,
    /// A drawer: the pin of the connector that opens it, 2 or 5.
    pub pin: u32,
    /// A drawer: how long the pulse lasts, 0 to 255, in 2 ms.
    pub on: u32,
    /// A drawer: how long the pin is off then at least, 0 to 255, in 2 ms.
    pub off: u32,
    /// A drawer: 1 if pin 3 of the connector is high while it is open, 0 if low.
    pub open_is_high: u32,
    /// A display: its protocol is CD5220 if this is 0, ESC/POS if 1.
    pub protocol: u32,
}

impl WireSettings {
    /// Returns whether the numbers of a drawer are in their ranges.
    fn fit_drawer(&self) -> bool
        ensures { result ≡ drawer_fits self.now }
    {
        (self.pin == 2 || self.pin == 5)
            && self.on <= 255
            && self.off <= 255
            && self.open_is_high <= 1
    }

    /// Returns whether the numbers of a printer are in their ranges, for a device of so many characters a line whose
    /// paper is near its end at so many lines.
    fn fit_printer(&self, chars: u32, near: u32) -> bool
        ensures { result ≡ printer_fits chars near self.now }
    {
        chars <= self.width
            && self.cutter <= 3
            && self.feed <= 255
            && near < self.lines
            && self.lines <= 100_000
    }

    /// Returns whether the numbers of a kind are in their ranges.
    pub fn fit(&self, kind: Kind) -> bool
        ensures { result ≡ settings_fit kind self.now }
    {
        match kind {
            Kind::Drawer => self.fit_drawer(),
            Kind::Scanner => true,
            Kind::Display {
                rows: _,
                columns: _,
            } => self.protocol <= 1,
            Kind::Printer { chars, near } => self.fit_printer(chars, near),
        }
    }

    /// Returns the line of a printer, for a device of so many characters a line.
    pub(crate) fn line(&self, chars: u32) -> LineSettings
        requires { chars ≤ self.now.width }
        ensures { (result.width ≡ self.now.width) × (result.columns ≡ chars) }
    {
        match LineSettings::new(self.width, chars) {
            Some(line) => line,
            None => unreachable!(),
        }
    }

    /// Returns how a printer cuts.
    pub(crate) fn cut(&self) -> CutSettings
        requires { self.now.feed ≤ 255 }
        ensures { result ≡ cut_of self.now }
    {
        let cutter = match self.cutter {
            0 => Cutter::Both,
            1 => Cutter::Full,
            2 => Cutter::Partial,
            _ => Cutter::Absent,
        };
        CutSettings {
            cutter,
            feed: self.feed as u8,
        }
    }

    /// Returns the pulse that opens a drawer.
    pub(crate) fn kick(&self) -> DrawerKick
        requires on { self.now.on ≤ 255 }
        requires off { self.now.off ≤ 255 }
        ensures { result ≡ kick_of self.now }
    {
        let pin = if self.pin == 2 {
            DrawerPin::Two
        } else {
            DrawerPin::Five
        };
        DrawerKick {
            pin,
            on: self.on as u8,
            off: self.off as u8,
        }
    }

    /// Returns what a device's sensors mean: its paper is near its end at `near` lines, and a good roll has `lines`.
    pub(crate) fn sensors(&self, near: u32, lines: u32) -> SensorSettings
        requires more { near < lines }
        requires most { lines ≤ 100000 }
        ensures pin { result.is_open_high ≡ (self.now.open_is_high == 1) }
        ensures near { result.near ≡ near }
        ensures lines { result.lines ≡ lines }
    {
        match SensorSettings::new(self.open_is_high == 1, near, lines) {
            Some(sensors) => sensors,
            None => unreachable!(),
        }
    }

    /// Returns a display's protocol.
    pub(crate) fn protocol(&self) -> DisplayProtocol
        ensures { result ≡ protocol_of self.now }
    {
        if self.protocol == 0 {
            DisplayProtocol::Cd5220
        } else {
            DisplayProtocol::EscPos
        }
    }
}
