//! The commands for a printer that print nothing: the start, the drawer, and what asks for a status.
ghost use Rattle.std.specs.Prelude.{◌≡◌, ℕ, ◌++◌, ◌∷◌, []};
ghost use Rattle.pos_escpos.specs.PrinterCommands.{IsStarted, job_command, kick_command, kick_pulse, now_command, order_command, start_command};
ghost use Rattle.pos_escpos.specs.Printers.{Press, press_after, questioned};

use crate::settings::{DrawerKick, DrawerPin};

/// What a printer tells at once, also while it is offline (DLE EOT).
#[derive(Clone, Copy, PartialEq, Eq)]
pub enum NowStatus {
    /// The drawer's pin, and whether the printer is offline.
    Printer,
    /// Why it is offline: its cover, its paper, a fault.
    OfflineCause,
    /// Its faults.
    Fault,
    /// Its paper.
    Paper,
}

/// What a printer tells after all that came before it (GS r).
#[derive(Clone, Copy, PartialEq, Eq)]
pub enum OrderStatus {
    /// Its paper.
    Paper,
    /// The drawer's pin.
    Drawer,
}

/// Returns the bytes that a connection to a printer begins with: the printer is initialized, and sends an automatic
/// status from here on or none.
pub fn start_bytes(is_automatic: bool) -> [u8; 5]
    ensures bytes { result ≡ start_command is_automatic }
    ensures starts { (width : ℕ) (press : Press) → press.begun ≡ [] →
        IsStarted is_automatic press (press_after width press result) }
{
    [0x1B, b'@', 0x1D, b'a', if is_automatic { 0xFF } else { 0 }]
}

impl DrawerKick {
    /// Returns the bytes that open the drawer: one pulse.
    pub fn bytes(self) -> [u8; 5]
        ensures bytes { result ≡ kick_command self }
        ensures kicks { (width : ℕ) (press : Press) → press.begun ≡ [] →
            press_after width press result ≡ record press { pulses = press.pulses ++ kick_pulse self ∷ [] } }
    {
        let pin = match self.pin {
            DrawerPin::Two => 0,
            DrawerPin::Five => 1,
        };
        [0x1B, b'p', pin, self.on, self.off]
    }
}

impl NowStatus {
    /// Returns the bytes that ask for it.
    pub fn bytes(self) -> [u8; 3]
        ensures bytes { result ≡ now_command self }
        ensures asks { (width : ℕ) (press : Press) → press.begun ≡ [] →
            press_after width press result ≡ questioned result press }
    {
        let number = match self {
            NowStatus::Printer => 1,
            NowStatus::OfflineCause => 2,
            NowStatus::Fault => 3,
            NowStatus::Paper => 4,
        };
        [0x10, 4, number]
    }
}

impl OrderStatus {
    /// Returns the bytes that ask for it.
    pub fn bytes(self) -> [u8; 3]
        ensures bytes { result ≡ order_command self }
        ensures asks { (width : ℕ) (press : Press) → press.begun ≡ [] →
            press_after width press result ≡ questioned result press }
    {
        let number = match self {
            OrderStatus::Paper => 1,
            OrderStatus::Drawer => 2,
        };
        [0x1D, b'r', number]
    }
}

/// Returns the bytes that end a job: when all before them is printed, the printer sends an acknowledgement with the
/// job's number.
pub fn job_bytes(number: u16) -> [u8; 11]
    ensures bytes { result ≡ job_command number }
    ensures asks { (width : ℕ) (press : Press) → press.begun ≡ [] →
        press_after width press result ≡ questioned result press }
{
    let [high, low] = number.to_be_bytes();
    let (a, b, c, d) = (high / 16, high % 16, low / 16, low % 16);
    [
        0x1D,
        b'(',
        b'H',
        6,
        0,
        b'0',
        b'0',
        b'@' + a,
        b'@' + b,
        b'@' + c,
        b'@' + d,
    ]
}
