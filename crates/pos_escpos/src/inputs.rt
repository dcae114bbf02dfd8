//! A printer's status as inputs of the device machine.
ghost use Rattle.std.specs.Prelude.{◌≡◌, ℕ, true};
ghost use Rattle.pos_service.specs.declared.input.Input.TheVariants as input;
ghost use Rattle.pos_service.specs.declared.kind.Kind.TheVariants as kind;
ghost use Rattle.pos_service.specs.declared.plant.Plant.{Plant};
ghost use Rattle.pos_service.specs.Peripherals.{IsPlantOf, signs_of};
ghost use Rattle.pos_escpos.specs.Inputs.{TakesAll, drawer_signs_after, drawer_table, level_input, level_shown, moved_input, open_told, paper_input, power_input, printer_signs_after, printer_table};

use crate::settings::SensorSettings;
use crate::statuses::Status;
use pos_service::{Input, PaperLevel, Signs};

/// Returns that power came, if the device shows none.
fn power_input(powered: bool) -> Option<Input>
    ensures { result ≡ power_input powered }
{
    if powered {
        None
    } else {
        Some(Input::PowerMoved(true))
    }
}

/// Returns what a sensor tells of a printer's cover, if the device shows another thing.
fn cover_input(shown: bool, told: Option<bool>) -> Option<Input>
    ensures { result ≡ moved_input input.CoverMoved shown told }
{
    match (shown, told) {
        (false, Some(true)) => Some(Input::CoverMoved(true)),
        (true, Some(false)) => Some(Input::CoverMoved(false)),
        _ => None,
    }
}

/// Returns what a sensor tells of a drawer, if the device shows another thing.
fn drawer_input(shown: bool, told: Option<bool>) -> Option<Input>
    ensures { result ≡ moved_input input.DrawerMoved shown told }
{
    match (shown, told) {
        (false, Some(true)) => Some(Input::DrawerMoved(true)),
        (true, Some(false)) => Some(Input::DrawerMoved(false)),
        _ => None,
    }
}

/// Returns the level that a device shows at what its sensor tells.
fn level_shown(near: u32, level: PaperLevel) -> PaperLevel
    ensures { result ≡ level_shown near level }
{
    match level {
        PaperLevel::NearEnd if near == 0 => PaperLevel::Good,
        other => other,
    }
}

/// Returns the paper to load if a device shows another level than it has to.
fn level_input(sensors: SensorSettings, shown: PaperLevel, level: PaperLevel) -> Option<Input>
    ensures { result ≡ level_input sensors shown level }
{
    match (shown, level) {
        (PaperLevel::Good, PaperLevel::Good)
        | (PaperLevel::NearEnd, PaperLevel::NearEnd)
        | (PaperLevel::Empty, PaperLevel::Empty) => None,
        (_, PaperLevel::Good) => Some(Input::PaperLoaded(sensors.lines)),
        (_, PaperLevel::NearEnd) => Some(Input::PaperLoaded(sensors.near)),
        (_, PaperLevel::Empty) => Some(Input::PaperLoaded(0)),
    }
}

/// Returns the paper to load by what a sensor tells.
fn paper_input(
    sensors: SensorSettings,
    shown: PaperLevel,
    told: Option<PaperLevel>,
) -> Option<Input>
    ensures { result ≡ paper_input sensors shown told }
{
    match told {
        Some(level) => level_input(sensors, shown, level_shown(sensors.near, level)),
        None => None,
    }
}

/// Returns whether a drawer is open by the level of its pin.
fn open_told(sensors: SensorSettings, is_pin_high: Option<bool>) -> Option<bool>
    ensures { result ≡ open_told sensors is_pin_high }
{
    match (sensors.is_open_high, is_pin_high) {
        (_, None) => None,
        (true, Some(is_high)) => Some(is_high),
        (false, Some(is_high)) => Some(!is_high),
    }
}

/// Returns the inputs for a printer's device that shows these signs: power, cover and paper, in this order. `None`
/// stands where nothing is to be said.
///
/// While the device shows the level that the sensor tells, it goes on counting lines by itself.
pub fn printer_inputs(sensors: SensorSettings, signs: Signs, status: Status) -> [Option<Input>; 3]
    ensures table { result ≡ printer_table sensors signs status }
    // A printer's device that takes them in order shows what the sensors tell.
    ensures shows { (chars : ℕ) (old new : Plant) → let is = kind.Printer chars sensors.near in IsPlantOf is old →
        signs_of is old ≡ signs → TakesAll result old new → signs_of is new ≡ printer_signs_after sensors signs status }
{
    [
        power_input(signs.powered),
        cover_input(signs.cover_open, status.is_cover_open),
        paper_input(sensors, signs.paper, status.paper),
    ]
}

/// Returns the inputs for the drawer's device that shows these signs: power, and whether it is open, in this order.
/// `None` stands where nothing is to be said.
pub fn drawer_inputs(sensors: SensorSettings, signs: Signs, status: Status) -> [Option<Input>; 2]
    ensures table { result ≡ drawer_table sensors signs status }
    // A drawer's device that takes them in order shows what the sensor tells.
    ensures shows { (old new : Plant) → IsPlantOf kind.Drawer old → signs_of kind.Drawer old ≡ signs →
        TakesAll result old new → signs_of kind.Drawer new ≡ drawer_signs_after sensors signs status }
{
    [
        power_input(signs.powered),
        drawer_input(signs.drawer_open, open_told(sensors, status.is_pin_high)),
    ]
}
