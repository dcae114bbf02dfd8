//! The cells of a window, as a text is laid on them.
ghost use Rattle.std.specs.Prelude.{◌≡◌, ◌+◌, ◌*◌, ◌<◌, ◌≤◌, length};
ghost use Rattle.pos_service.specs.Displays.{Display};
ghost use Rattle.pos_sims.specs.Windows.{SameSize, ShiftsToFront, with_run_at};

use pos_service::display_text::{Attribute, Place};

/// The cells of a window, as a text is laid on them.
pub(crate) trait Grid {
    /// The window's size, and its cells row by row.
    ghost shown: { Self → Display };

    /// Puts characters with an attribute into a row, from a place on, one after the other.
    fn put_run(&mut self, place: Place, attribute: Attribute, characters: &[u8])
        requires count { length (shown self.old).cells ≡ (shown self.old).rows * (shown self.old).columns }
        requires row { place.row < (shown self.old).rows }
        requires columns { place.column + length characters.now ≤ (shown self.old).columns }
        requires some { 1 ≤ length characters.now }
        ensures { shown self.new ≡ record (shown self.old) {
          cells = with_run_at (place.row * (shown self.old).columns + place.column) attribute characters.now
              (shown self.old).cells;
        } };

    /// Moves each row up by one, and blanks the last.
    fn feed_row(&mut self)
        ensures size { SameSize (shown self.old) (shown self.new) }
        ensures moved { ShiftsToFront (shown self.old).columns (shown self.old).cells (shown self.new).cells };
}
