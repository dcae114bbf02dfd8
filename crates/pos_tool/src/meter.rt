//! How far long work is, shown at a terminal.

use pos_shell::ProgressReport;
use std::io::Eprint;
use std::time::{Clock, Duration, Instant};

/// Shows how far work is, from a second after its begin on, in one line among the errors, which it takes away again.
/// It shows nothing if these are no terminal.
#[derive(Drop)]
pub struct Meter<'a, R: Clock + Eprint> {
    system: &'a R,
    began: Option<Instant>,
    is_shown: bool,
}

impl<'a, R: Clock + Eprint> Meter<'a, R> {
    /// Returns a meter that begins now, over a system whose errors are a terminal or not.
    pub fn new(system: &'a R, is_terminal: bool) -> Meter<'a, R> {
        let began = if is_terminal {
            Instant::now(system).ok()
        } else {
            None
        };
        Meter {
            system,
            began,
            is_shown: false,
        }
    }

    // Whether a second is over.
    fn is_due(&self) -> bool {
        let Some(began) = self.began else {
            return false;
        };
        match began.elapsed(self.system) {
            Ok(time) => time >= Duration::from_secs(1),
            Err(_) => false,
        }
    }
}

impl<R: Clock + Eprint> ProgressReport for Meter<'_, R> {
    fn report(&mut self, done: usize, all: usize) {
        if self.is_due() {
            let _ = self.system.eprint(format_args!("\rtried {done} of {all}"));
            self.is_shown = true;
        }
    }

    fn end(&mut self) {
        if self.is_shown {
            let _ = self.system.eprint(format_args!("\r\x1b[K"));
            self.is_shown = false;
        }
    }
}
