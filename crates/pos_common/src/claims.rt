//! The claims of all devices: which control holds each.
ghost use Rattle.std.specs.Prelude.{◌≡◌, ◌<◌, None, IfOk, IfSome, length, replicate};
ghost use Rattle.pos_service.specs.Claims.{claimed_by, holder_at, released_by};

use pos_service::NoMemory;
use std::alloc::Global;
use std::marker::Model;

/// Which control holds each device by a claim (common chapter, methods claim and release). Contracts see the holders'
/// numbers by the devices' places, `None` if nobody holds the device. Hard Totals have their own claims.
#[derive(Drop)]
pub struct Claims {
    holders: Vec<Option<usize>>,
}

impl Model for Claims {
    ghost use Rattle.std.specs.Prelude.{ℕ, List, Option};

    ghost Value = { List (Option ℕ) };

    ghost view = { λ claims. claims.holders.items };
}

impl Claims {
    /// Returns the claims of this many devices, none of which is held. The other methods take no memory.
    ///
    /// # Errors
    ///
    /// [`NoMemory`] if memory ran out.
    pub fn new(alloc: Global, devices: usize) -> Result<Self, NoMemory>
        ensures { IfOk result (λ claims. claims ≡ replicate devices None) }
    {
        let holders = vec![in alloc; None; devices]?;
        Ok(Claims { holders })
    }

    /// Returns the number of the control that holds the device at a place. It is `None` if nobody does, or if the place
    /// is `None`, as of a closed control.
    pub fn holder(&self, place: Option<usize>) -> Option<usize>
        ensures { result ≡ holder_at self.now place }
    {
        match self.holders.get(place?) {
            Some(holder) => *holder,
            None => None,
        }
    }

    /// Makes the control with a number the holder of the device at a place. Without a place nothing changes.
    pub fn claim(&mut self, place: Option<usize>, number: usize)
        requires { IfSome place (λ at. at < length self.old) }
        ensures { self.new ≡ claimed_by self.old place number }
    {
        if let Some(at) = place {
            self.holders[at] = Some(number);
        }
    }

    /// Ends the claim of the control with a number to its device. If that control doesn't hold it, nothing changes.
    pub fn release(&mut self, place: Option<usize>, number: usize)
        ensures { self.new ≡ released_by self.old place number }
    {
        let Some(at) = place else {
            return;
        };
        if self.holder(place) == Some(number) {
            self.holders[at] = None;
        }
    }
}
