//! The names of a script's controls.
ghost use Rattle.std.specs.Prelude.{◌≡◌, ◌<◌, ◌++◌, ◌∷◌, [], None, IfOk, OnOk};
ghost use Rattle.pos_run.specs.Names.{names_of, number_named, room_of};

use indexmap::IndexMap;
use pos_profile::find_name;
use pos_service::NoMemory;
use std::alloc::Global;
use std::cell::Cell;

/// The controls of a script: their numbers by their names. It keeps the place of the name that was found last, since a
/// line mostly names the control of the line before.
#[derive(Drop)]
pub struct Names {
    alloc: Global,
    numbers: IndexMap<Vec<u8>, usize>,
    last: Cell<usize>,
}

impl Names {
    /// Returns the names of no controls.
    pub fn new(alloc: Global) -> Self
        ensures { names_of result ≡ [] }
    {
        Names {
            alloc,
            numbers: IndexMap::new(alloc),
            last: Cell::new(0),
        }
    }

    /// Returns the number of the control with a name. The name that was found last isn't hashed again.
    #[inline(always)]
    pub fn find(&self, name: &[u8]) -> Option<usize>
        ensures { result ≡ number_named (names_of self.now) name.now }
    {
        find_name(&self.numbers, &self.last, name)
    }

    /// Returns a copy of a name, and makes room for it.
    ///
    /// # Errors
    ///
    /// [`NoMemory`] if memory ran out.
    pub fn make_room(&mut self, name: &[u8]) -> Result<Vec<u8>, NoMemory>
        ensures names { names_of self.new ≡ names_of self.old }
        ensures copy { IfOk result (λ copy. copy.items ≡ name.now) }
        ensures room { OnOk result (0 < room_of self.new) }
    {
        if self.numbers.reserve(1).is_err() {
            return Err(NoMemory);
        }
        match Vec::from_slice(self.alloc, name) {
            Ok(copy) => Ok(copy),
            Err(_) => Err(NoMemory),
        }
    }

    /// Gives a control a name that no control has. There has to be room.
    pub fn add(&mut self, name: Vec<u8>, number: usize)
        requires free { number_named (names_of self.old) name.items ≡ None }
        requires room { 0 < room_of self.old }
        ensures { names_of self.new ≡ names_of self.old ++ (name.items, number) ∷ [] }
    {
        self.numbers.insert(name, number).unwrap();
    }
}
