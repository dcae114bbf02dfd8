//! Transactions: the changes that each control has buffered.
ghost use Rattle.std.specs.Prelude.{◌≡◌, ◌≤◌, ◌+◌, ◌++◌, ◌∷◌, [], Some, None, OnOk, OnErr, is_some, slice_get};
ghost use Rattle.std.specs.Prelude.{slice_set};
ghost use Rattle.std.specs.Option.{option_copied, option_map};
ghost use Rattle.pos_dir.specs.declared.file.TheConstants.{LAYOUT_2};
ghost use Rattle.pos_totals.specs.TotalsChanges.{cost_of, cost_of_all};
ghost use Rattle.pos_totals.specs.HardTotals.{transaction_at, without_transactions};
ghost use Rattle.pos_totals.specs.TotalsArrangements.{may_begin};
ghost use Rattle.pos_totals.specs.Buffers.{buffered_change, placed_change, with_buffered, HasLeft, IsOf};

use crate::edits::OwnedEdit;
use pos_dir::Change;
use pos_service::NoMemory;
use std::alloc::Global;
use std::marker::Model;

/// An edit that waits for the commit of its transaction. Contracts see the change.
#[derive(Drop)]
pub(crate) struct Buffered {
    handle: u64,
    edit: OwnedEdit,
}

impl Model for Buffered {
    ghost use Rattle.pos_totals.specs.HardTotals.{Change};
    ghost use Rattle.pos_totals.specs.Buffers.{buffered_change};

    ghost Value = { Change };

    ghost view = { λ b. buffered_change b.handle b.edit };
}

impl Buffered {
    /// Returns the buffered edit of the file with a handle.
    pub fn new(handle: u64, edit: OwnedEdit) -> Self
        ensures { result ≡ buffered_change handle edit }
    {
        Buffered { handle, edit }
    }

    /// Returns the handle of its file.
    pub fn handle(&self) -> u64
        ensures { IsOf self.now result }
    {
        self.handle
    }

    /// Returns it as a change of the directory, for the file at an index.
    pub fn lend(&self, index: u16) -> Change<'_>
        ensures { result ≡ placed_change index self.now }
    {
        self.edit.lend(index)
    }

    /// Returns what it costs.
    pub fn cost(&self) -> usize
        requires { cost_of self.now ≤ LAYOUT_2.bytes }
        ensures { result ≡ cost_of self.now }
    {
        self.edit.cost()
    }
}

/// The changes that a control has buffered, in their order. Contracts see the list.
#[derive(Drop)]
pub(crate) struct Buffer {
    changes: Vec<Buffered>,
    cost: usize,
}

impl Model for Buffer {
    ghost use Rattle.std.specs.Prelude.{◌≡◌, List};
    ghost use Rattle.pos_totals.specs.HardTotals.{Change};
    ghost use Rattle.pos_totals.specs.TotalsChanges.{cost_of_all};

    ghost Value = { List Change };

    ghost view = { λ b. b.changes.items };

    ghost invariant = { λ b. b.cost ≡ cost_of_all b.changes.items };
}

impl Buffer {
    /// Returns a buffer without changes.
    pub fn new(alloc: Global) -> Self
        ensures { result ≡ [] }
    {
        Buffer {
            changes: Vec::new(alloc),
            cost: 0,
        }
    }

    /// Returns what the changes cost in total.
    pub fn cost(&self) -> usize
        ensures { result ≡ cost_of_all self.now }
    {
        self.cost
    }

    /// Returns the changes.
    pub fn as_slice(&self) -> &[Buffered]
        ensures { result.now ≡ self.now }
    {
        &self.changes
    }

    /// Adds a change after the others.
    ///
    /// # Errors
    ///
    /// [`NoMemory`] if memory ran out. Nothing changes then.
    pub fn push(&mut self, change: Buffered) -> Result<(), NoMemory>
        requires { cost_of_all self.old + cost_of change ≤ LAYOUT_2.bytes }
        ensures ok { OnOk result (self.new ≡ self.old ++ change ∷ []) }
        ensures err { OnErr result (self.new ≡ self.old) }
    {
        let cost = change.cost();
        match self.changes.push(change) {
            Ok(()) => {
                self.cost += cost;
                Ok(())
            }
            Err(_) => Err(NoMemory),
        }
    }
}

/// What each control has buffered, by the controls' numbers, or `None` outside a transaction. Contracts see the list.
#[derive(Drop)]
pub(crate) struct Transactions {
    places: Vec<Option<Buffer>>,
}

impl Model for Transactions {
    ghost use Rattle.std.specs.Prelude.{List, Option};
    ghost use Rattle.pos_totals.specs.HardTotals.{Change};

    ghost Value = { List (Option (List Change)) };

    ghost view = { λ t. t.places.items };
}

impl Transactions {
    /// Returns the transactions of no controls.
    pub fn new(alloc: Global) -> Self
        ensures { result ≡ [] }
    {
        Transactions {
            places: Vec::new(alloc),
        }
    }

    /// Makes a place for one more control.
    ///
    /// # Errors
    ///
    /// [`NoMemory`] if memory ran out. Nothing changes then.
    pub fn add(&mut self) -> Result<(), NoMemory>
        ensures ok { OnOk result (self.new ≡ self.old ++ None ∷ []) }
        ensures err { OnErr result (self.new ≡ self.old) }
    {
        match self.places.push(None) {
            Ok(()) => Ok(()),
            Err(_) => Err(NoMemory),
        }
    }

    /// Returns whether a control may begin a transaction: it has a place for one, and is in none.
    pub fn may_begin(&self, control: usize) -> bool
        ensures { result ≡ may_begin (slice_get self.now control) }
    {
        matches!(self.places.get(control), Some(None))
    }

    /// Returns what a control has buffered, or `None` if it is in no transaction.
    pub fn buffer(&self, control: usize) -> Option<&Buffer>
        ensures { option_copied result ≡ transaction_at self.now control }
    {
        match self.places.get(control) {
            Some(Some(buffer)) => Some(buffer),
            _ => None,
        }
    }

    /// Returns whether a control is in a transaction.
    pub fn is_open(&self, control: usize) -> bool
        ensures { result ≡ is_some (transaction_at self.now control) }
    {
        self.buffer(control).is_some()
    }

    /// Returns what a control's buffered changes cost in total, or `None` if it is in no transaction.
    pub fn spent(&self, control: usize) -> Option<usize>
        ensures { result ≡ option_map cost_of_all (transaction_at self.now control) }
    {
        match self.buffer(control) {
            Some(buffer) => Some(buffer.cost()),
            None => None,
        }
    }

    /// Sets the transaction of a control, or `None` for no transaction. A control that has no place gets none.
    pub fn set(&mut self, control: usize, transaction: Option<Buffer>)
        ensures { self.new ≡ slice_set self.old control transaction }
    {
        if control < self.places.len() {
            self.places[control] = transaction;
        }
    }

    /// Adds a change to those that a control has buffered.
    ///
    /// # Errors
    ///
    /// [`NoMemory`] if memory ran out. Nothing changes then.
    pub fn push(&mut self, control: usize, change: Buffered) -> Result<(), NoMemory>
        requires { HasLeft (transaction_at self.old control) (cost_of change) }
        ensures ok { OnOk result (self.new ≡ with_buffered self.old control change) }
        ensures err { OnErr result (self.new ≡ self.old) }
    {
        match &mut self.places[control] {
            Some(buffer) => buffer.push(change),
            None => unreachable!(),
        }
    }

    /// Ends the transactions of all controls.
    pub fn end_all(&mut self)
        ensures { self.new ≡ without_transactions self.old }
    {
        for place in self.places.iter_mut() {
            *place = None;
        }
    }
}
