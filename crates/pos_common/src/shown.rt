//! The scan that a control shows.
ghost use Rattle.std.specs.Prelude.{◌≡◌, IfOk};
ghost use Rattle.pos_service.specs.Controls.{as_shown, no_scan, shown_after};

use pos_service::{Bytes, NoMemory, Scan};
use std::alloc::Global;
use std::marker::Model;

/// The scan that a control shows in ScanData, ScanDataLabel and ScanDataType (chapter Scanner).
#[derive(Drop)]
pub(crate) struct ShownScan {
    alloc: Global,
    scan: Scan,
}

impl Model for ShownScan {
    ghost use Rattle.pos_service.specs.declared.input.Scan.{Scan};

    ghost Value = { Scan };

    ghost view = { λ a. a.scan };
}

impl ShownScan {
    /// Returns no scan.
    pub(crate) fn new(alloc: Global) -> Self
        ensures { result ≡ no_scan }
    {
        ShownScan {
            alloc,
            scan: no_scan(alloc),
        }
    }

    /// Returns ScanDataType.
    pub(crate) fn kind(&self) -> u32
        ensures { result ≡ self.now.kind }
    {
        self.scan.kind
    }

    /// Returns a copy of ScanData: all that was read.
    ///
    /// # Errors
    ///
    /// [`NoMemory`] if memory ran out.
    pub(crate) fn copy_of_bytes(&self) -> Result<Bytes, NoMemory>
        ensures { IfOk result (λ copy. copy ≡ self.now.bytes) }
    {
        Ok(Bytes::from_slice(self.alloc, self.scan.bytes.as_slice())?)
    }

    /// Returns a copy of ScanDataLabel: the label in what was read.
    ///
    /// # Errors
    ///
    /// [`NoMemory`] if memory ran out.
    pub(crate) fn copy_of_label(&self) -> Result<Bytes, NoMemory>
        ensures { IfOk result (λ copy. copy ≡ self.now.label) }
    {
        Ok(Bytes::from_slice(self.alloc, self.scan.label.as_slice())?)
    }

    /// Shows the scan of a DataEvent that is delivered, its label and its type as DecodeData says. Another event has no
    /// scan, and changes nothing. It takes no memory.
    pub(crate) fn take(&mut self, scan: Option<Scan>, decode: bool)
        ensures { self.new ≡ shown_after scan decode self.old }
    {
        if let Some(scan) = scan {
            self.scan = as_shown(self.alloc, decode, scan);
        }
    }

    /// Shows no scan.
    pub(crate) fn clear(&mut self)
        ensures { self.new ≡ no_scan }
    {
        self.scan = no_scan(self.alloc);
    }
}

/// Returns a scan of nothing, which takes no memory.
fn no_scan(alloc: Global) -> Scan
    ensures { result ≡ no_scan }
{
    Scan {
        kind: 0,
        bytes: Bytes::from_vec(Vec::new(alloc)),
        label: Bytes::from_vec(Vec::new(alloc)),
    }
}

/// Returns the scan as it is shown. If it isn't decoded, it has no label, and its type is 0.
fn as_shown(alloc: Global, decode: bool, scan: Scan) -> Scan
    ensures { result ≡ as_shown decode scan }
{
    if decode {
        return scan;
    }
    let Scan {
        kind: _,
        bytes,
        label: _,
    } = scan;
    Scan {
        kind: 0,
        bytes,
        label: Bytes::from_vec(Vec::new(alloc)),
    }
}
