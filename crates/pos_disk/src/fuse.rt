//! A disk that fails on demand.
ghost use Rattle.std.specs.Prelude.{◌≡◌, ◌≤◌, ◌+◌, ◌-◌, ◌↔◌, ℕ, length, Result, Ok, Err};
ghost use Rattle.pos_disk.specs.Fuse.{counted, fuse_of, is_blown, Loosens, PutsHalf};

use crate::{Disk, DiskFault};
use std::marker::Model;

/// A disk over another one that fails on demand. It passes on the first `pass` reads, writes and syncs, fails the next
/// `fail`, and then passes on all.
///
/// A call that it fails asks nothing of the inner disk, except a write: that writes the first half of its bytes and
/// makes its whole range loose. It is honest if the inner disk is. It counts its own failures: one for each call that
/// returns a fault, its own or the inner disk's.
#[derive(Drop)]
pub struct FuseDisk<D: Disk> {
    inner: D,
    pass: u64,
    fail: u64,
    calls: u64,
    failures: u64,
}

impl<D: Disk> Model for FuseDisk<D> {
    ghost use Rattle.std.specs.Prelude.{◌<◌, ◌^◌};
    ghost use Rattle.pos_disk.specs.Fuse.{Fuse, fuse_of};

    ghost Value = { Fuse D };

    ghost view = { λ f. fuse_of f.inner f.pass f.fail f.calls f.failures };

    ghost invariant = { λ f. f.failures < 2 ^ 64 };
}

impl<D: Disk> FuseDisk<D> {
    /// Returns a disk over this one, with no call so far. `pass` and `fail` are numbers of calls.
    pub fn new(inner: D, pass: u64, fail: u64) -> FuseDisk<D>
        ensures { result ≡ fuse_of inner pass fail 0 0 }
    {
        FuseDisk {
            inner,
            pass,
            fail,
            calls: 0,
            failures: 0,
        }
    }

    /// Returns how many reads, writes and syncs it was asked for. At 18,446,744,073,709,551,615 the count stays.
    pub fn calls(&self) -> u64
        ensures { result ≡ self.now.calls }
    {
        self.calls
    }

    /// Returns the inner disk as it is.
    pub fn into_inner(self) -> D
        ensures { result ≡ self.inner }
    {
        self.inner
    }
}

// Adds one. The last value stays.
fn count(calls: &mut u64)
    ensures { calls.new ≡ counted calls.old }
{
    *calls = calls.saturating_add(1);
}

// Writes to each place from `from` to before `end` the byte that is there, so that it is loose. If a read fails, it
// writes any byte.
fn loosen<D: Disk>(disk: &mut D, from: u64, end: u64)
    requires range { from ≤ end }
    requires size { end ≤ D.size disk.old }
    ensures size { D.size disk.new ≡ D.size disk.old }
    ensures fixed { D.fixed disk.new ≡ D.fixed disk.old }
    ensures honest { D.honest disk.old ↔ D.honest disk.new }
    ensures loosens { D.honest disk.old → Loosens (D.state disk.old) (D.state disk.new) from (end - from) }
{
    for place in from..end {
        let mut byte = [0];
        let _ = disk.read(place, &mut byte);
        let _ = disk.write(place, &byte);
    }
}

// Writes the first half of the bytes, and makes the places of the other half loose too.
fn put_half<D: Disk>(disk: &mut D, at: u64, bytes: &[u8])
    requires { at + length bytes.now ≤ D.size disk.old }
    ensures size { D.size disk.new ≡ D.size disk.old }
    ensures fixed { D.fixed disk.new ≡ D.fixed disk.old }
    ensures honest { D.honest disk.old ↔ D.honest disk.new }
    ensures half { D.honest disk.old → PutsHalf (D.state disk.old) (D.state disk.new) at bytes.now }
{
    let half = bytes.len() / 2;
    let middle = at.saturating_add(half as u64).min(disk.len());
    let end = at.saturating_add(bytes.len() as u64).min(disk.len());
    let _ = disk.write(at, &bytes[..half]);
    loosen(disk, middle, end);
}

impl<D: Disk> FuseDisk<D> {
    // Returns whether the next call is one that fails.
    fn is_blown(&self) -> bool
        ensures { result ≡ is_blown self.now }
    {
        self.calls >= self.pass && self.calls - self.pass < self.fail
    }
}

impl<D: Disk> Disk for FuseDisk<D> {
    ghost use Rattle.pos_disk.specs.Fuse.{fuse_state, counts_under, only_under, HonestReads, HonestWrites, HonestSyncs, FuseReads, FuseWrites, FuseSyncs};

    ghost size = { λ f. D.size f.inner };

    ghost fixed = { λ f. D.fixed f.inner };

    ghost honest = { λ f. D.honest f.inner };

    ghost state = { fuse_state D.Disk };

    ghost own_read = { FuseReads D.Disk };

    ghost own_write = { FuseWrites D.Disk };

    ghost own_sync = { FuseSyncs D.Disk };

    ghost whole = { λ f honest. D.whole f.inner honest };

    ghost counts_now = { λ f t c h. counts_under (D.state f.inner) f.failures t c (D.counts_now f.inner t c h) };

    ghost only_now = { λ f c h. only_under (D.state f.inner) f.failures c (D.only_now f.inner c h) };

    fn len(&self) -> u64 {
        self.inner.len()
    }

    fn reads_bytes(&self) {
        let inner = &self.inner;
        inner.reads_bytes();
    }

    fn read(&mut self, at: u64, out: &mut [u8]) -> Result<(), DiskFault>
        requires { at + length out.old ≤ D.size self.old.inner }
        ensures size { D.size self.new.inner ≡ D.size self.old.inner }
        ensures fixed { D.fixed self.new.inner ≡ D.fixed self.old.inner }
        ensures honest { D.honest self.old.inner ↔ D.honest self.new.inner }
        ensures reads { HonestReads D.Disk self.old self.new at out.new result }
        ensures fuse { FuseReads D.Disk self.old self.new at out.old out.new result }
    {
        let blown = self.is_blown();
        count(&mut self.calls);
        if blown {
            count(&mut self.failures);
            return Err(DiskFault);
        }
        let answer = self.inner.read(at, out);
        if answer.is_err() {
            count(&mut self.failures);
        }
        answer
    }

    fn write(&mut self, at: u64, bytes: &[u8]) -> Result<(), DiskFault>
        requires { at + length bytes.now ≤ D.size self.old.inner }
        ensures size { D.size self.new.inner ≡ D.size self.old.inner }
        ensures fixed { D.fixed self.new.inner ≡ D.fixed self.old.inner }
        ensures honest { D.honest self.old.inner ↔ D.honest self.new.inner }
        ensures writes { HonestWrites D.Disk self.old self.new at bytes.now result }
        ensures fuse { FuseWrites D.Disk self.old self.new at bytes.now result }
    {
        let blown = self.is_blown();
        count(&mut self.calls);
        if blown {
            count(&mut self.failures);
            put_half(&mut self.inner, at, bytes);
            return Err(DiskFault);
        }
        let answer = self.inner.write(at, bytes);
        if answer.is_err() {
            count(&mut self.failures);
        }
        answer
    }

    fn sync(&mut self) -> Result<(), DiskFault>
        ensures size { D.size self.new.inner ≡ D.size self.old.inner }
        ensures fixed { D.fixed self.new.inner ≡ D.fixed self.old.inner }
        ensures honest { D.honest self.old.inner ↔ D.honest self.new.inner }
        ensures syncs { HonestSyncs D.Disk self.old self.new result }
        ensures fuse { FuseSyncs D.Disk self.old self.new result }
    {
        let blown = self.is_blown();
        count(&mut self.calls);
        if blown {
            count(&mut self.failures);
            return Err(DiskFault);
        }
        let answer = self.inner.sync();
        if answer.is_err() {
            count(&mut self.failures);
        }
        answer
    }
}
