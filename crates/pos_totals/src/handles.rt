//! The handles of files, and their claims.
ghost use Rattle.std.specs.Prelude.{◌≡◌, ◌<◌, ◌≤◌, ◌+◌, ◌^◌, [], map};
ghost use Rattle.pos_dir.specs.declared.file.TheConstants.{LAYOUT_2};
ghost use Rattle.pos_totals.specs.HardTotals.{last_number};
ghost use Rattle.pos_totals.specs.Tables.{is_meant, reclaimed};
ghost use Rattle.pos_totals.specs.Numbering.{tags_from, lacks, given_after, following, value_after, HasPlace, Numbers};

use arrayvec::ArrayVec;
use pos_dir::{Change, LAYOUT_2};
use pos_service::Value;
use pos_service::claims::is_own;
use std::marker::Model;

/// The most files on a disk of any layout.
pub(crate) const MOST_FILES: usize = LAYOUT_2.files as usize;

/// What the totals keep for a file besides the directory.
#[derive(Clone, Copy, Default)]
pub(crate) struct FileTag {
    /// Its handle.
    pub handle: u64,
    /// The control that has claimed it, if one has.
    pub claim: Option<usize>,
}

/// The claims that a change of claims applies to.
#[derive(Clone, Copy)]
pub(crate) enum ClaimScope {
    /// That of the file with this handle.
    File(u64),
    /// Each that this control has made.
    Control(usize),
}

/// The tags of the files in index order, and the handle that the next new file gets. The handle
/// 18,446,744,073,709,551,615 there means that none is left.
#[derive(Drop)]
pub(crate) struct Handles {
    given: ArrayVec<FileTag, MOST_FILES>,
    next: u64,
}

impl Model for Handles {
    ghost use Rattle.pos_totals.specs.Tables.{HandleTable};

    ghost Value = { HandleTable };

    ghost view = { λ h. record { given = h.given.items; next = h.next } };
}

impl Handles {
    /// Returns the handles of no files. The next new file gets the handle `next`.
    pub fn new(next: u64) -> Self
        ensures { result ≡ record { given = []; next = next } }
    {
        Handles {
            given: ArrayVec::new(),
            next,
        }
    }

    /// Returns the tags in index order.
    pub fn as_slice(&self) -> &[FileTag]
        ensures { result.now ≡ self.now.given }
    {
        self.given.as_slice()
    }

    /// Returns whether a change needs a handle and none is left.
    pub fn lack(&self, change: &Change<'_>) -> bool
        ensures lacks { result ≡ lacks self.now.next change.now }
        ensures bound { self.now.next ≤ last_number }
    {
        let next = self.next;
        match change {
            Change::Create { .. } => next == u64::MAX,
            _ => false,
        }
    }

    /// Updates the tags after a change that was done, and returns the value of its answer.
    pub fn keep(&mut self, change: &Change<'_>) -> Value
        requires { HasPlace self.old.given self.old.next change.now }
        ensures given { self.new.given ≡ given_after self.old.given self.old.next change.now }
        ensures next { self.new.next ≡ following self.old.next change.now }
        ensures value { result ≡ value_after self.old.next change.now }
    {
        match change {
            Change::Create { .. } => {
                let handle = self.next;
                self.given.push(FileTag {
                    handle,
                    claim: None,
                });
                self.next = handle + 1;
                Value::Number(handle as i128)
            }
            Change::Delete { index } => {
                self.given.remove(*index as usize);
                Value::Empty
            }
            _ => Value::Empty,
        }
    }

    /// Gives each file that `whose` means another claim.
    pub fn reclaim(&mut self, whose: ClaimScope, claim: Option<usize>)
        ensures { self.new ≡ record { given = map (reclaimed whose claim) self.old.given; next = self.old.next } }
    {
        reclaim_tags(self.given.as_mut_slice(), whose, claim);
    }

    /// Gives `count` files handles from the next one on, and returns true. If fewer are left, it returns false and
    /// gives none.
    pub fn number(&mut self, count: usize) -> bool
        requires { count ≤ LAYOUT_2.files }
        ensures { Numbers self.old.given self.old.next count result self.new.given self.new.next }
    {
        let Some(end) = self.next.checked_add(count as u64) else {
            return false;
        };
        self.given = count_from(self.next, count);
        self.next = end;
        true
    }
}

// Gives each tag that `whose` means another claim.
fn reclaim_tags(tags: &mut [FileTag], whose: ClaimScope, claim: Option<usize>)
    ensures { tags.new ≡ map (reclaimed whose claim) tags.old }
{
    for tag in tags.iter_mut() {
        *tag = reclaim(*tag, whose, claim);
    }
}

// Returns the tag, with another claim if `whose` means it.
fn reclaim(tag: FileTag, whose: ClaimScope, claim: Option<usize>) -> FileTag
    ensures { result ≡ reclaimed whose claim tag }
{
    if !is_meant(whose, tag) {
        return tag;
    }
    FileTag {
        handle: tag.handle,
        claim,
    }
}

// Returns whether `whose` means a tag's claim.
fn is_meant(whose: ClaimScope, tag: FileTag) -> bool
    ensures { result ≡ is_meant whose tag }
{
    match whose {
        ClaimScope::File(handle) => tag.handle == handle,
        ClaimScope::Control(control) => is_own(control, tag.claim),
    }
}

// Returns the tags of `count` files, with the handles from the first one on.
fn count_from(first: u64, count: usize) -> ArrayVec<FileTag, MOST_FILES>
    requires few { count ≤ LAYOUT_2.files }
    requires left { first + count < 2 ^ 64 }
    ensures { result.items ≡ tags_from first count }
{
    let mut tags = ArrayVec::new();
    for place in 0..count {
        tags.push(FileTag {
            handle: first + place as u64,
            claim: None,
        });
    }
    tags
}
