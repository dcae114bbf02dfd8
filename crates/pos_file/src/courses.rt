//! Laws of a course of calls.
ghost use Rattle.std.specs.Prelude.{◌≡◌, ◌++◌, List, ℕ, cond, false, length};
ghost use Rattle.pos_disk.specs.Memory.{Memory, state_of, synced, written};
ghost use Rattle.pos_disk.specs.State.{Answer, part};
ghost use Rattle.pos_disk.specs.Unkept.{is_fault};
ghost use Rattle.pos_file.specs.Calls.{Call};
ghost use Rattle.pos_file.specs.Courses.{CourseLeaves, CourseMakes, TakesAll};
ghost use Rattle.pos_file.specs.Disks.{FileReads, FileSyncs, FileWrites};
ghost use Rattle.pos_file.specs.Follows.{Follows};
ghost use Rattle.pos_file.specs.declared.file_disk.FileDisk.{FileDisk};

use crate::block_file::BlockFile;

/// Says that one course and then another are a course of all their calls (`joined`), and that such a course is one and
/// then the other (`parted`).
pub fn a_course_goes_on()
    ensures joined { (done rest : List Call) (old mid new : Memory) → CourseMakes done old mid
        → CourseMakes rest mid new → CourseMakes (done ++ rest) old new }
    ensures parted { (done rest : List Call) (old new : Memory) → CourseMakes (done ++ rest) old new
        → (mid : Memory) × CourseMakes done old mid × CourseMakes rest mid new }
{}

/// Says that the calls alone determine the disk if each write took all its bytes.
pub fn a_course_is_one()
    ensures { (calls : List Call) (old new other : Memory) → TakesAll calls → CourseMakes calls old new
        → CourseMakes calls old other → new ≡ other }
{}

/// Says that what a crash at some moment of a course may leave, it may have left since the course began.
pub fn a_course_leaves()
    ensures { (calls : List Call) (old new : Memory) (bytes : List ℕ) → CourseLeaves calls old new bytes
        → (state_of new).left_since (state_of old).moment bytes }
{}

/// Says that each call of a disk in a file continues the course of its file, unless the disk has failed.
///
/// A read gives the bytes that are there. A write puts down all its bytes, or after a fault any bytes in their range. A
/// sync settles what was written, or after a fault nothing.
pub fn a_disk_follows<F: BlockFile>()
    ensures reads { (before : List Call) (start now : Memory) (old new : FileDisk F) (at : ℕ) (was out : List ℕ)
        (answer : Answer) → Follows F.calls before start old.file now → old.has_failed ≡ false
        → FileReads F.calls old new at was out answer
        → (is_fault answer ≡ false → out ≡ part at (length out) now.present.reading)
        → Follows F.calls before start new.file now }
    ensures writes { (before : List Call) (start now : Memory) (old new : FileDisk F) (at : ℕ)
        (bytes put : List ℕ) (answer : Answer) → Follows F.calls before start old.file now → old.has_failed ≡ false
        → FileWrites F.calls old new at bytes answer
        → length put ≡ length bytes → (is_fault answer ≡ false → put ≡ bytes)
        → Follows F.calls before start new.file (written at put now) }
    ensures syncs { (before : List Call) (start now : Memory) (old new : FileDisk F) (answer : Answer)
        → Follows F.calls before start old.file now → old.has_failed ≡ false → FileSyncs F.calls old new answer
        → Follows F.calls before start new.file (cond (is_fault answer) now (synced now)) }
{}
