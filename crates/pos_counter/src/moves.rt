//! What a move of a disk to layout 2 means for the history of its files.
ghost use Rattle.std.specs.Prelude.{List, ℕ, Result};
ghost use Rattle.pos_disk.specs.State.{LeavesOnly, MayLeave};
ghost use Rattle.pos_store.specs.MovedDisks.{MovesOneOf};
ghost use Rattle.pos_store.specs.Standing.{Standing, IsOneOf};
ghost use Rattle.pos_store.specs.declared.fault.StoreFault.{StoreFault};
ghost use Rattle.pos_counter.specs.Counters.{IsLeftDuring};
ghost use Rattle.pos_counter.specs.History.{History, history_along};
ghost use Rattle.pos_counter.specs.Machine.{Machine};
ghost use Rattle.pos_counter.specs.Moves.{IsPrefixThrough, resumed};
ghost use Rattle.pos_counter.specs.Prefixes.{BeginsWith, IsPrefixAlong, IsPrefixOf, StandsForSome, StartsWith};
ghost use Rattle.pos_counter.specs.Steps.{Request, Response, Run};

use pos_disk::Disk;

/// Two counters ran one after the other. Between them the disk was moved to layout 2, or failed in the move, whatever
/// the move answered. Each thing that the first counter left stands for the files after a prefix of its history.
///
/// Then a crash in the move or after it leaves the files after such a prefix, by the old layout or by layout 2. At each
/// moment of the second counter's run, a crash leaves the files after a prefix of one history of both. Each group is
/// whole or absent, and each group that was settled is there.
pub fn crash_prefix_through_a_move<D: Disk>(disk: &D)
    // at any moment of the move
    ensures any_moment { (history : History) (left : List Standing) (old : D) (result : Result (Unit {0}) StoreFault)
        → ((standing : Standing) → IsOneOf left standing → IsPrefixOf history standing)
        → MovesOneOf left (D.state old) (D.state disk.now) result
        → LeavesOnly (D.state old) (D.state disk.now) (StandsForSome (IsPrefixThrough history)) }
    // and after it
    ensures now { (history : History) (left : List Standing) (old : D) (result : Result (Unit {0}) StoreFault)
        → ((standing : Standing) → IsOneOf left standing → IsPrefixOf history standing)
        → MovesOneOf left (D.state old) (D.state disk.now) result
        → (bytes : List ℕ) → MayLeave (D.state disk.now) bytes → StandsForSome (IsPrefixThrough history) bytes }
    // at each moment of a run of the second counter
    ensures along { (history : History) (standing : Standing) (is : IsPrefixThrough history standing)
        (first last : Machine) (steps : List (Request × Response))
        (run : Run first steps last) → StartsWith is.layout is.files is.sequence first.totals
        → (bytes : List ℕ) → IsLeftDuring first steps last run bytes
        → StandsForSome (IsPrefixAlong (resumed is.layout history is.prefix) first steps last run) bytes }
    // the groups that were settled stay so
    ensures held { (history : History) (standing : Standing) (is : IsPrefixThrough history standing)
        (first last : Machine) (steps : List (Request × Response)) (run : Run first steps last)
        → BeginsWith (history_along (resumed is.layout history is.prefix) first steps last run).settled
        history.settled }
{}
