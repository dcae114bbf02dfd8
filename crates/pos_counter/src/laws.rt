//! Laws over the device machine, and what they say of a counter.
ghost use Rattle.std.specs.Prelude.{List, None, Some, [], length, slice_get, true, ℕ, ◌++◌, ◌∷◌, ◌≡◌, ◌≤◌, ◌⊎◌};
ghost use Rattle.pos_dir.specs.declared.file.File.{File};
ghost use Rattle.pos_disk.specs.State.{IsAtRest, Rises};
ghost use Rattle.pos_image.specs.declared.layout.Layout.{Layout};
ghost use Rattle.pos_image.specs.declared.layout.Layout.TheVariants.{Layout1, Layout2};
ghost use Rattle.pos_profile.specs.declared.entry.Entry.{Entry};
ghost use Rattle.pos_service.specs.declared.answer.Answer.{Answer};
ghost use Rattle.pos_service.specs.declared.answer.Answer.TheVariants.{Refused};
ghost use Rattle.pos_service.specs.declared.answer.Value.TheVariants.{Truth};
ghost use Rattle.pos_service.specs.declared.call.Call.{Call};
ghost use Rattle.pos_service.specs.declared.category.Category.TheVariants.{HardTotals};
ghost use Rattle.pos_service.specs.declared.code.Code.TheVariants.{Failure};
ghost use Rattle.pos_service.specs.declared.property.Property.TheVariants.{DeviceEnabled};
ghost use Rattle.pos_service.specs.Controls.{Control};
ghost use Rattle.pos_store.specs.Layouts.{limits_of};
ghost use Rattle.pos_store.specs.Recoveries.{EndsAt};
ghost use Rattle.pos_store.specs.Standing.{IsOneOf, Standing, Stands, StandsFor};
ghost use Rattle.pos_totals.specs.Recoveries.{HasTooMany};
ghost use Rattle.pos_totals.specs.Views.{WhenReady};
ghost use Rattle.pos_counter.specs.Counters.{Begins, IsCounterSound, IsLeftDuring, IsRun, IsStep, IsStepBeside};
ghost use Rattle.pos_counter.specs.Counters.{RunsAnyhow, RunsFrom};
ghost use Rattle.pos_counter.specs.Crashes.{BeginsOver, HasBegun, HasRun, KeepsPrefix, KeepsPrefixes};
ghost use Rattle.pos_counter.specs.DiskUse.{SparesDisk};
ghost use Rattle.pos_counter.specs.Errands.{HasRunSame, IsSameCounter};
ghost use Rattle.pos_counter.specs.Examples.{MayHave, a_group, new_machine, steps_into_doubt, steps_through_doubt};
ghost use Rattle.pos_counter.specs.History.{FilesEvent, Group, History, begun, history_along, history_of, history_with};
ghost use Rattle.pos_counter.specs.History.{told};
ghost use Rattle.pos_counter.specs.Machine.{Machine};
ghost use Rattle.pos_counter.specs.Leaving.{IsSettled, Leaves};
ghost use Rattle.pos_counter.specs.Prefixes.{BeginsWith, IsFiles, IsPrefix, IsPrefixAlong, IsPrefixOf, LeavesPrefix};
ghost use Rattle.pos_counter.specs.Prefixes.{LeavesPrefixInside, StandsForSome, StartsWith, moved_with};
ghost use Rattle.pos_counter.specs.Reopening.{FindsThem, enabling};
ghost use Rattle.pos_counter.specs.Sparing.{AllSpare, RunSparing};
ghost use Rattle.pos_counter.specs.Steps.{CallOf, IsSound, Request, Response, Run, Step};
ghost use Rattle.pos_counter.specs.Totals.{RecoversNothing, TotalsPart, asks_recovery};

use crate::counter::Counter;
use pos_disk::Disk;
use pos_service::Peripheral;
use pos_store::laws::disk_stands;
use pos_totals::laws::ends_behind_their_records;

/// In each run of a machine from totals whose disk stands for some files, a crash leaves the files after a prefix of
/// the history. Each group is whole or absent, and each group that was settled before is there.
pub fn crash_prefix()
    // after a run
    ensures after { (layout : Layout) (start : List File) (sequence : ℕ) (first last : Machine)
        (steps : List (Request × Response))
        (run : Run first steps last) → StartsWith layout start sequence first.totals
        → LeavesPrefix (history_of layout start first steps last run) last.totals }
    // inside a step after one
    ensures inside { (layout : Layout) (start : List File) (sequence : ℕ) (first old : Machine)
        (steps : List (Request × Response))
        (run : Run first steps old) (request : Request) (response : Response) (new : Machine)
        → Step old request response new → StartsWith layout start sequence first.totals
        → LeavesPrefixInside (history_of layout start first steps old run) old.totals
        (history_with (history_of layout start first steps old run) old request response new) new.totals }
    // at each moment of one
    ensures along { (layout : Layout) (start : List File) (sequence : ℕ) (first last : Machine)
        (steps : List (Request × Response))
        (run : Run first steps last) → StartsWith layout start sequence first.totals
        → (bytes : List ℕ) → IsLeftDuring first steps last run bytes
        → StandsForSome (IsPrefixAlong (begun layout start) first steps last run) bytes }
    // and never damage, nor a disk without totals
    ensures files { (layout : Layout) (start : List File) (sequence : ℕ) (first last : Machine)
        (steps : List (Request × Response))
        → Run first steps last → StartsWith layout start sequence first.totals
        → (left : Standing) → IsOneOf last.totals.left left → IsFiles left }
    // so a recovery that recovers nothing has met a fault of the disk, or there are more files than handles
    ensures recovers { (layout : Layout) (start : List File) (sequence : ℕ) (first last : Machine)
        (steps : List (Request × Response))
        → Run first steps last → StartsWith layout start sequence first.totals
        → (result : Answer) (new : TotalsPart) → RecoversNothing last.totals result new
        → (result ≡ Refused Failure 0)
        × (HasTooMany (IsOneOf last.totals.left) last.totals.totals.next ⊎ Rises last.totals.failures new.failures) }
    // no step alters the settled groups
    ensures settled { (history : History) (event : FilesEvent)
        → BeginsWith (told history event).settled history.settled }
{}

/// Two counters ran one after the other, and the disk was moved to layout 2 between them. What the first one left are
/// the files after a prefix of its history by layout 1. The second one begins over the same files by layout 2, which
/// are the files after the same groups.
///
/// In each run of the second one's machine, a crash leaves the files after a prefix of one history of both. Each group
/// is whole or absent, and each group that was settled before is there.
pub fn crash_prefix_across_a_move()
    // the prefix is one by layout 2
    ensures moved { (history : History) (held : List Group) (files : List File) (sequence : ℕ)
        (is : IsPrefix history held (Stands Layout1 files sequence))
        → IsPrefixOf (moved_with history is.prefix) (Stands Layout2 files 1) }
    // after a run of the second
    ensures after { (history : History) (held : List Group) (files : List File) (sequence : ℕ)
        (is : IsPrefix history held (Stands Layout1 files sequence))
        (first last : Machine) (steps : List (Request × Response))
        (run : Run first steps last) → StartsWith Layout2 files 1 first.totals
        → LeavesPrefix (history_along (moved_with history is.prefix) first steps last run) last.totals }
    // at each moment of it
    ensures along { (history : History) (held : List Group) (files : List File) (sequence : ℕ)
        (is : IsPrefix history held (Stands Layout1 files sequence))
        (first last : Machine) (steps : List (Request × Response))
        (run : Run first steps last) → StartsWith Layout2 files 1 first.totals
        → (bytes : List ℕ) → IsLeftDuring first steps last run bytes
        → StandsForSome (IsPrefixAlong (moved_with history is.prefix) first steps last run) bytes }
    // the groups that the prefix had to hold stay settled
    ensures held { (history : History) (held : List Group) (files : List File) (sequence : ℕ)
        (is : IsPrefix history held (Stands Layout1 files sequence))
        (first last : Machine) (steps : List (Request × Response)) (run : Run first steps last)
        → BeginsWith (history_along (moved_with history is.prefix) first steps last run).settled held }
{}

/// A counter began over an honest disk at rest that stands for some files. A crash at any moment of a call leaves the
/// files after a prefix of the history before or after the call. Each group is whole or absent, and each group that was
/// settled before the call is there. The same holds for a list of requests and its steps.
pub fn crash_leaves_a_prefix<D: Disk, P: Peripheral>(counter: &Counter<D, P>)
    // a counter that begins has run through nothing
    ensures begins { (layout : Layout) (start : List File) (sequence : ℕ)
        → BeginsOver D.Disk P.Peripheral layout start sequence counter.now
        → HasBegun D.Disk P.Peripheral layout start sequence counter.now }
    // a call, after others
    ensures call { (layout : Layout) (start : List File) (sequence : ℕ) (steps : List (Request × Response)) (old : _)
        (past : HasRun D.Disk P.Peripheral layout start sequence steps old)
        (request : Request) (response : Response)
        → IsStep D.Disk P.Peripheral old request response counter.now
        → KeepsPrefix D.Disk P.Peripheral layout start sequence steps old past
        request response counter.now }
    // a list of requests
    ensures list { (layout : Layout) (start : List File) (sequence : ℕ)
        (steps more : List (Request × Response)) (old : _)
        (past : HasRun D.Disk P.Peripheral layout start sequence steps old)
        (run : IsRun D.Disk P.Peripheral old more counter.now)
        → KeepsPrefixes D.Disk P.Peripheral layout start sequence steps old past more counter.now run }
    // each moment of a list lies in one of its requests
    ensures moments { (left : List Standing) (steps : List (Request × Response)) (old : _)
        → Leaves D.Disk old.totals left
        → IsRun D.Disk P.Peripheral old steps counter.now
        → RunsFrom D.Disk P.Peripheral left old steps counter.now }
    // a call in which the totals have no part is one for all that the disk may leave
    ensures beside { (old : _) (request : Request) (response : Response)
        → IsStepBeside P.Peripheral old request response counter.now
        → IsStep D.Disk P.Peripheral old request response counter.now }
{}

/// Totals are off over a disk that stands for some files, as each crash leaves it. An enabling of a control of Hard
/// Totals finds these very files. Otherwise its table refused it, the disk failed, there were too few handles, or
/// memory ran out.
pub fn enabling_finds_the_files()
    ensures finds { (layout : Layout) (start : List File) (sequence : ℕ) (old new : Machine)
        (number : ℕ) (control : Control)
        (response : Response)
        → StartsWith layout start sequence old.totals → slice_get old.controls number ≡ Some control
        → asks_recovery control DeviceEnabled (Truth true) ≡ true
        → Step old (CallOf number enabling) response new
        → FindsThem layout start sequence old number control response new }
    // of a counter that has given no handle there are enough: so E_FAILURE of a recovery means that the disk failed
    ensures failed { (layout : Layout) (start : List File) (sequence : ℕ) (first last : Machine)
        (steps : List (Request × Response))
        → Run first steps last → StartsWith layout start sequence first.totals → length start ≤ (limits_of layout).files
        → last.totals.totals.next ≡ 1
        → (result : Answer) (new : TotalsPart) → RecoversNothing last.totals result new
        → (result ≡ Refused Failure 0) × Rises last.totals.failures new.failures }
    // a disk stands for so few files
    ensures few { (layout : Layout) (files : List File) (sequence : ℕ) (bytes : List ℕ)
        → StandsFor (Stands layout files sequence) bytes → length files ≤ (limits_of layout).files }
{}

/// The bytes of an honest disk at rest, under a new counter, stand for one thing, whatever they are. A crash leaves
/// only that.
pub fn new_counter_leaves_one_thing<D: Disk, P: Peripheral>(counter: &Counter<D, P>)
    ensures { (entries : List Entry) (disk : D) → Begins P.Peripheral entries disk counter.now
        → D.honest disk → IsAtRest (D.state disk)
        → (standing : Standing) × Leaves D.Disk counter.now.totals (standing ∷ []) }
{
    disk_stands(counter.disk());
}

/// The tail of a counter's totals that are ready is after the records of their disk. So a change is refused for want of
/// a sequence only if its group doesn't fit after these.
pub fn ends_behind_its_records<D: Disk, P>(counter: &Counter<D, P>)
    ensures { D.honest counter.now.totals.disk → WhenReady counter.now.totals.totals.mode
        (EndsAt counter.now.totals.totals.layout counter.now.totals.totals.tail
        (D.state counter.now.totals.disk).reading) }
{
    ends_behind_their_records(&counter.totals);
}

/// The errands that the disk of a counter keeps for its owner can be taken before and after each call. The counter is
/// the same but for the disk, and all that is known of the disk stays.
pub fn errands_change_nothing<D: Disk, P: Peripheral>(counter: &Counter<D, P>)
    ensures sound { (old : _) → IsSameCounter D.Disk old counter.now
        → IsCounterSound P.Peripheral old → IsCounterSound P.Peripheral counter.now }
    // a crash leaves the same
    ensures leaves { (left : List Standing) (old : _) → IsSameCounter D.Disk old counter.now
        → Leaves D.Disk old.totals left → Leaves D.Disk counter.now.totals left }
    // it has run through the same steps since it began, with the same history
    ensures past { (layout : Layout) (start : List File) (sequence : ℕ) (steps : List (Request × Response)) (old : _)
        → IsSameCounter D.Disk old counter.now
        → (past : HasRun D.Disk P.Peripheral layout start sequence steps old)
        → HasRunSame D.Disk P.Peripheral layout start sequence steps old past counter.now }
    // a run up to it is one to the counter that is left
    ensures before { (left : List Standing) (steps : List (Request × Response)) (first old : _)
        → IsSameCounter D.Disk old counter.now
        → RunsFrom D.Disk P.Peripheral left first steps old
        → RunsFrom D.Disk P.Peripheral left first steps counter.now }
    // a run from the counter that is left is one from it
    ensures after { (left : List Standing) (steps : List (Request × Response)) (old mid : _)
        → IsSameCounter D.Disk old mid → Leaves D.Disk old.totals left
        → RunsFrom D.Disk P.Peripheral left mid steps counter.now
        → RunsFrom D.Disk P.Peripheral left old steps counter.now }
    // and one run after another is a run
    ensures join { (left : List Standing) (steps more : List (Request × Response)) (first mid : _)
        (runs : RunsFrom D.Disk P.Peripheral left first steps mid)
        → RunsFrom D.Disk P.Peripheral runs.after mid more counter.now
        → RunsFrom D.Disk P.Peripheral left first (steps ++ more) counter.now }
{}

/// Over any disk, honest or not, each request of a run that spares the disk is a step of the machine. Each other
/// request is a call at Hard Totals, and changes nothing but them and their control. If all requests spare the disk, it
/// is as it was. What the other calls answer and do to the totals is known only over an honest disk. See
/// docs/reference/model.md, "Over any disk".
pub fn runs_over_any_disk<D: Disk, P: Peripheral>(counter: &Counter<D, P>)
    ensures { (left : List Standing) (failures : ℕ) (steps : List (Request × Response)) (old : _)
        → IsSettled old.totals.totals left
        → IsRun D.Disk P.Peripheral old steps counter.now
        → RunsAnyhow P.Peripheral left failures old steps counter.now }
{}

/// All requests spare the disk but calls at controls of Hard Totals. A run of requests that spare it is a run of the
/// machine.
pub fn most_requests_spare_the_disk()
    ensures elsewhere { (machine : Machine) (number : ℕ) (control : Control) (asked : Call)
        → IsSound machine → slice_get machine.controls number ≡ Some control → ¬ (control.category ≡ HardTotals)
        → SparesDisk machine (CallOf number asked) }
    ensures run { (old new : Machine) (steps : List (Request × Response)) (run : RunSparing old steps new)
        → AllSpare old steps new run → Run old steps new }
{}

/// A run that is followed by a step is a run. So requests carried out as a list, and calls made one by one, are runs of
/// the machine in any order. That includes those that attach and detach peripherals.
pub fn runs_go_on<D: Disk, P: Peripheral>(counter: &Counter<D, P>)
    // a step after a run
    ensures step { (first mid : _) (steps : List (Request × Response)) (request : Request) (response : Response)
        → IsRun D.Disk P.Peripheral first steps mid
        → IsStep D.Disk P.Peripheral mid request response counter.now
        → IsRun D.Disk P.Peripheral first (steps ++ (request, response) ∷ []) counter.now }
    // a run after a run
    ensures run { (first mid : _) (steps more : List (Request × Response))
        → IsRun D.Disk P.Peripheral first steps mid
        → IsRun D.Disk P.Peripheral mid more counter.now
        → IsRun D.Disk P.Peripheral first (steps ++ more) counter.now }
{}

/// An example: the disk fails in a group, which is in doubt until the next recovery. That keeps the group or drops it,
/// by the files that it finds.
pub fn one_group_in_doubt()
    ensures doubt { MayHave new_machine Layout1 [] steps_into_doubt
        (record { layout = Layout1; start = []; settled = []; doubt = Some a_group }) }
    ensures kept { MayHave new_machine Layout1 [] steps_through_doubt
        (record { layout = Layout1; start = []; settled = a_group ∷ []; doubt = None }) }
    ensures dropped { MayHave new_machine Layout1 [] steps_through_doubt (begun Layout1 []) }
{}
