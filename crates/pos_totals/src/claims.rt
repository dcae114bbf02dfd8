//! Claims: of the area, which is the whole device, and of files.
ghost use Rattle.std.specs.Prelude.{◌≡◌};
ghost use Rattle.std.specs.List.{list_any};
ghost use Rattle.pos_service.specs.Claims.{is_foreign};
ghost use Rattle.pos_totals.specs.TotalsClaims.{is_area_taken};
ghost use Rattle.pos_totals.specs.TotalsArrangements.{Arranges, arrangement_by, claim_after};
ghost use Rattle.pos_totals.specs.TotalsClaims.{ClaimsArea, ReleasesArea};
ghost use Rattle.pos_totals.specs.Checks.{files_in, AreFiles, LetsThrough, LetsThroughAt};
ghost use Rattle.pos_totals.specs.Views.{IsSound, totals_of};

use crate::files::{Files, find_handle, see_files};
use crate::handles::{ClaimScope, FileTag};
use crate::totals::Holdings;
use pos_disk::Disk;
use pos_service::claims::{is_foreign, is_own, is_timeout};
use pos_service::{Answer, Code, Value};
use pos_store::Store;

/// What a control asks for about the claim of a file.
#[derive(Clone, Copy)]
pub(crate) enum ClaimRequest {
    /// To make it. The timeout is in milliseconds, -1 for no end, and nothing is waited for.
    Claim { timeout: i128 },
    /// To end it.
    Release,
}

impl ClaimRequest {
    // Returns the claim of the file after it.
    fn claim(self, control: usize) -> Option<usize>
        ensures { result ≡ claim_after control self }
    {
        match self {
            ClaimRequest::Claim { timeout: _ } => Some(control),
            ClaimRequest::Release => None,
        }
    }
}

/// Makes or ends the claim of the file with a handle, if its table allows it, and returns the answer.
pub(crate) fn claim_file<D: Disk>(
    store: &Store<D>,
    holdings: &mut Holdings,
    control: usize,
    handle: i128,
    claiming: ClaimRequest,
) -> Answer
    requires sound { IsSound store.now.layout store.now.state holdings.old }
    ensures sound { IsSound store.now.layout store.now.state holdings.new }
    ensures arranges { Arranges (totals_of store.now holdings.old) control (arrangement_by handle claiming) result
        (totals_of store.now holdings.new) }
{
    match check_claim(store, holdings, control, handle, claiming) {
        Ok(number) => {
            let claim = claiming.claim(control);
            holdings.handles.reclaim(ClaimScope::File(number), claim);
            Answer::Done(Value::Empty)
        }
        Err(refusal) => refusal,
    }
}

// Checks it by its table, and returns the file's handle.
fn check_claim<D: Disk>(
    store: &Store<D>,
    holdings: &Holdings,
    control: usize,
    handle: i128,
    claiming: ClaimRequest,
) -> Result<u64, Answer>
    requires sound { IsSound store.now.layout store.now.state holdings.now }
    ensures { LetsThroughAt (totals_of store.now holdings.now) control (arrangement_by handle claiming) handle
        result }
{
    match see_files(store, holdings) {
        Some(files) => check_claim_in(files, holdings.area, control, handle, claiming),
        None => Err(Answer::Refused(Code::Failure, 0)),
    }
}

// Checks it while the totals are ready.
fn check_claim_in(
    files: Files<'_>,
    area: Option<usize>,
    control: usize,
    handle: i128,
    claiming: ClaimRequest,
) -> Result<u64, Answer>
    requires { AreFiles files }
    ensures { LetsThrough area None (files_in files.entry) control (arrangement_by handle claiming) handle result }
{
    let Some(found) = find_handle(files, handle) else {
        return Err(Answer::Refused(Code::Illegal, 0));
    };
    match claiming {
        ClaimRequest::Claim { timeout } => {
            if !is_timeout(timeout) {
                return Err(Answer::Refused(Code::Illegal, 0));
            }
            if is_foreign(control, area) || is_foreign(control, found.claim) {
                return Err(Answer::Refused(Code::Timeout, 0));
            }
            Ok(found.handle)
        }
        ClaimRequest::Release => {
            if !is_own(control, found.claim) {
                return Err(Answer::Refused(Code::Illegal, 0));
            }
            Ok(found.handle)
        }
    }
}

/// Claims the area for a control.
///
/// # Errors
///
/// E_TIMEOUT if another control has claimed the area, or a file. Nothing changes then.
pub(crate) fn claim_area<D: Disk>(
    store: &Store<D>,
    holdings: &mut Holdings,
    control: usize,
) -> Result<(), Code>
    requires sound { IsSound store.now.layout store.now.state holdings.old }
    ensures sound { IsSound store.now.layout store.now.state holdings.new }
    ensures claims { ClaimsArea (totals_of store.now holdings.old) control result
        (totals_of store.now holdings.new) }
{
    if is_area_taken(store, holdings, control) {
        return Err(Code::Timeout);
    }
    holdings.area = Some(control);
    Ok(())
}

// Returns whether another control has claimed the area, or a file.
fn is_area_taken<D: Disk>(store: &Store<D>, holdings: &Holdings, control: usize) -> bool
    requires sound { IsSound store.now.layout store.now.state holdings.now }
    ensures { result ≡ is_area_taken (totals_of store.now holdings.now) control }
{
    if is_foreign(control, holdings.area) {
        return true;
    }
    match see_files(store, holdings) {
        Some(files) => has_foreign_claim(files.tags, control),
        None => false,
    }
}

// Returns whether another control has claimed a file.
fn has_foreign_claim(tags: &[FileTag], control: usize) -> bool
    ensures { result ≡ list_any (λ tag. is_foreign control tag.claim) tags.now }
{
    tags.iter().any(|tag| is_foreign(control, tag.claim))
}

/// Ends a control's claim of the area.
///
/// # Errors
///
/// E_ILLEGAL if the control hasn't claimed the area. Nothing changes then.
pub(crate) fn release_area<D: Disk>(
    store: &Store<D>,
    holdings: &mut Holdings,
    control: usize,
) -> Result<(), Code>
    requires sound { IsSound store.now.layout store.now.state holdings.old }
    ensures sound { IsSound store.now.layout store.now.state holdings.new }
    ensures releases { ReleasesArea (totals_of store.now holdings.old) control result
        (totals_of store.now holdings.new) }
{
    if !is_own(control, holdings.area) {
        return Err(Code::Illegal);
    }
    holdings.area = None;
    Ok(())
}
