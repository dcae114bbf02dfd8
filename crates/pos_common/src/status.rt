//! The numbers of the StatusUpdateEvents.
ghost use Rattle.std.specs.Prelude.{◌≡◌};
ghost use Rattle.pos_service.specs.Statuses.{drawer_status, cover_status, paper_status, power_status};

use pos_service::PaperLevel;

/// Returns CASH_SUE_DRAWEROPEN or CASH_SUE_DRAWERCLOSED (chapter Cash Drawer).
pub(crate) fn drawer_status(is_open: bool) -> u32
    ensures { result ≡ drawer_status is_open }
{
    if is_open { 1 } else { 0 }
}

/// Returns PTR_SUE_COVER_OPEN or PTR_SUE_COVER_OK (chapter POS Printer).
pub(crate) fn cover_status(is_open: bool) -> u32
    ensures { result ≡ cover_status is_open }
{
    if is_open { 11 } else { 12 }
}

/// Returns PTR_SUE_REC_EMPTY, PTR_SUE_REC_NEAREMPTY or PTR_SUE_REC_PAPEROK (chapter POS Printer).
pub(crate) fn paper_status(level: PaperLevel) -> u32
    ensures { result ≡ paper_status level }
{
    match level {
        PaperLevel::Empty => 24,
        PaperLevel::NearEnd => 25,
        PaperLevel::Good => 26,
    }
}

/// Returns SUE_POWER_ONLINE or SUE_POWER_OFF_OFFLINE, which are also PS_ONLINE and PS_OFF_OFFLINE (common chapter,
/// device power reporting).
pub(crate) fn power_status(powered: bool) -> u32
    ensures { result ≡ power_status powered }
{
    if powered { 2001 } else { 2004 }
}
