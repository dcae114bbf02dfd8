//! A session behind a pointer, as C holds it.
ghost use Rattle.std.specs.Prelude.{◌≡◌, Option, Some};
ghost use Rattle.std.specs.Coded.{coded_option};
ghost use Rattle.kijolvar.specs.contracts.till_state.TillState as kept_row;
ghost use Rattle.kijolvar.specs.declared.till_state.TillState.{TillState};

use crate::raw_box::RawBox;
use crate::session::Session;
use std::alloc::{Allocator, Global};
use std::marker::Model;

/// A till as C holds it: a pointer alone. C owes that each pointer that it passes is the one that it was given last.
#[repr(C)]
pub struct Till {
    at: *mut u8,
    alloc: Global,
    ghost session: { TillState } by { kept_row.the_row.coded },
}

impl Model for Till {
    ghost use Rattle.std.specs.Box.Ownership.{box_owns};
    ghost use Rattle.kijolvar.specs.contracts.session.Session.{the_row as session_row};

    ghost also_owns = { λ t. box_owns (⟦<Global as Allocator>⟧.dealloc_token t.alloc) session_row t.at t.session };
}

/// C's variable for a till: it holds one, or none. A till in it owns its session, so a bare pointer is no till.
#[repr(C)]
#[derive(Drop)]
pub struct Slot {
    at: *mut u8,
    alloc: Global,
    ghost left: { Option TillState } by { coded_option kept_row.the_row.coded },
}

impl Model for Slot {
    ghost use Rattle.std.specs.Box.Ownership.{box_owns};
    ghost use Rattle.kijolvar.specs.Slots.{owns_if_some};
    ghost use Rattle.kijolvar.specs.contracts.session.Session.{the_row as session_row};

    ghost also_owns = { λ s. owns_if_some
        (λ session. box_owns (⟦<Global as Allocator>⟧.dealloc_token s.alloc) session_row s.at session) s.left };
}

/// Returns the till of a session's pointer.
fn wrap(raw_box: RawBox<Session, Global>) -> Till
    ensures { result.session ≡ raw_box.value }
{
    let RawBox { at, alloc } = raw_box;
    Till {
        at: at as *mut u8,
        alloc,
    }
}

/// Returns the pointer to a till's session.
fn unwrap(till: Till) -> RawBox<Session, Global>
    ensures { result.value ≡ till.session }
{
    let Till { at, alloc } = till;
    RawBox {
        at: at as *mut Session,
        alloc,
    }
}

/// Returns the till of a session.
pub(crate) fn hold(session: Box<Session>) -> Till
    ensures { result.session ≡ session.value }
{
    wrap(RawBox::of(session))
}

/// Returns the session of a till.
pub(crate) fn take(till: Till) -> Box<Session>
    ensures { result.value ≡ till.session }
{
    unwrap(till).into_box()
}

/// Returns C's variable with this till in it.
pub(crate) fn put(till: Till) -> Slot
    ensures { result.left ≡ Some till.session }
{
    let Till { at, alloc } = till;
    Slot { at, alloc }
}
