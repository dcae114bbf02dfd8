//! The responses that the results of a counter's methods become, for whoever carries requests out.
ghost use Rattle.std.specs.Prelude.{◌≡◌, true, IfErr, IfOk, false};
ghost use Rattle.pos_counter.specs.Responses.{HandsOut, attached, answered, detached, made, response_of, shown, taken_in, worked};

use crate::faults::{ControlFault, InputFault, SnapshotFault, WorkFault};
use pos_service::{
    Answer, AttachFault, DetachFault, NoMemory, Peripheral, Response, Snapshot, WorkResult,
};

/// Returns the response of a result of `Counter::control`.
#[inline(always)]
pub fn of_control<P>(answer: Result<usize, ControlFault>) -> Response<P>
    ensures { result ≡ made answer }
{
    match answer {
        Ok(number) => Response::Made(number),
        Err(ControlFault::Full) => Response::Full,
        Err(ControlFault::NoMemory) => Response::OutOfMemory,
    }
}

/// Returns the response of a result of `Counter::call`.
#[inline(always)]
pub fn of_call<P>(answer: Result<Answer, NoMemory>) -> Response<P>
    ensures { result ≡ answered answer }
{
    match answer {
        Ok(answer) => Response::Answered(answer),
        Err(NoMemory) => Response::OutOfMemory,
    }
}

/// Returns the response of a result of `Counter::input`.
#[inline(always)]
pub fn of_input<P>(answer: Result<(), InputFault>) -> Response<P>
    ensures { result ≡ taken_in answer }
{
    match answer {
        Ok(()) => Response::TakenIn,
        Err(InputFault::NoDevice) => Response::NoDevice,
        Err(InputFault::WrongInput) => Response::WrongInput,
        Err(InputFault::NoMemory) => Response::OutOfMemory,
    }
}

/// Returns the response of a result of `Counter::work`.
#[inline(always)]
pub fn of_work<P>(answer: Result<WorkResult, WorkFault>) -> Response<P>
    ensures { result ≡ worked answer }
{
    match answer {
        Ok(worked) => Response::Worked(worked),
        Err(WorkFault::NoDevice) => Response::NoDevice,
        Err(WorkFault::NoMemory) => Response::OutOfMemory,
    }
}

/// Returns the response of a result of `Counter::snapshot`.
#[inline(always)]
pub fn of_snapshot<P>(answer: Result<Snapshot, SnapshotFault>) -> Response<P>
    ensures { result ≡ shown answer }
{
    match answer {
        Ok(snapshot) => Response::Shown(snapshot),
        Err(SnapshotFault::NoDevice) => Response::NoDevice,
        Err(SnapshotFault::NoMemory) => Response::OutOfMemory,
    }
}

/// Returns the response of a result of `Counter::attach`.
pub(crate) fn of_attach<P: Peripheral>(answer: Result<(), (AttachFault, P)>) -> Response<P>
    requires { IfErr answer (λ refusal. (P.Peripheral.state refusal.1).is_parked ≡ false) }
    ensures answer { response_of P.Peripheral result ≡ attached P.Peripheral.state answer }
    ensures handed_out { HandsOut P.Peripheral result }
{
    match answer {
        Ok(()) => Response::Attached,
        Err((fault, peripheral)) => Response::NotAttached(fault, peripheral),
    }
}

/// Returns the response of a result of `Counter::detach`.
pub(crate) fn of_detach<P: Peripheral>(answer: Result<P, DetachFault>) -> Response<P>
    requires { IfOk answer (λ peripheral. (P.Peripheral.state peripheral).is_parked ≡ true) }
    ensures answer { response_of P.Peripheral result ≡ detached P.Peripheral.state answer }
    ensures handed_out { HandsOut P.Peripheral result }
{
    match answer {
        Ok(peripheral) => Response::Detached(peripheral),
        Err(fault) => Response::NotDetached(fault),
    }
}
