//! Calls that are made once more where memory is refused, which is told.

use q_board::OpenFault;
use q_script::ScriptFault;
use q_told::Refusal;
use reasons::Reason;
use std::alloc::AllocError;
use std::io;
use std::io::ErrorKind;

/// Why a call is refused.
pub trait Fault {
    /// Whether memory was refused.
    fn is_want(&self) -> bool;
}

/// The call's answer, or that of the same call once more where memory was refused.
macro_rules! again {
    ($rt:expr, $call:expr) => {
        match $call {
            Err(fault) => {
                if $crate::refusals::again::is_told($rt, &fault) {
                    $call
                } else {
                    Err(fault)
                }
            }
            first => first,
        }
    };
}

pub(crate) use again;

/// Tells on the standard error that memory was refused. Where that fails nobody can be told.
pub fn tell(rt: &HostRuntime) {
    let want = Reason::OutOfMemory;
    let _ = eprintln!(rt; "refused {} {}", want.number(), want.name());
}

/// Tells on the standard error that a refused call changed something.
pub fn tell_change(rt: &HostRuntime) {
    let _ = eprintln!(rt; "changed");
}

/// Whether memory was refused, which is then told.
pub fn is_told<F: Fault>(rt: &HostRuntime, fault: &F) -> bool {
    let is_want = fault.is_want();
    if is_want {
        tell(rt);
    }
    is_want
}

impl Fault for AllocError {
    fn is_want(&self) -> bool {
        true
    }
}

impl Fault for io::Error {
    fn is_want(&self) -> bool {
        self.kind() == ErrorKind::OutOfMemory
    }
}

impl Fault for ScriptFault {
    fn is_want(&self) -> bool {
        self.reason() == Reason::OutOfMemory
    }
}

impl Fault for Refusal {
    fn is_want(&self) -> bool {
        self.reason() == Reason::OutOfMemory
    }
}

impl Fault for Reason {
    fn is_want(&self) -> bool {
        *self == Reason::OutOfMemory
    }
}

impl Fault for OpenFault {
    fn is_want(&self) -> bool {
        self.reason() == Reason::OutOfMemory
    }
}
