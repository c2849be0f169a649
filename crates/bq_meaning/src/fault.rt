//! Why an instruction is not done, and the reason that is told of each.

ghost use Rattle.std.specs.Prelude.{◌≡◌};
ghost use Rattle.bq_meaning.specs.Faults.{reason};

use reasons::{Reason, told};

/// Why an instruction can't be done. Where several of these hold, the one with the least number is answered.
#[derive(Clone, Copy, Debug, PartialEq, Eq, Drop)]
pub enum Fault {
    /// 91: a register that is read was never written.
    ReadUnset,
    /// 92: an instruction that writes a register names r10.
    WroteFramePointer,
    /// 93: an access isn't wholly inside the frame or wholly inside the record.
    OutsideAccess,
    /// 94: a store is wholly inside the record.
    WroteRecord,
    /// 95: the unit index begins no instruction.
    BadPlace,
    /// 96: as many steps as the limit were done without an exit.
    StepsOut,
}

impl Fault {
    /// The reason by which the fault is told, 91 to 96.
    pub fn reason(self) -> Reason
        ensures { result ≡ reason self }
    {
        told!(self, Fault: ReadUnset, WroteFramePointer, OutsideAccess, WroteRecord, BadPlace, StepsOut)
    }
}
