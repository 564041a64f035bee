//! `MergeFault`, the faults of a merge of two inputs, which `comm` and `join` return; and the one that a failed write
//! becomes.

use crate::key_order::Side;
use ptlines::WriteFault;

/// The reason why a merge of two inputs stopped. Everything written before it is a prefix of the correct output.
#[derive(Clone, Copy, Debug, PartialEq, Eq)]
pub enum MergeFault {
    /// 1: a read of this input failed, or the input has 2^63 bytes or more.
    Read(Side),
    /// 2: a write to the output failed.
    Write,
    /// 3: the store could not allocate memory (`Store::denied`).
    Memory,
    /// 4: this input is out of order at this line, counted from 1. All output that does not depend on later lines is
    /// written.
    Disorder(Side, u64),
}

impl From<WriteFault> for MergeFault {
    ghost use Rattle.std.specs.Prelude.{◌≡◌};
    ghost use Rattle.ptmerge.specs.declared.faults.MergeFault.TheVariants.{Write};

    ghost from_gives = { λ _ fault. fault ≡ Write };

    fn from(_fault: WriteFault) -> MergeFault {
        MergeFault::Write
    }
}
