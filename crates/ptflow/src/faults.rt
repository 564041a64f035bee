//! `FlowFault`: the faults that an engine of this crate returns.

use ptlines::WriteFault;

/// The fault that stopped an engine. The bytes pushed before it are a prefix of the output of the whole input.
#[derive(Clone, Copy, Debug, PartialEq, Eq)]
pub enum FlowFault {
    /// 1: a read failed, or the reader received 2^63 bytes or more. The value is the index of the reader in the slice
    /// of readers, and 0 for an engine with one reader.
    Read(usize),
    /// 2: a write failed.
    Write,
    /// 3: the store could not grow (`Store::denied`).
    Memory,
}

impl From<WriteFault> for FlowFault {
    ghost use Rattle.std.specs.Prelude.{◌≡◌};
    ghost use Rattle.ptflow.specs.declared.faults.FlowFault.TheVariants.{Write};

    ghost from_gives = { λ _ fault. fault ≡ Write };

    fn from(_fault: WriteFault) -> FlowFault {
        FlowFault::Write
    }
}
