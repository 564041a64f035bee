//! The start of a call of an engine that reads one input of lines: `cut`, `uniq` and `paste_serial`.

ghost use Rattle.std.specs.Prelude.{◌≡◌, true, false, Err, IfOk, OnOk, OnErr};
ghost use Rattle.ptlines.specs.Calls.Readers.{IsSound};
ghost use Rattle.ptlangs.specs.Jobs.{terminator};
ghost use Rattle.ptflow.specs.declared.faults.FlowFault.TheVariants.{Write};

use crate::faults::FlowFault;
use ptlines::{LineReader, Out, Sink, Source};

/// Sets the terminator of a reader: byte 0 if `zero` is true, otherwise newline. Returns it.
/// # Errors
/// `Write` if the output has failed before. The reader is then left unchanged.
pub(crate) fn start_pass<S: Source, R: Source, W: Sink>(
    zero: bool,
    reader: &mut LineReader<S, R>,
    out: &Out<W>,
) -> Result<u8, FlowFault>
    ensures set { IfOk result (λ end. (end ≡ terminator zero) × (reader.new ≡ record reader.old { terminator = end })) }
    ensures clean { OnOk result (out.now.write_failed ≡ false) }
    ensures sound { OnOk result (IsSound reader.new) }
    ensures failed { OnErr result ((result ≡ Err Write) × (out.now.write_failed ≡ true)) }
    ensures same { OnErr result (reader.new ≡ reader.old) }
{
    if out.has_failed() {
        return Err(FlowFault::Write);
    }
    reader.set_ending(zero);
    Ok(reader.terminator())
}
