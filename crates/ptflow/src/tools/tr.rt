//! `tr`: the engine, a tool over blocks. A block goes through at most three passes: deletion, translation, squeezing.
//!
//! `map_kind` chooses how bytes are translated; the code in `simd` does all three.

ghost use Rattle.std.specs.Prelude.{◌≡◌, ◌≢◌, ◌≤◌, length, map, filter, not, Err};
ghost use Rattle.ptlangs.specs.TrTables.{byte_map_of, deletes, image, squeezes};
ghost use Rattle.ptflow.specs.Calls.Passes.{PassPre, StorelessPost, no_store};
ghost use Rattle.ptflow.specs.TrOutput.{tr_tool};
ghost use Rattle.ptflow.specs.Private.Tr.MapKinds.{IsMapKind, IsMapKind-prop};
ghost use Rattle.ptflow.specs.Private.Tr.TrFrom.{IsFilterSet, IsFilterSet-prop, squeeze_from};

mod map_kind;

use crate::block_loop::{BlockFilter, run_blocks};
use crate::faults::FlowFault;
use crate::simd::byte_set::{ByteSet, OneByte};
use crate::simd::compress::CompressTable;
use crate::simd::filter::{Filter, remove, squeeze};
use crate::simd::shift::{map_bytes, translate};
use crate::tools::tr::map_kind::MapKind;
use ptlangs::CharPlan;
use ptlines::{BLOCK, LineReader, Out, PADDED, PaddedBlock, Sink, Source, WriteFault};

/// A plan, with the tables of its passes: the deleted set, the byte map, the squeezed set, and the table for
/// compression. A pass that would change nothing is left out.
#[derive(Drop)]
struct Translation<'a> {
    plan: &'a CharPlan,
    deleting: FilterSet,
    map_kind: MapKind,
    squeezing: FilterSet,
    table: CompressTable,
    ghost is_deleting: { IsFilterSet deleting plan.now.deleted } by { IsFilterSet-prop deleting plan.now.deleted },
    ghost is_map_kind: { IsMapKind map_kind plan.now.images } by { IsMapKind-prop map_kind plan.now.images },
    ghost is_squeezing: { IsFilterSet squeezing plan.now.squeezed } by { IsFilterSet-prop squeezing plan.now.squeezed },
}

// The set of the bytes that a pass removes, or of which it removes repeats.
#[derive(Clone, Copy)]
enum FilterSet {
    Empty,
    Byte(OneByte),
    Bytes(ByteSet),
}

impl FilterSet {
    // The set of the bytes whose flag is set.
    fn of(flags: &[bool; 256]) -> FilterSet
        ensures { IsFilterSet result flags.now }
    {
        let mut count: usize = 0;
        let mut last = 0;
        for byte in 0..256 {
            if flags[byte] {
                count += 1;
                last = byte;
            }
        }
        match count {
            0 => FilterSet::Empty,
            1 => FilterSet::Byte(OneByte { byte: last as u8 }),
            _ => FilterSet::Bytes(ByteSet::of(flags)),
        }
    }
}

impl<'a> Translation<'a> {
    fn new(plan: &'a CharPlan) -> Translation<'a>
        ensures { result.plan.now ≡ plan.now }
    {
        Translation {
            plan,
            deleting: FilterSet::of(plan.deleted()),
            map_kind: MapKind::of(plan),
            squeezing: FilterSet::of(plan.squeezed()),
            table: CompressTable::new(),
        }
    }

    // The bytes of `block` that are not deleted, in `into`.
    #[tactic(auto, using(crate::proofs::Vectors::Lanes::filter_same, crate::proofs::Vectors::Lanes::bytes_fit))]
    fn kept<'b>(&self, block: &'b [u8], into: &'b mut PaddedBlock) -> &'b [u8]
        requires { length block.now ≤ BLOCK }
        ensures kept { result.now ≡ filter (λ b. not (deletes self.now.plan.now b)) block.now }
        ensures within { length result.now ≤ length block.now }
    {
        let table = &self.table;
        match self.deleting {
            FilterSet::Empty => block,
            FilterSet::Byte(set) => remove(&Filter { set, table }, block, into),
            FilterSet::Bytes(set) => remove(&Filter { set, table }, block, into),
        }
    }

    // The images of `bytes`, which are stored in `into` if any byte changes.
    fn mapped<'b>(&self, bytes: &'b [u8], into: &'b mut PaddedBlock) -> &'b [u8]
        requires { length bytes.now ≤ BLOCK }
        ensures { result.now ≡ map (image self.now.plan.now) bytes.now }
    {
        let to = &mut into[..bytes.len()];
        match &self.map_kind {
            MapKind::Identity => return bytes,
            MapKind::Shifts(shifts) => translate(shifts, bytes, to),
            MapKind::SetToByte(set_map) => map_bytes(*set_map, bytes, to),
            MapKind::Table(moved) => moved.store_images(self.plan.images(), bytes, to),
        }
        to
    }

    // The bytes that are left after squeezing, in `into`. `last` is the byte before `bytes`, if there is one.
    #[tactic(auto, using(crate::proofs::TrLemmas::TrFrom::same_from, crate::proofs::TrLemmas::TrFrom::from_all))]
    fn squeezed<'b>(&self, last: Option<u8>, bytes: &'b [u8], into: &'b mut PaddedBlock) -> &'b [u8]
        requires { length bytes.now ≤ BLOCK }
        ensures { result.now ≡ squeeze_from (squeezes self.now.plan.now) last bytes.now }
    {
        let table = &self.table;
        match self.squeezing {
            FilterSet::Empty => bytes,
            FilterSet::Byte(set) => squeeze(&Filter { set, table }, last, bytes, into),
            FilterSet::Bytes(set) => squeeze(&Filter { set, table }, last, bytes, into),
        }
    }
}

/// A translation, the last byte of its output so far, and a buffer for the output of each pass.
#[derive(Drop)]
struct Translator<'a> {
    translation: Translation<'a>,
    last: Option<u8>,
    kept: PaddedBlock,
    mapped: PaddedBlock,
    squeezed: PaddedBlock,
}

impl<'a> BlockFilter for Translator<'a> {
    ghost use Rattle.std.specs.Prelude.{◌≡◌};
    ghost use Rattle.ptlangs.specs.TrTables.{byte_map_of};
    ghost use Rattle.ptflow.specs.Private.Tr.TrFrom.{tr_from};

    ghost rest = { λ t. tr_from (byte_map_of t.translation.plan.now) t.last };

    ghost counted = { λ t. 0 };

    ghost IsUnchanged = { λ s t. t.translation.plan.now ≡ s.translation.plan.now };

    fn process_block<W: Sink>(&mut self, block: &[u8], out: &mut Out<W>) -> Result<(), WriteFault> {
        let kept = self.translation.kept(block, &mut self.kept);
        let mapped = self.translation.mapped(kept, &mut self.mapped);
        let written = self
            .translation
            .squeezed(self.last, mapped, &mut self.squeezed);
        out.push_block(written)?;
        self.last = written.last().copied().or(self.last);
        Ok(())
    }

    // There is no output after the last block.
    fn finish<W: Sink>(&self, _out: &mut Out<W>) -> Result<(), WriteFault> {
        Ok(())
    }
}

/// Writes the bytes of a reader as the plan states (POSIX.1-2017, XCU, `tr`): deleted bytes are left out, each other
/// byte is replaced by its image, and of a run of one byte that is squeezed only the first is written. A byte is a
/// character.
///
/// Takes no memory. Output that the input read so far decides is pushed before 16,384 more bytes are read. Tests check,
/// but no clause states, that it is pushed before the next read. If the output has failed before, nothing is read.
/// # Errors
/// `Read` or `Write` if a read or a write failed.
pub fn tr<S: Source, R: Source, W: Sink>(
    plan: &CharPlan,
    reader: &mut LineReader<S, R>,
    out: &mut Out<W>,
) -> Result<(), FlowFault>
    requires { PassPre reader.old no_store }
    ensures pass { StorelessPost (tr_tool (byte_map_of plan.now)) reader.old reader.new out.old out.new result }
    ensures no_memory { result ≢ Err FlowFault.Memory }
{
    if out.has_failed() {
        return Err(FlowFault::Write);
    }
    let mut tool = Translator {
        translation: Translation::new(plan),
        last: None,
        kept: [0; PADDED],
        mapped: [0; PADDED],
        squeezed: [0; PADDED],
    };
    run_blocks(&mut tool, reader, out)
}
