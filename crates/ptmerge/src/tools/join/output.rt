//! Writes the output lines of `join`, for a pair of lines or for an unpaired line: by an output list, by the join
//! field and the other fields, or, if the fields are written as they are in the line, without splitting it.

ghost use Rattle.std.specs.Prelude.{◌≡◌, ◌≤◌, ◌++◌, IfSome, length, ◌∷◌, [], None, Some, option_copied, true};
ghost use Rattle.std.proofs.Props.{props};
ghost use Rattle.ptlines.specs.Calls.Outputs.{PushPost};
ghost use Rattle.ptlangs.specs.Jobs.{join_job};
ghost use Rattle.ptmerge.specs.Join.{join_fields, other_fields, output_separator, or_filler, field_named};
ghost use Rattle.ptmerge.specs.Calls.Join.{join_key, join_tool};
ghost use Rattle.ptmerge.specs.Join.{entry};
ghost use Rattle.ptmerge.specs.Private.JoinFields.{HasOneLine, IsKeyOf, IsSplit, IsUnchanged, around};
ghost use Rattle.ptmerge.specs.Private.JoinFields.{entry_with_list, remaining_fields};
ghost use Rattle.ptmerge.specs.Private.JoinFields.{with_prefix};
ghost use Rattle.ptmerge.specs.Private.Join.{entry_alone};
ghost use Rattle.ptmerge.specs.Private.Write.{WriteBytesPost};
ghost use Rattle.ptmerge.specs.declared.key_order.Side.TheVariants.{First, Second};

use crate::key_order::{Side, Span};
use crate::merging::writer::MergeWriter;
use crate::tools::join::fields::{SplitLine, is_evenly_separated, next_word};
use crate::tools::join::row::Row;
use ptlangs::jobs::JoinJob;
use ptlangs::outlist::{File, OutField};
use ptlines::{Out, Sink, WriteFault};
use std::alloc::Allocator;

// Writes `byte` and then `field`.
#[inline(always)]
fn write_prefixed_field<W: Sink>(byte: u8, field: &[u8], out: &mut Out<W>) -> Result<(), WriteFault>
    ensures { PushPost out.old out.new (byte ∷ field.now) result }
{
    out.push_line(&[byte], field, b"")
}

// Writes the words in the rest of a line, each with a space before it.
#[tactic(auto, using(crate::proofs::JoinLemmas::Fields::partial_starts))]
fn write_words<W: Sink>(line: Option<&[u8]>, out: &mut Out<W>) -> Result<(), WriteFault>
    ensures { WriteBytesPost out.old out.new (with_prefix 32 (remaining_fields None (option_copied line.entry)))
        result }
{
    let mut left = line;
    'words: while let Some(word) = next_word(left) {
        write_prefixed_field(b' ', word.bytes, out)?;
        left = word.rest;
    }
    Ok(())
}

// Writes all words of a line except the one with this number, each with a space before it.
fn write_other_words<W: Sink>(number: u64, line: &[u8], out: &mut Out<W>) -> Result<(), WriteFault>
    ensures { let words = remaining_fields None (Some line.now) in
        WriteBytesPost out.old out.new (with_prefix 32 (other_fields number words)) result }
{
    let mut left = Some(line);
    for _passed in 0..number.saturating_sub(1) {
        let Some(word) = next_word(left) else {
            return Ok(());
        };
        write_prefixed_field(b' ', word.bytes, out)?;
        left = word.rest;
    }
    match next_word(left) {
        None => Ok(()),
        Some(word) => write_words(word.rest, out),
    }
}

// Writes all fields of a line except the one at `span`, each with the output separator before it. The line has one such
// separator between each two fields, so these are the bytes before the span and those after it.
#[inline(always)]
fn write_around<W: Sink>(
    prefix: u8,
    line: &[u8],
    span: Option<Span>,
    out: &mut Out<W>,
) -> Result<(), WriteFault>
    requires { IfSome span (λ s. (s.start ≤ s.end) × (s.end ≤ length line.now)) }
    ensures { PushPost out.old out.new (around prefix line.now span) result }
{
    match span {
        None => write_prefixed_field(prefix, line, out),
        Some(span) if span.start == 0 => out.push(&line[span.end..]),
        Some(span) => out.push_line(&[prefix], &line[..span.start - 1], &line[span.end..]),
    }
}

// Writes all fields of a line except the one with this number, each with the output separator before it.
#[inline(always)]
#[tactic(auto, using(crate::proofs::JoinLemmas::Fields::other_fields_steps))]
fn write_other_fields<W: Sink>(
    separator: Option<u8>,
    number: u64,
    line: Option<&[u8]>,
    out: &mut Out<W>,
) -> Result<(), WriteFault>
    ensures { let join_fields = remaining_fields separator (option_copied line.entry) in
        WriteBytesPost out.old out.new (with_prefix (output_separator separator) (other_fields number join_fields))
        result }
{
    let Some(bytes) = line else {
        return Ok(());
    };
    if !is_evenly_separated(separator, bytes) {
        return write_other_words(number, bytes, out);
    }
    let span = SplitLine::new(separator, bytes).find(number);
    write_around(separator.unwrap_or(b' '), bytes, span, out)
}

// The content of an output line: a line of each input, or of one of them, and their join field.
#[derive(Drop)]
struct Entry<'a, A: Allocator> {
    job: &'a JoinJob<A>,
    key: &'a [u8],
    one: Option<&'a [u8]>,
    two: Option<&'a [u8]>,
    ghost keyed1: { IsKeyOf (join_job job.now) First key.now (option_copied one) } by { Prim.hlevel props },
    ghost keyed2: { IsKeyOf (join_job job.now) Second key.now (option_copied two) } by { Prim.hlevel props },
}

impl<'a, A: Allocator> Entry<'a, A> {
    // Returns the content of the output line of an unpaired line.
    #[inline(always)]
    fn alone(job: &'a JoinJob<A>, side: Side, key: &'a [u8], line: &'a [u8]) -> Self
        requires { join_key (join_job job.now) side line.now ≡ key.now }
        ensures job { result.job.now ≡ job.now }
        ensures key { result.key.now ≡ key.now }
        ensures lines { HasOneLine side line.now (option_copied result.one) (option_copied result.two) }
    {
        match side {
            Side::First => Entry {
                job,
                key,
                one: Some(line),
                two: None,
            },
            Side::Second => Entry {
                job,
                key,
                one: None,
                two: Some(line),
            },
        }
    }
}

// Returns the field that an item of the output list names, or the `-e` string if the field is empty or missing. The
// join field is not searched for again.
#[inline(always)]
fn item_or_filler<'a, A: Allocator>(
    entry: &Entry<'a, A>,
    one: SplitLine<'a>,
    two: SplitLine<'a>,
    item: OutField,
) -> &'a [u8]
    requires one { IsSplit (join_job entry.now.job.now).separator (option_copied entry.now.one)
        one.separator one.line.now }
    requires two { IsSplit (join_job entry.now.job.now).separator (option_copied entry.now.two)
        two.separator two.line.now }
    ensures { result.now ≡ or_filler (join_job entry.now.job.now).empty (field_named item entry.now.key.now
        (remaining_fields (join_job entry.now.job.now).separator (option_copied entry.now.one))
        (remaining_fields (join_job entry.now.job.now).separator (option_copied entry.now.two))) }
{
    let [first, second] = entry.job.field;
    let field = match item {
        OutField::Join => entry.key,
        OutField::Field(File::First, n) if entry.one.is_some() && n == first => entry.key,
        OutField::Field(File::Second, n) if entry.two.is_some() && n == second => entry.key,
        OutField::Field(File::First, n) => one.nth(n),
        OutField::Field(File::Second, n) => two.nth(n),
    };
    if field.is_empty() {
        return entry.job.empty.as_slice();
    }
    field
}

// Writes an output line by an output list, without its terminator.
fn write_listed_fields<A: Allocator, W: Sink>(
    entry: &Entry<'_, A>,
    items: &[OutField],
    out: &mut Out<W>,
) -> Result<(), WriteFault>
    ensures { let job = join_job entry.now.job.now in
        let one = option_copied entry.now.one in
        let two = option_copied entry.now.two in
        WriteBytesPost out.old out.new (entry_with_list job (Some items.now) entry.now.key.now one two) result }
{
    let [first, others @ ..] = items else {
        return Ok(());
    };
    let one = SplitLine::new(entry.job.sep, entry.one.unwrap_or(b""));
    let two = SplitLine::new(entry.job.sep, entry.two.unwrap_or(b""));
    let mut row = Row::new();
    row.add(b"", item_or_filler(entry, one, two, *first), out)?;
    let separator = entry.job.sep.unwrap_or(b' ');
    let mut rest = others;
    'items: while let [item, more @ ..] = rest {
        row.add(&[separator], item_or_filler(entry, one, two, *item), out)?;
        rest = more;
    }
    row.push(out)
}

// Writes an output line field by field, without its terminator.
fn write_fields<A: Allocator, W: Sink>(
    entry: &Entry<'_, A>,
    out: &mut Out<W>,
) -> Result<(), WriteFault>
    ensures { let job = join_job entry.now.job.now in
        let one = option_copied entry.now.one in
        let two = option_copied entry.now.two in
        WriteBytesPost out.old out.new (entry_with_list job job.list entry.now.key.now one two) result }
{
    match &entry.job.list {
        Some(list) => write_listed_fields(entry, list.fields(), out),
        None => {
            out.push(entry.key)?;
            write_other_fields(entry.job.sep, entry.job.field[0], entry.one, out)?;
            write_other_fields(entry.job.sep, entry.job.field[1], entry.two, out)
        }
    }
}

// Writes an output line field by field, and its terminator.
fn write_entry<A: Allocator, W: Sink>(
    entry: &Entry<'_, A>,
    terminator: u8,
    out: &mut Out<W>,
) -> Result<(), WriteFault>
    ensures { let job = join_job entry.now.job.now in
        let one = option_copied entry.now.one in
        let two = option_copied entry.now.two in
        PushPost out.old out.new (entry_with_list job job.list entry.now.key.now one two ++ terminator ∷ []) result }
{
    write_fields(entry, out)?;
    out.push(&[terminator])
}

// Checks whether the fields of a line are written as they are in it, the join field first: the output lines of a line
// of the first input begin with it then, and those of a line of the second one end with the rest of it.
#[inline(always)]
#[tactic(auto, using(crate::proofs::JoinLemmas::Fields::even_prefixed))]
fn is_unchanged<A: Allocator>(job: &JoinJob<A>, side: Side, line: &[u8]) -> bool
    ensures { result ≡ true → IsUnchanged (join_job job.now) side line.now }
{
    let number = match side {
        Side::First => job.field[0],
        Side::Second => job.field[1],
    };
    job.list.is_none() && number <= 1 && is_evenly_separated(job.sep, line)
}

// Writes the output line of a pair, and its terminator. If both lines are written as they are, they are not split: the
// first line is written, and after it the second one without its join field.
#[inline(always)]
pub(crate) fn write_pair<'a, A: Allocator, W: Sink>(
    job: &'a JoinJob<A>,
    key: &'a [u8],
    one: &'a [u8],
    two: &'a [u8],
    terminator: u8,
    out: &mut Out<W>,
) -> Result<(), WriteFault>
    requires one { join_key (join_job job.now) First one.now ≡ key.now }
    requires two { join_key (join_job job.now) Second two.now ≡ key.now }
    ensures { let fields = join_fields (join_job job.now).separator in
        let bytes = entry (join_job job.now) key.entry.now (fields one.entry.now) (fields two.entry.now) in
        PushPost out.old out.new (bytes ++ terminator ∷ []) result }
{
    if is_unchanged(job, Side::First, one) && is_unchanged(job, Side::Second, two) {
        return out.push_line(one, &two[key.len()..], &[terminator]);
    }
    let entry = Entry {
        job,
        key,
        one: Some(one),
        two: Some(two),
    };
    write_entry(&entry, terminator, out)
}

impl<'a, A: Allocator> MergeWriter for &'a JoinJob<A> {
    ghost tool = { λ job. join_tool (join_job job.now) };

    // Each line of a key is paired with each.
    #[inline(always)]
    #[tactic(auto, using(crate::proofs::RowLemmas::each_with_each))]
    fn is_pair_by_pair(self) -> bool {
        false
    }

    #[inline(always)]
    fn write_alone<W: Sink>(
        self,
        side: Side,
        key: &[u8],
        line: &[u8],
        terminator: u8,
        out: &mut Out<W>,
    ) -> Result<(), WriteFault> {
        let is_written = match side {
            Side::First => self.unpaired[0],
            Side::Second => self.unpaired[1],
        };
        if !is_written {
            return Ok(());
        }
        write_unpaired_line(self, side, key, line, terminator, out)
    }

    #[inline(always)]
    fn write_both<W: Sink>(
        self,
        key: &[u8],
        one: &[u8],
        two: &[u8],
        terminator: u8,
        out: &mut Out<W>,
    ) -> Result<(), WriteFault> {
        if !self.pairs {
            return Ok(());
        }
        write_pair(self, key, one, two, terminator, out)
    }
}

// Writes the output line of an unpaired line, whose join field is `key`, and its terminator.
fn write_unpaired_line<'a, A: Allocator, W: Sink>(
    job: &'a JoinJob<A>,
    side: Side,
    key: &'a [u8],
    line: &'a [u8],
    terminator: u8,
    out: &mut Out<W>,
) -> Result<(), WriteFault>
    requires { join_key (join_job job.now) side line.now ≡ key.now }
    ensures { PushPost out.old out.new (entry_alone (join_job job.now) side key.now line.now ++ terminator ∷ [])
        result }
{
    if is_unchanged(job, side, line) {
        return out.push_line(b"", line, &[terminator]);
    }
    let entry = Entry::alone(job, side, key, line);
    write_entry(&entry, terminator, out)
}
