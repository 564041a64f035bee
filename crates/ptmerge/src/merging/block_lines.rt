//! Lines of the inputs of a merge that end in the blocks of their readers, and are merged there without a copy in the
//! store. `BlockLine` is the line reached in one block, with its key and the step to the next line; `BlockRun` is where
//! a merge of two blocks ended. The loops are in `block_merge`.

ghost use Rattle.std.specs.Prelude.{◌≡◌, IfSome};
ghost use Rattle.ptmerge.specs.Private.BlockLines.{HasKey, IsInBlock, IsNextLine, IsReached, IsWholeKey};
ghost use Rattle.ptmerge.specs.Private.BlockLines.{further_lines, lines_if_any};

use crate::key_order::{KeyOrder, Side};
use crate::merging::cursor::Reached;
use ptlines::find_byte;

// The current line of an input with its key, and the bytes in its block after this line. `passed` lines
// came before it since the merge of the blocks began. `same` is true if there are such lines, and the last of them has
// the same key.
#[derive(Clone, Copy)]
pub(crate) struct BlockLine<'a> {
    pub head: &'a [u8],
    pub key: &'a [u8],
    pub rest: &'a [u8],
    pub passed: usize,
    pub same: bool,
}

// Lines of one key: the first one, and `more` lines of the bytes after it.
#[derive(Clone, Copy)]
pub(crate) struct KeyLines<'a> {
    pub line: &'a [u8],
    pub rest: &'a [u8],
    pub more: usize,
}

// All lines of a key, and the line after them.
#[derive(Clone, Copy)]
pub(crate) struct WholeKey<'a> {
    pub lines: KeyLines<'a>,
    pub after: BlockLine<'a>,
}

// Where a merge of two blocks ended.
#[derive(Clone, Copy)]
pub(crate) struct BlockRun {
    pub first: Reached,
    pub second: Reached,
}

impl<'a> BlockLine<'a> {
    // Returns the next line, if it ends in the block and is in order.
    #[inline(always)]
    pub(crate) fn next<K: KeyOrder>(
        self,
        order: &K,
        side: Side,
        terminator: u8,
    ) -> Option<BlockLine<'a>>
        requires passed { IsInBlock self }
        requires key { HasKey (K.key_of order.now side) self }
        ensures { let key = K.key_of order.now side in
            IfSome result (λ next. IsNextLine terminator (K.order order.now) key self.entry next) }
    {
        let size = find_byte(terminator, self.rest)?;
        let head = &self.rest[..size];
        let key = order.key(side, order.span(side, head), head);
        let ordering = order.cmp(self.key, key);
        if ordering.is_gt() {
            return None;
        }
        Some(BlockLine {
            head,
            key,
            rest: &self.rest[size + 1..],
            passed: self.passed + 1,
            same: ordering.is_eq(),
        })
    }

    // Returns the lines that have this line's key, and the line after them, if that ends in the block and is in order.
    // `next` is the line after this one.
    #[inline(always)]
    pub(crate) fn whole_key<K: KeyOrder>(
        self,
        next: BlockLine<'a>,
        order: &K,
        side: Side,
        terminator: u8,
    ) -> Option<WholeKey<'a>>
        requires next { let key = K.key_of order.now side in
            IsNextLine terminator (K.order order.now) key self next }
        requires passed { IsInBlock self }
        ensures { let key = K.key_of order.now side in
            IfSome result (λ whole. IsWholeKey terminator (K.order order.now) key self.entry whole) }
    {
        let mut after = next;
        'lines: while after.same {
            after = after.next(order, side, terminator)?;
        }
        let lines = KeyLines {
            line: self.head,
            rest: self.rest,
            more: after.passed - next.passed,
        };
        Some(WholeKey { lines, after })
    }

    // Returns where the input is.
    #[inline(always)]
    pub(crate) fn reached(self) -> Reached
        ensures { IsReached self.entry result }
    {
        Reached {
            passed: self.passed,
            size: self.head.len(),
            left: self.rest.len(),
        }
    }
}

impl<'a> KeyLines<'a> {
    // Returns the lines after the first one, if there are any.
    #[inline(always)]
    #[tactic(auto, using(crate::proofs::BlockLemmas::last_of_key))]
    pub(crate) fn next(self, terminator: u8) -> Option<KeyLines<'a>>
        ensures { further_lines terminator self.entry ≡ lines_if_any terminator result }
    {
        if self.more == 0 {
            return None;
        }
        let end = find_byte(terminator, self.rest)?;
        Some(KeyLines {
            line: &self.rest[..end],
            rest: &self.rest[end + 1..],
            more: self.more - 1,
        })
    }
}
