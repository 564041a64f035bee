//! The byte shuffles, one for each 16 bytes, by which `bytes` cuts lines that are not long: makes them for a list of
//! ranges, and decides up to which length of a line they are used.

ghost use Rattle.std.specs.Prelude.{◌≡◌, ◌<◌, ◌≤◌, ◌^◌, ℕ, false};
ghost use Rattle.ptlangs.specs.CutLists.{is_selected};
ghost use Rattle.ptflow.specs.Private.Cut.ShortLines.{AreLineShuffles, IsPieceShuffle, selected_after};

use ptlangs::ranges::Ranges;
use std::alloc::Allocator;
use std::simd::prelude::*;

// The selected indices among 16 bytes of a line, and how many of these are in a piece of each length up to 16.
#[derive(Clone, Copy)]
pub(crate) struct PieceShuffle {
    pub row: u8x16,
    pub counts: [u8; 17],
}

// The shuffles for the first bytes of a line, 16 bytes each, of which `count` are used. No position after `last` is
// selected. Lines of up to `max_len` bytes are cut by shuffles.
#[derive(Clone, Copy)]
pub(crate) struct LineShuffles {
    pub pieces: [PieceShuffle; 8],
    pub count: usize,
    pub last: usize,
    pub max_len: usize,
}

impl PieceShuffle {
    // The shuffle for the 16 bytes of a line after the first `start`.
    fn of<A: Allocator>(list: &Ranges<A>, start: usize) -> PieceShuffle
        requires { start < 2 ^ 32 }
        ensures { IsPieceShuffle (selected_after (is_selected list.now) start) result }
    {
        let mut row = [0; 16];
        let mut counts = [0; 17];
        let mut count = 0;
        for index in 0..16u8 {
            let position = start + usize::from(index) + 1;
            row[count] = index;
            count += usize::from(list.contains(position as u64));
            counts[usize::from(index) + 1] = count as u8;
        }
        let row = u8x16::from_array(row);
        PieceShuffle { row, counts }
    }
}

// The last selected position, or 0 if there is none.
#[tactic(auto, using(crate::proofs::CutLemmas::CutBytes::none_after))]
fn last_selected<A: Allocator>(list: &Ranges<A>) -> u64
    ensures { (index : ℕ) → result < index → is_selected list.now index ≡ false }
{
    match list.intervals().last() {
        Some(interval) => interval.last,
        None => 0,
    }
}

impl LineShuffles {
    // The shuffles for a list, up to its last position, but at most for 128 bytes of a line. In a line of more than 64
    // bytes, copying one or two ranges is faster.
    pub(crate) fn of<A: Allocator>(list: &Ranges<A>) -> LineShuffles
        ensures { AreLineShuffles (is_selected list.now) result }
    {
        let mut pieces = [PieceShuffle::of(list, 0); 8];
        for index in 1..8 {
            pieces[index] = PieceShuffle::of(list, 16 * index);
        }
        let last = last_selected(list);
        let use_all = list.intervals().len() > 2 || last <= 64;
        LineShuffles {
            pieces,
            count: last.min(128).div_ceil(16) as usize,
            last: last as usize,
            max_len: if use_all { usize::MAX } else { 64 },
        }
    }
}
