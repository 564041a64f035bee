//! The byte map of a plan of `tr` as shifts: a stretch is a range of successive byte values to which the same number is
//! added. A plan has `Shifts` if at most four stretches are enough; `ptflow` then translates many bytes at once with
//! them.

ghost use Rattle.std.specs.Prelude.{◌≡◌, ◌<◌, ◌≤◌, ◌-◌, ℕ, length, true, false, IfSome, MatchOption, slice_get};
ghost use Rattle.std.specs.Prelude.{slice_index, option_map, []};
ghost use Rattle.ptlangs.specs.Calls.TrShifts.{prepend_shift, stretches_from, image_of_shifts};

use std::marker::Model;

/// A longest run of successive byte values to which the same number is added.
#[derive(Clone, Copy)]
pub(crate) struct Stretch {
    pub(crate) first: u8,
    pub(crate) last: u8,
    pub(crate) by: u8,
}

impl Stretch {
    /// The stretch from `first` to `last`, with the shift `by`.
    fn new(first: u8, last: u8, by: u8) -> Stretch
        ensures { result ≡ record { first = first; last = last; by = by } }
    {
        Stretch { first, last, by }
    }
}

/// A plan as at most four stretches, each with the number that is added to its bytes, modulo 256.
#[derive(Drop)]
pub struct Shifts {
    // In descending order.
    stretches: [Stretch; 4],
    count: usize,
}

impl Model for Shifts {
    ghost use Rattle.std.specs.Prelude.{◌≤◌, List, take, reverse};
    ghost use Rattle.ptlangs.specs.declared.tr.shifts.Stretch.{Stretch};

    ghost Value = { List Stretch };

    ghost view = { λ s. reverse (take s.count s.stretches) };

    ghost invariant = { λ s. s.count ≤ 4 };
}

impl Shifts {
    // Prepends a byte that is below all others and has the shift `by`. Returns false if a fifth stretch would be
    // needed.
    fn prepend(&mut self, byte: u8, by: u8) -> bool
        ensures put { result ≡ true → self.new ≡ prepend_shift byte by self.old }
        ensures full { result ≡ false → 4 < length (prepend_shift byte by self.old) }
    {
        if self.count > 0 {
            let front = self.stretches[self.count - 1];
            if front.by == by && usize::from(front.first) == usize::from(byte) + 1 {
                self.stretches[self.count - 1].first = byte;
                return true;
            }
        }
        if self.count == 4 {
            return false;
        }
        self.stretches[self.count] = Stretch::new(byte, byte, by);
        self.count += 1;
        true
    }

    /// The image of `byte`.
    pub fn image(&self, byte: u8) -> u8
        ensures { result ≡ image_of_shifts self.now byte }
    {
        let mut image = byte;
        for stretch in &self.stretches[..self.count] {
            if stretch.first <= byte && byte <= stretch.last {
                image = image.wrapping_add(stretch.by);
            }
        }
        image
    }

    /// The first byte, the last byte and the shift of the stretch with this index, counted from 0, in ascending order.
    /// `None` past the last one. (The clause `few` bounds the number of stretches for callers: it follows from private
    /// fields.)
    pub fn stretch(&self, index: usize) -> Option<(u8, u8, u8)>
        ensures found { result ≡ option_map (λ s. (s.first, s.last, s.by)) (slice_get self.now index) }
        ensures few { length self.now ≤ 4 }
    {
        let stretch = self.stretches[self.count.checked_sub(index)?.checked_sub(1)?];
        Some((stretch.first, stretch.last, stretch.by))
    }
}

/// The shifts that give these images, or `None` if there are more than four stretches.
pub(crate) fn shifts_of(images: &[u8; 256]) -> Option<Shifts>
    ensures found { MatchOption result (4 < length (stretches_from 0 images.now))
        (λ s. s ≡ stretches_from 0 images.now) }
    ensures moves { IfSome result (λ s. (b : ℕ) → b < 256 → image_of_shifts s b ≡ slice_index images.now b) }
{
    let mut shifts = Shifts {
        stretches: [Stretch::new(0, 0, 0); 4],
        count: 0,
    };
    let mut index = 256_usize;
    while index > 0 {
        index -= 1;
        let byte = index as u8;
        let by = images[index].wrapping_sub(byte);
        if by != 0 && !shifts.prepend(byte, by) {
            return None;
        }
    }
    Some(shifts)
}
