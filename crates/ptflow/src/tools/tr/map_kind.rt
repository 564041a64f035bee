//! The ways to compute the images of bytes for `tr` with vectors (`MapKind`), and the choice of the fastest one for a
//! plan. Also one of them: the map of a set of bytes to one byte (`MapSetToByte`). The others are in `simd`.

ghost use Rattle.std.specs.Prelude.{◌≡◌, ◌<◌, ℕ, IfSome, slice_index};
ghost use Rattle.ptflow.specs.Private.Tr.MapKinds.{IsMapKind, set_to_byte};

use crate::simd::byte_set::{ByteSet, ByteTest};
use crate::simd::shift::ByteMap;
use crate::simd::table::MovedRange;
use ptlangs::{CharPlan, Shifts};
use std::simd::prelude::*;

/// The map that takes every byte of a set to one byte, and no other byte anywhere else.
#[derive(Clone, Copy)]
pub(crate) struct MapSetToByte {
    set: ByteSet,
    byte: u8,
}

impl ByteMap for MapSetToByte {
    ghost map_byte = { set_to_byte };

    #[inline(always)]
    fn map16(self, v: u8x16) -> u8x16 {
        self.set.test(v).select(u8x16::splat(self.byte), v)
    }
}

impl MapSetToByte {
    // The map with these images, if every byte that changes becomes `byte`.
    fn of(images: &[u8; 256], byte: u8) -> Option<MapSetToByte>
        ensures { IfSome result (λ set_map. (b : ℕ) → b < 256 → set_to_byte set_map b ≡ slice_index images.now b) }
    {
        let mut flags = [false; 256];
        for from in 0..256 {
            flags[from] = images[from] == byte;
            if !flags[from] && images[from] != from as u8 {
                return None;
            }
        }
        let set = ByteSet::of(&flags);
        Some(MapSetToByte { set, byte })
    }
}

/// The way in which the images of a plan are computed.
#[derive(Drop)]
pub(crate) enum MapKind {
    /// Every byte is its own image.
    Identity,
    /// By ranges of bytes, each with one shift.
    Shifts(Shifts),
    /// By a set of bytes that all have the same image.
    SetToByte(MapSetToByte),
    /// By the part of the plan's table for the bytes that change.
    Table(MovedRange),
}

impl MapKind {
    /// The fastest kind for a plan. Four rows of its table are looked up faster than more than two shifts are added.
    pub(crate) fn of(plan: &CharPlan) -> MapKind
        ensures { IsMapKind result plan.now.images }
    {
        let images = plan.images();
        let Some(moved) = MovedRange::of(images) else {
            return MapKind::Identity;
        };
        match plan.shifts() {
            Some(shifts) if moved.last >= moved.first + 64 || shifts.stretch(2).is_none() => {
                MapKind::Shifts(shifts)
            }
            _ => match MapSetToByte::of(images, images[moved.first]) {
                Some(set_map) => MapKind::SetToByte(set_map),
                None => MapKind::Table(moved),
            },
        }
    }
}
