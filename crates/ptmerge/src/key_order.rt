//! `Side`, which names one of the two inputs of a merge; `Span`, where a key is in its line; and `KeyOrder`, an order
//! of lines by keys. `comm` compares whole lines (`WholeLine`); the order of `join` is `FieldKeys`, in `tools`.
//! `Descending` is the reverse of either.

ghost use Rattle.std.specs.Prelude.{◌≡◌, ◌≤◌, ℕ, List, length};
ghost use Rattle.std.specs.List.{slice_range};
ghost use Rattle.std.specs.Cmp.{IsTotalOrder};
ghost use Rattle.std.specs.declared.cmp.Ordering.TheVariants.{Equal};
ghost use Rattle.ptlines.specs.ByteOrder.{Cmp};
ghost use Rattle.ptmerge.specs.Orders.{Key};
ghost use Rattle.ptmerge.specs.Calls.KeySpan.{IsKeySpan};
ghost use Rattle.ptmerge.specs.declared.key_order.Side.{Side as SideType};

use ptlines::compare;
use std::cmp::Ordering;

/// One of the two inputs of a merge.
#[derive(Clone, Copy, Debug, PartialEq, Eq)]
pub enum Side {
    /// The input of the first operand.
    First = 1,
    /// The input of the second operand.
    Second = 2,
}

/// A range of bytes in a line.
#[derive(Clone, Copy, Debug, PartialEq, Eq)]
pub struct Span {
    /// The index of the first byte.
    pub start: usize,
    /// The index after the last byte.
    pub end: usize,
}

impl Span {
    /// Returns these bytes of `line`.
    #[inline(always)]
    pub fn of(self, line: &[u8]) -> &[u8]
        requires ordered { self.start ≤ self.end }
        requires within { self.end ≤ length line.now }
        ensures { result.now ≡ slice_range line.now self.start self.end }
    {
        &line[self.start..self.end]
    }
}

/// An order of lines by keys. Both inputs of a merge are sorted by it, least key first.
pub trait KeyOrder: Drop {
    /// The key of a line, for each input.
    ghost key_of: { Self → SideType → Key };

    /// The comparison of two keys.
    ghost order: { Self → Cmp };

    /// Returns the span of the key in a line.
    fn span(&self, side: Side, line: &[u8]) -> Span
        ensures { IsKeySpan line.now (key_of self.now side line.now) result };

    /// Returns the key of a line, given its span.
    fn key<'a>(&self, side: Side, span: Span, line: &'a [u8]) -> &'a [u8]
        requires { IsKeySpan line.now (key_of self.now side line.now) span }
        ensures { result.now ≡ key_of self.now side line.now };

    /// Compares two keys.
    fn cmp(&self, a: &[u8], b: &[u8]) -> Ordering
        ensures { result ≡ order self.now a.now b.now };

    /// The comparison is a total order.
    ghost total: { (s : Self) → IsTotalOrder (order s) };

    /// Two keys that compare as equal have the same bytes.
    ghost exact: { (s : Self) (a b : List ℕ) → order s a b ≡ Equal → a ≡ b };
}

/// The order of whole lines, for `comm`. Keys are compared byte by byte, and a proper prefix comes before the longer
/// key.
#[derive(Drop)]
pub struct WholeLine;

impl KeyOrder for WholeLine {
    ghost use Rattle.std.specs.Cmp.Lexicographic.{nat_list_cmp_total};
    ghost use Rattle.ptlines.specs.ByteOrder.{byte_cmp};
    ghost use Rattle.ptmerge.specs.Calls.Sides.{whole_line};
    ghost use Rattle.ptlines.specs.Private.ByteOrder.{byte_cmp_equal};

    ghost key_of = { λ s. whole_line };

    ghost order = { λ s. byte_cmp };

    #[inline(always)]
    fn span(&self, _side: Side, line: &[u8]) -> Span {
        Span {
            start: 0,
            end: line.len(),
        }
    }

    // Ignores the span, so that a merge by whole lines need not keep it.
    #[inline(always)]
    fn key<'a>(&self, _side: Side, _span: Span, line: &'a [u8]) -> &'a [u8] {
        line
    }

    #[inline(always)]
    fn cmp(&self, a: &[u8], b: &[u8]) -> Ordering {
        compare(a, b)
    }

    ghost total = { λ s. nat_list_cmp_total };

    ghost exact = { λ s. byte_cmp_equal };
}

/// The reverse of another order: the keys are unchanged, and the greatest comes first.
#[derive(Drop)]
pub struct Descending<K: KeyOrder> {
    /// The order to reverse.
    pub of: K,
}

impl<K: KeyOrder> KeyOrder for Descending<K> {
    ghost use Rattle.std.specs.Ordering.{flip_args};
    ghost use Rattle.std.proofs.lemmas.Cmp.{back_total};
    ghost use Rattle.ptmerge.specs.Private.OrderLaws.{reversed_same_bytes};

    ghost key_of = { λ s. K.key_of s.of };

    ghost order = { λ s. flip_args (K.order s.of) };

    #[inline(always)]
    fn span(&self, side: Side, line: &[u8]) -> Span {
        self.of.span(side, line)
    }

    #[inline(always)]
    fn key<'a>(&self, side: Side, span: Span, line: &'a [u8]) -> &'a [u8] {
        self.of.key(side, span, line)
    }

    #[inline(always)]
    fn cmp(&self, a: &[u8], b: &[u8]) -> Ordering {
        self.of.cmp(b, a)
    }

    ghost total = { λ s. back_total (K.total s.of) };

    ghost exact = { λ s. reversed_same_bytes (K.order s.of) (K.exact s.of) };
}
