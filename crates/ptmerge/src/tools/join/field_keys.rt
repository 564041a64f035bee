//! `FieldKeys`, the order of lines by their join fields, in which `join` merges its inputs.

use crate::key_order::{KeyOrder, Side, Span};
use crate::tools::join::fields::field_span;
use ptlines::compare;
use std::cmp::Ordering;

// The key of a line of the first input is its field number `first`, counted from 1, and of one of the second input its
// field number `second`. Keys are compared byte by byte.
#[derive(Drop)]
pub(crate) struct FieldKeys {
    pub separator: Option<u8>,
    pub first: u64,
    pub second: u64,
}

impl KeyOrder for FieldKeys {
    ghost use Rattle.std.specs.Cmp.Lexicographic.{nat_list_cmp_total};
    ghost use Rattle.ptmerge.specs.Calls.Join.{field_keys};
    ghost use Rattle.ptlines.specs.ByteOrder.{byte_cmp};
    ghost use Rattle.ptlines.specs.Private.ByteOrder.{byte_cmp_equal};

    ghost key_of = { λ s. field_keys s.separator s.first s.second };

    ghost order = { λ s. byte_cmp };

    #[inline(always)]
    fn span(&self, side: Side, line: &[u8]) -> Span {
        let number = match side {
            Side::First => self.first,
            Side::Second => self.second,
        };
        field_span(self.separator, number, line)
    }

    #[inline(always)]
    fn key<'a>(&self, _side: Side, span: Span, line: &'a [u8]) -> &'a [u8] {
        span.of(line)
    }

    #[inline(always)]
    fn cmp(&self, a: &[u8], b: &[u8]) -> Ordering {
        compare(a, b)
    }

    ghost total = { λ s. nat_list_cmp_total };

    ghost exact = { λ s. byte_cmp_equal };
}
