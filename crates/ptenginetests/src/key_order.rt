//! A test of `Merge` with a key order other than those of `comm` and `join`.

ghost use Rattle.std.specs.Prelude.{◌≡◌, None};

use ptfakes::ChunkedSource;
use ptlines::{LineReader, Store};
use ptmerge::{KeyOrder, Merge, Side, Span, Step};
use std::cmp::Ordering;
use std::process::Abort;
use std::test::Fail;

// The key is the line without its first byte, in byte order.
#[derive(Drop)]
struct SkipFirstByte;

impl KeyOrder for SkipFirstByte {
    ghost use Rattle.std.specs.Prelude.{drop};
    ghost use Rattle.std.specs.Cmp.Lexicographic.{nat_list_cmp_total};
    ghost use Rattle.ptlines.specs.Private.ByteOrder.{byte_cmp_equal};
    ghost use Rattle.ptlines.specs.ByteOrder.{byte_cmp};

    ghost key_of = { λ s side line. drop 1 line };

    ghost order = { λ s. byte_cmp };

    fn span(&self, _side: Side, line: &[u8]) -> Span {
        Span {
            start: line.len().min(1),
            end: line.len(),
        }
    }

    fn key<'a>(&self, _side: Side, span: Span, line: &'a [u8]) -> &'a [u8] {
        span.of(line)
    }

    fn cmp(&self, a: &[u8], b: &[u8]) -> Ordering {
        a.cmp(b)
    }

    ghost total = { λ s. nat_list_cmp_total };

    ghost exact = { λ s. byte_cmp_equal };
}

type Reader<'a> = LineReader<ChunkedSource<'a>, ChunkedSource<'a>>;

// Ends the test unless the lines of two inputs are merged in the order of `SkipFirstByte`.
fn check_order<'a>(
    rt: &impl Abort,
    first: &mut Reader<'a>,
    second: &mut Reader<'a>,
    store: &mut Store,
) -> Result<(), Fail>
    requires first { first.old.fault ≡ None }
    requires second { second.old.fault ≡ None }
{
    let mut merge = Merge::start(SkipFirstByte, first, second, store)?;
    assert!(rt; merge.step(store) == Step::First);
    assert!(rt; merge.head(Side::First, store) == b"xa".as_slice());
    merge.advance(Side::First, first, store)?;
    assert!(rt; merge.step(store) == Step::Second);
    assert!(rt; merge.head(Side::Second, store) == b"zb".as_slice());
    merge.advance(Side::Second, second, store)?;
    let Step::Both = merge.step(store) else {
        return Err("both".into());
    };
    assert!(rt; merge.head(Side::First, store) == b"yc".as_slice());
    assert!(rt; merge.head(Side::Second, store) == b"wc".as_slice());
    merge.advance(Side::First, first, store)?;
    merge.advance(Side::Second, second, store)?;
    assert!(rt; merge.step(store) == Step::End);
    Ok(())
}

#[test]
fn keys_without_the_first_byte(rt: HostRuntime) -> Result<(), Fail> {
    let mut first: Reader<'_> = LineReader::standard(ChunkedSource::new(b"xa\nyc\n", 2, u64::MAX));
    let mut second: Reader<'_> = LineReader::file(ChunkedSource::new(b"zb\nwc\n", 1, u64::MAX));
    let mut store = Store::empty(rt.alloc());
    check_order(&rt, &mut first, &mut second, &mut store)
}
