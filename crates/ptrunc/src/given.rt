//! The files of a call as C gives them: whether their ends are in order, and how their bytes are split there. Used by
//! `lib`.

ghost use Rattle.std.specs.Prelude.{◌≡◌, IfOk, length, true};
ghost use Rattle.ptrunc.specs.Calls.Given.{are_ascending, cut_at};
ghost use Rattle.ptrunc.specs.Inputs.{files_view};

use std::alloc::{AllocError, Allocator};

// The end of a file that cannot be opened.
const NO_FILE: usize = usize::MAX;

/// Returns whether these can be the ends of files that lie one after another in `size` bytes.
pub fn are_ends(ends: &[usize], size: usize) -> bool
    ensures { result ≡ are_ascending 0 ends.now size }
{
    let mut begin = 0;
    for end in ends {
        if *end == NO_FILE {
            continue;
        }
        if *end < begin || *end > size {
            return false;
        }
        begin = *end;
    }
    true
}

/// Splits files that lie one after another and have these ends, which must be in order.
pub fn files_of<'a, A: Allocator + Copy>(
    alloc: A,
    bytes: &'a [u8],
    ends: &[usize],
) -> Result<Vec<Option<&'a [u8]>, A>, AllocError>
    requires { are_ascending 0 ends.now (length bytes.now) ≡ true }
    ensures { IfOk result (λ files. files_view files.items ≡ cut_at 0 ends.now bytes.now) }
{
    let mut files = Vec::new(alloc);
    let mut begin = 0;
    for end in ends {
        if *end == NO_FILE {
            files.push(None)?;
        } else {
            files.push(Some(&bytes[begin..*end]))?;
            begin = *end;
        }
    }
    Ok(files)
}
