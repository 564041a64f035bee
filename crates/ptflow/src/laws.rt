//! Laws of inputs that are cut into parts: when the output for the whole is the outputs for the parts, one after
//! another. Callers that work in parallel rely on them; the functions do nothing. After them laws of the output for a
//! whole input, by which a reader can judge the definitions.
ghost use Rattle.ptflow.specs.Laws.Outputs.{CutOfAll, CutAfterPaste, CountsAddUp, RepeatedOrSingle, UniqTwice};
ghost use Rattle.ptflow.specs.Laws.Outputs.{TranslationKeepsLength, DeletedOrKept, PasteOfDifferent};
ghost use Rattle.ptflow.specs.Laws.Parts.{CutOfParts, TrOfAnyParts, TrOfParts, TrAfterByte, TrMeetsTwice, UniqOfParts};
ghost use Rattle.ptflow.specs.Laws.Parts.{UniqByKey, PasteOfParts};

/// `cut` can be run on parts of a file, by bytes and by fields, if each part but the last ends with the line
/// terminator: the output for the file is the outputs for the parts, in order.
/// This function does nothing at run time. Its contract states the law.
#[tactic(auto, using(crate::proofs::CutLemmas::Fields::cut_of_parts))]
pub fn parts_of_cut()
    ensures { CutOfParts }
{}

/// `tr` can be run on parts of a file, cut anywhere, if it squeezes nothing. With `-s` the output for a part must not
/// end with a squeezed byte with which the output for the next part begins: it would be written twice.
/// A file can be cut after any byte that is not deleted and whose image is not squeezed, which in most commands is the
/// case for a newline. If a squeezed byte is at both sides of a cut, drop one of the two.
/// This function does nothing at run time. Its contract states the law.
#[tactic(auto, using(crate::proofs::TrLemmas::TrFrom::tr_laws))]
pub fn parts_of_tr()
    ensures any { TrOfAnyParts }
    ensures apart { TrOfParts }
    ensures after_byte { TrAfterByte }
    ensures meeting { TrMeetsTwice }
{}

/// `uniq` can be run on parts of a file, with each of its options, if each part but the last ends with the line
/// terminator, and its last line has a different key than the first line of the next part, so that no run of lines
/// spans two parts.
/// This function does nothing at run time. Its contract states the law.
#[tactic(auto, using(crate::proofs::UniqLemmas::Runs::uniq_of_parts))]
pub fn parts_of_uniq()
    ensures { UniqOfParts }
{}

/// If lines with equal keys are adjacent, as in a sorted file, the lines can be distributed by their keys, each part in
/// the order of the file: the output of `uniq` for the lines with some keys is its output for the runs with these keys.
/// So the parts together have the output for the file, and each of them has its share in order.
/// This function does nothing at run time. Its contract states the law.
#[tactic(auto, using(crate::proofs::UniqLemmas::Runs::uniq_by_key))]
pub fn uniq_by_key()
    ensures { UniqByKey }
{}

/// `paste` without `-s` can be run on parts of its files if all are cut after the same row. If a file is named by `n`
/// operands, its first part has `n` lines per row and ends with the line terminator; or the file ends earlier, and its
/// second part is empty.
/// There is no such law for `-s`, which joins a whole file into one row.
/// This function does nothing at run time. Its contract states the law.
pub fn parts_of_paste()
    ensures { PasteOfParts }
{}

/// If no input is named twice, each row that `paste` writes without `-s` has the line of each input with its number.
/// This function does nothing at run time. Its contract states the law.
pub fn paste_of_different()
    ensures { PasteOfDifferent }
{}

/// If all bytes of a line or all its fields are selected, as by `cut -b 1-` and `cut -f 1-`, the lines are written as
/// they are.
/// This function does nothing at run time. Its contract states the law.
pub fn cut_of_all()
    ensures { CutOfAll }
{}

/// `cut -f` takes a column out of the rows that `paste` writes with the same delimiter, if no field contains it.
/// This function does nothing at run time. Its contract states the law.
pub fn cut_after_paste()
    ensures { CutAfterPaste }
{}

/// The counts that `uniq -c` writes add up to the number of lines.
/// This function does nothing at run time. Its contract states the law.
pub fn counts_add_up()
    ensures { CountsAddUp }
{}

/// Each line that `uniq` writes is written by exactly one of `uniq -d` and `uniq -u`.
/// This function does nothing at run time. Its contract states the law.
pub fn repeated_or_single()
    ensures { RepeatedOrSingle }
{}

/// `uniq` leaves its own output as it is, with `-f` and `-s` too.
/// This function does nothing at run time. Its contract states the law.
pub fn uniq_twice()
    ensures { UniqTwice }
{}

/// `tr` with two strings, and without `-d` and `-s`, keeps the number of bytes.
/// This function does nothing at run time. Its contract states the law.
pub fn translation_keeps_length()
    ensures { TranslationKeepsLength }
{}

/// `tr -d` and `tr -cd` share out the bytes: each byte is kept by exactly one of them, in its order.
/// This function does nothing at run time. Its contract states the law.
pub fn deleted_or_kept()
    ensures { DeletedOrKept }
{}
