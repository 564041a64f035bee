//! Laws of `comm` and `join`, each the contract of a function that does nothing. By some a caller can run both tools
//! on parts of the inputs, one after another or in parallel. The others are of their output for whole inputs, by which
//! a reader can judge the definitions, and of the merge that their contracts name.

ghost use Rattle.ptmerge.specs.Laws.Outputs.{CommIsMerge, CommOfItself, CommOfSorted, CommSharesFirst, CommSwapped};
ghost use Rattle.ptmerge.specs.Laws.Outputs.{JoinCounts, JoinIsMerge, JoinOfSorted};
ghost use Rattle.ptmerge.specs.Laws.Parts.{CommOfParts, JoinOfParts, CommByKey, JoinByKey};

/// States that the output of `comm` is the output for a first part of each file followed by the output for the rest of
/// each file, if both files are split at the same key: each first part is empty or ends with a line terminator, the
/// first parts are in order, and each of their lines is less than each line of the rest. The law covers both orders and
/// all choices of columns. Splitting the rest again gives any number of parts, of which only the last may be out of
/// order.
/// The call does nothing at run time; its contract states the law.
#[tactic(auto, using(crate::proofs::Parts::comm_of_parts))]
pub fn parts_of_comm()
    ensures { CommOfParts }
{}

/// States that the output of `join` is the output for a first part of each file followed by the output for the rest of
/// each file, if both files are split at the same key: each first part is empty or ends with a line terminator, the
/// first parts are in order, and each of their join fields is less than each join field of the rest. The law covers
/// both orders and all options. Splitting the rest again gives any number of parts, of which only the last may be out
/// of order.
/// The call does nothing at run time; its contract states the law.
#[tactic(auto, using(crate::proofs::Parts::join_of_parts))]
pub fn parts_of_join()
    ensures { JoinOfParts }
{}

/// States that two sorted files may be distributed over parts: if equal lines go to the same part and each part keeps
/// the order of its lines, the outputs of `comm` for the parts together have the lines of the output for the files, in
/// some order.
/// The call does nothing at run time; its contract states the law.
pub fn comm_by_key()
    ensures { CommByKey }
{}

/// States that two sorted files may be distributed over parts: if lines with equal join fields go to the same part and
/// each part keeps the order of its lines, the outputs of `join` for the parts together have the lines of the output
/// for the files, in some order. The law covers all options, including `-a` and `-v`.
/// The call does nothing at run time; its contract states the law.
pub fn join_by_key()
    ensures { JoinByKey }
{}

/// States that `comm` of sorted lines and themselves writes each of them in the third column, and nothing else.
/// The call does nothing at run time; its contract states the law.
pub fn comm_of_itself()
    ensures { CommOfItself }
{}

/// States that the columns 1 and 3 of `comm` together have the lines of the first input: `comm -23` and `comm -12` of
/// sorted inputs write each line together as often as it is there.
/// The call does nothing at run time; its contract states the law.
pub fn comm_shares_first()
    ensures { CommSharesFirst }
{}

/// States that `comm -13` of two inputs is `comm -23` of them in the other order, also if they are out of order.
/// The call does nothing at run time; its contract states the law.
pub fn comm_swapped()
    ensures { CommSwapped }
{}

/// States that `join` of sorted inputs, without `-a` and `-v`, writes as many lines as there are pairs of lines with
/// equal join fields.
/// The call does nothing at run time; its contract states the law.
pub fn join_counts()
    ensures { JoinCounts }
{}

/// States the output of `comm` for two sorted texts: for each distinct line of both, in order, its columns, by how
/// often each text has the line.
/// The call does nothing at run time; its contract states the law.
pub fn comm_of_sorted()
    ensures { CommOfSorted }
{}

/// States the output of `join` for two sorted texts: for each distinct join field of both, in order, the output lines
/// for the lines that have it.
/// The call does nothing at run time; its contract states the law.
pub fn join_of_sorted()
    ensures { JoinOfSorted }
{}

/// States that the contract of `comm`, which names a merge by whole lines, is about the output of `comm`.
/// The call does nothing at run time; its contract states the law.
pub fn comm_is_merge()
    ensures { CommIsMerge }
{}

/// States that the contract of `join`, which names a merge by join fields, is about the output of `join`.
/// The call does nothing at run time; its contract states the law.
pub fn join_is_merge()
    ensures { JoinIsMerge }
{}
