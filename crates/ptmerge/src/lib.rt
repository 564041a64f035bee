//! The engines of `comm` and `join`: a merge of two sorted inputs by the keys of their lines.
//!
//! - `merging` is the merge itself, which reads both inputs and selects the least key.
//! - `key_order` has what an order of lines is, and that of `comm`.
//! - `tools` has a module for each tool, with its engine and its private functions, and the order of `join`.
//! - `faults` has the faults that both return.
//! - `laws` states how both tools may be run on parts of their inputs, and laws of their output.
#![tactic(auto)]

mod faults;
mod key_order;
mod laws;
mod merging;
mod tools;

pub use faults::MergeFault;
pub use key_order::{Descending, KeyOrder, Side, Span, WholeLine};
pub use laws::{
    comm_by_key, comm_is_merge, comm_of_itself, comm_of_sorted, comm_shares_first, comm_swapped,
    join_by_key, join_counts, join_is_merge, join_of_sorted, parts_of_comm, parts_of_join,
};
pub use merging::{Merge, Step};
pub use tools::comm::comm;
pub use tools::join::join;
