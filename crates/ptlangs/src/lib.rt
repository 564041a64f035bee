//! The small languages in the options and operands of `cut`, `paste`, `uniq`, `comm`, `join` and `tr` (lists, numbers,
//! the strings of `tr`), and the jobs of the tools, which are their options as plain values. `ptopts` parses command
//! lines with these; `ptflow` and `ptmerge` run the jobs. Some functions do nothing: they state theorems about these.
#![tactic(auto)]

pub mod delims;
mod faults;
pub mod jobs;
mod lists;
pub mod numbers;
pub mod outlist;
pub mod ranges;
mod tr;

pub use faults::{SetFault, SetFaultKind, SetString};
pub use tr::{
    CharPlan, Form, Shifts, elements_match_grammar, strings_need_no_memory, tables_have_map,
    tables_match_plan,
};
