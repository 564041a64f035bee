//! The strings of `tr`, from their characters to what is done to each byte (POSIX.1-2017, XCU, `tr`, "EXTENDED
//! DESCRIPTION"). A string has characters, these form elements, and each element gives a segment of the string's array
//! of bytes. No array is kept in memory. Callers use [`CharPlan`] and [`Shifts`].

mod bytes;
mod chars;
mod classes;
mod contents;
mod elements;
mod images;
mod plan;
mod segments;
mod shifts;

pub use elements::elements_match_grammar;
pub use plan::{CharPlan, Form, strings_need_no_memory, tables_have_map, tables_match_plan};
pub use shifts::Shifts;
