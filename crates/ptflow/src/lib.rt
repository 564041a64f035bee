//! The engines: the functions that run `cut`, `paste`, `tr` and `uniq` on readers, and write to an output. `ptrun`
//! calls them.
//!
//! - `tools` has a module for each tool: its engine, and the code that only this tool needs.
//! - `simd` has the vector code. It uses no reader and no output.
//! - `block_loop` is the loop of the tools that work block by block, and `line_loop` that of the tools that work line
//!   by line. `start` begins a call over one input of lines, and `slots` adds the missing slots of a store.
//! - `laws` states which tools can be run on parts of their input, and laws of their output.
#![tactic(auto)]

mod block_loop;
mod faults;
mod laws;
mod line_loop;
mod simd;
mod slots;
mod start;
mod tools;

pub use faults::FlowFault;
pub use laws::{
    counts_add_up, cut_after_paste, cut_of_all, deleted_or_kept, parts_of_cut, parts_of_paste,
    parts_of_tr, parts_of_uniq, paste_of_different, repeated_or_single, translation_keeps_length,
    uniq_by_key, uniq_twice,
};
pub use simd::shift::translate;
pub use tools::cut::cut;
pub use tools::paste::paste;
pub use tools::paste::serial::paste_serial;
pub use tools::tr::tr;
pub use tools::uniq::uniq;
