//! Tests of `ptlines` (lines, readers, outputs, the store and the byte kernels) and of the sources and sinks of
//! `ptfakes`.
#![tactic(auto)]

#[cfg(test)]
mod asserts;
#[cfg(test)]
mod fake_cases;
#[cfg(test)]
mod kernel_cases;
#[cfg(test)]
mod out_cases;
#[cfg(test)]
mod push_line_cases;
#[cfg(test)]
mod reader_cases;
#[cfg(test)]
mod reader_steps;
#[cfg(test)]
mod reader_texts;
#[cfg(test)]
mod std_io_cases;
#[cfg(test)]
mod store_cases;
