//! Tests of whole runs, over sources and sinks of `ptfakes`: of each tool, of the memory of a run, of calls that
//! fail, and of arguments that are no command.
#![tactic(auto)]

#[cfg(test)]
mod asserts;
#[cfg(test)]
mod comm;
#[cfg(test)]
mod constant_memory;
#[cfg(test)]
mod cut_bytes;
#[cfg(test)]
mod cut_fields;
#[cfg(test)]
mod failing_calls;
#[cfg(test)]
mod harness;
#[cfg(test)]
mod join;
#[cfg(test)]
mod paste;
#[cfg(test)]
mod peak_memory;
#[cfg(test)]
mod reads_after_failure;
#[cfg(test)]
mod std_failures;
#[cfg(test)]
mod tr;
#[cfg(test)]
mod uniq;
#[cfg(test)]
mod usage_errors;
