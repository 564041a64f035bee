//! Tests of the engines of `ptflow`, of `comm` and `join`, and of a merge in another order, over in-memory inputs and
//! outputs; and worked examples of their specifications, as proofs.
#![tactic(auto)]

#[cfg(test)]
mod asserts;
#[cfg(test)]
mod comm;
#[cfg(test)]
mod cut;
#[cfg(test)]
mod failures;
#[cfg(test)]
mod join;
#[cfg(test)]
mod join_blanks;
#[cfg(test)]
mod key_order;
#[cfg(test)]
mod one_input;
#[cfg(test)]
mod paste;
#[cfg(test)]
mod tr;
#[cfg(test)]
mod two_inputs;
#[cfg(test)]
mod uniq;
