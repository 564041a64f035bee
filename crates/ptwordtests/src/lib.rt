//! Tests of `ptlangs` and `ptopts`: lists, the strings of `tr`, and whole command lines.
#![tactic(auto)]

#[cfg(test)]
mod asserts;
#[cfg(test)]
mod expected;
#[cfg(test)]
mod failed_growths;
#[cfg(test)]
mod jobs;
#[cfg(test)]
mod join_words;
#[cfg(test)]
mod lists;
#[cfg(test)]
mod strings;
#[cfg(test)]
mod tr_words;
#[cfg(test)]
mod words;
