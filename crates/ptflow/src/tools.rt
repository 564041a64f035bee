//! The tools (`cut`, `paste`, `tr`, `uniq`), one module each. The module's own file has the engine, which the crate
//! re-exports.
pub(crate) mod cut;
pub(crate) mod paste;
pub(crate) mod tr;
pub(crate) mod uniq;
