//! The two tools, a module each, whose public function is the engine that the crate exports.
pub(crate) mod comm;
pub(crate) mod join;
