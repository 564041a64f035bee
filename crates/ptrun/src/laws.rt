//! Theorems on the definitions of a run, by which a reader can judge them. The functions do nothing.
ghost use Rattle.ptrun.specs.Laws.Decided.{OutputIsDecided};
ghost use Rattle.ptrun.specs.Laws.Silence.{SilentIfZero};

/// If no call of a run fails, its status is 0 if and only if it has no message, for all words and all inputs.
/// This function does nothing at run time. Its contract states the theorem.
pub fn silent_if_zero()
    ensures { SilentIfZero }
{}

/// The whole output is what is decided by inputs that were received to their ends; of `uniq` also the last run.
/// Before the end of standard input, `cut`, `tr` and `uniq` decide the output for complete lines, but for the last run of
/// `uniq`. This function does nothing at run time. Its contract states the theorem.
pub fn output_is_decided()
    ensures { OutputIsDecided }
{}
