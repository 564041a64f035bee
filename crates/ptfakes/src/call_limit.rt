//! `CallLimit`, which counts calls and decides which of them succeed. Used by the sources and sinks of this crate.

ghost use Rattle.std.specs.Prelude.{◌≡◌, ◌<◌, ◌↔◌, IsTrue};
ghost use Rattle.ptfakes.specs.Calls.{count_after};

// Counts calls. The first `ok_calls` of them succeed, and every later one fails.
#[derive(Drop)]
pub struct CallLimit {
    pub made: u64,
    pub ok_calls: u64,
}

impl CallLimit {
    // Starts before the first call.
    pub fn new(ok_calls: u64) -> Self
        ensures { result ≡ record { made = 0; ok_calls = ok_calls } }
    {
        CallLimit { made: 0, ok_calls }
    }

    // Counts a call, and returns whether it succeeds.
    pub fn next_succeeds(&mut self) -> bool
        ensures counted { self.new ≡ record self.old { made = count_after self.old.made } }
        ensures next_succeeds { IsTrue result ↔ (self.old.made < self.old.ok_calls) }
    {
        let next_succeeds = self.made < self.ok_calls;
        self.made = self.made.saturating_add(1);
        next_succeeds
    }
}
