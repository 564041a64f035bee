//! Sources, sinks, an allocator and texts for the test crates. The program uses none of them.
#![tactic(auto)]

mod array_sink;
mod call_limit;
mod chunked_source;
mod counted_source;
mod failing_alloc;
mod repeated_byte;
pub mod texts;
mod vec_sink;

pub use array_sink::ArraySink;
pub use chunked_source::ChunkedSource;
pub use counted_source::CountedSource;
pub use failing_alloc::FailingAlloc;
pub use repeated_byte::RepeatedByte;
pub use vec_sink::VecSink;
