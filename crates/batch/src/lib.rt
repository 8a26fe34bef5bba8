// The batch as a stream of lines that is fed in pieces. Each call takes any slices and says all of its result, and writes nothing where
// it refuses. Its meaning is defined in specs/: Batch, Stream; what a call answers and writes in Feed.
#![tactic(auto)]

pub mod stream;
