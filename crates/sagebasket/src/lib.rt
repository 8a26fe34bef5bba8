// The outside: the calls that C programs and the browser make, by the C calling convention. Each is a thin layer over a call of the crates
// below; it takes any text, octets, state and edition, and says all of its answer and every entry of the memory that is lent to it. Its
// meaning is defined in specs/Outside; that any steps and looks show what the nightly rules say of all that was typed is proofs/Nightly.
// Only numbers, slices of numbers and arrays of a fixed length behind a reference cross: on these the C rules of x86-64, Arm and wasm32
// agree, and a buffer that is too short (1) cannot be lent.
#![tactic(auto)]

pub mod coding;
pub mod naming;
mod numbers;
pub mod octets;
mod telling;
pub mod typing;
