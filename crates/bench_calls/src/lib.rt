//! What the benchmarks in C and Rust call: a few functions of the layers, in a file for each benchmark. `rt lib`
//! makes one static library of them, `out/libbench_calls.a`.
#![tactic(auto)]

mod answers;
mod decisions;
mod projections;
mod refutations;
mod sums;
mod tables;
mod trees;
mod vertices;
