// Limpidorsa's public floor: every question of the desk, for a caller in Rattle, in C or in Rust. Byte slices and
// numbers go in, one flat struct comes out. crates/desk/src has the functions with their contracts, which the checker
// proves; limpidorsa.h for C, with these comments, and raw.rs for Rust are written from there. Behind them stands the
// static library libdesk.a (x86-64 Linux), which `./archive` writes from crates/desk_c to target/staticlib.
//
// A table is records of 8 bytes: task number, kind, then E, D and P, each 16 bits, low byte first. A list is records of
// 8 bytes: task, frame, two zero bytes, then the arrival, 32 bits, low byte first. docs/01-scope.md has the rules.
//
// Any bytes may be handed in, and any numbers. Each call answers, or refuses with one number of document 01's table.
// Every answer to a question opens with its refusal. Where the refusal's number is not 0, every other field is zero; so
// is every field that an answer has no use for.
//
// Of a caller in C is asked: a slice is a pointer, which must not be NULL even where the length is 0, and as many bytes
// as its length says; and the buffer of limpidorsa_overload must overlap nothing that this or another call is lent at
// that time. Only that buffer is written to, and nothing is kept after a call. Compare an answer's fields, and not its
// bytes: what lies between two fields may be anything. Functions and answers share their names; in C++ too an answer's
// type is written with `struct` before it.
//
// How long an answer takes is not promised: a verdict walks t by t and frame by frame, and takes seconds where P is
// very short and no window closes early, with many such frames minutes. An overload list and its size take as long, for
// they begin with the verdict.
#![tactic(auto)]

pub mod limits;
// What is answered.
pub mod answers;
mod flat;
mod flat_bench;
mod flat_verdict;
// The questions about a table: what it is, demand, work and margin,
pub mod amounts;
// its closing window and its verdict,
pub mod verdicts;
// and the response of its frames.
pub mod responses;
// The overload list, which is written into a buffer.
pub mod writer;
// Request lists that are handed in, and the bench that a caller ticks.
pub mod lists;
pub mod ticks;
