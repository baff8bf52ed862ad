// The response of a frame under fixed priorities: the recurrence with its counted rounds, and the share that the higher
// tasks take.
#![tactic(auto)]

pub mod rounds;
pub mod share;
