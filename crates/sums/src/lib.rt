// The cyclic sum of a task, the greatest over its starts, and the sums over all tasks: demand, work and margin.
// One walk serves demand and work: a `Sum` says by which condition a frame counts.
#![tactic(auto)]

pub mod asked;
pub mod cyclic;
pub mod margin;
pub mod peak;
pub mod total;
