// The overload list as bytes: how many requests of each task, the lists of the tasks woven into one, and the writer.
#![tactic(auto)]

mod count;
mod lanes;
pub mod overload;
mod put;
mod write;
