// The bytes of a table: its records, the rules of it, the refusals by name, where each task stands, and the first
// record with D above its P.
#![tactic(auto)]

pub mod deadlines;
pub mod fault;
pub mod frames;
pub mod kind;
pub mod place;
pub mod plan;
pub mod reader;
pub mod record;
pub mod rules;
pub mod task_run;
pub mod task_table;
pub mod tasks;
