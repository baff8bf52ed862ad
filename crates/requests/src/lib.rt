// The bytes of a request list: its records, and the rules 10 and 11.
#![tactic(auto)]

pub mod entry;
pub mod list_reader;
pub mod list_rules;
