// The replay bench: earliest deadline first, tick by tick.
#![tactic(auto)]

pub mod load;
mod next;
pub mod replay;
mod scan;
pub mod state;
mod tick;
