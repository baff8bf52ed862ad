// The closing window, the sixteen start frames, and the earliest-deadline verdict.
#![tactic(auto)]

pub mod judge;
pub mod starts;
pub mod window;
