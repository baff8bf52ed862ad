// Bytes written into a lent buffer from a place that the caller names: whether there is room.
#![tactic(auto)]

pub mod room;
