//! What the tasks of a replay text do: its controller, its idle task, and each task beside the one of the normal form. Two programs
//! that are equal but for places and the ids of names run alike (`same`).
#![tactic(auto)]

pub mod controls;
pub mod found;
pub mod same;
pub mod script;
pub mod starts;
pub mod translation;
