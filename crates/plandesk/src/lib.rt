// The desk's commands that make a plan, look for one, check it and change it. Each kind of command is a module.
#![tactic(auto)]

pub mod find;
pub mod number;
pub mod plan;
pub mod room;
pub mod searching;
