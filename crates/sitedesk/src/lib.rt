// The desk's commands on range sheets and on flows, and the one that edits a site. Each kind of command is a module.
#![tactic(auto)]

pub mod flow;
pub mod set;
pub mod sheets;
