// The desk's commands that show, list and draw what is in a site and its plan, and the parts of a report. Each kind of command is a module.
#![tactic(auto)]

pub mod list;
pub mod picture;
pub mod report;
pub mod show;
