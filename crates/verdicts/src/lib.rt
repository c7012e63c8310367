// What is said of the answers that the desk asks for, and that it is true, stands in specs/ and proofs/.
#![tactic(auto)]

// The files that an offset can be in.
#[derive(Clone, Copy)]
pub enum File {
    SiteFile,
    PlanFile,
}
