// What comes with a site or a plan as a C caller gets it: the record that was read or edited, and beside it the answer as crate `told` gives it.
#![tactic(auto)]

ghost use Rattle.std.specs.Prelude.{◌≡◌};
ghost use Rattle.toldfiles.specs.Files.{told_edited, told_changed, told_site_read, told_plan_read, told_sheet_read};

use handheld::Changed;
use planfile::PlanRead;
use sheet::SheetRead;
use site::{Edited, Site};
use sitefile::SiteRead;
use told::Answer;

// dugg_blocked: a set of blocked positions, position k in bit k % 64 of word k / 64.
#[repr(C)]
#[derive(Clone, Copy)]
pub struct Blocked {
    pub bits: [u64; 32],
}

// dugg_edited: a site and the answer beside it.
#[repr(C)]
#[derive(Clone, Copy)]
pub struct EditedSite {
    pub site: Site,
    pub answer: Answer,
}

// dugg_plan_read: what a plan file says of its site, and the answer.
#[repr(C)]
#[derive(Clone, Copy)]
pub struct PlanReadC {
    pub cells: u16,
    pub slots: u16,
    pub channels: u16,
    pub answer: Answer,
}

// The four conversions to it only look alike: each reads a type of another crate, and has a law of its own, which crate `contracts` states.
impl From<Edited> for EditedSite {
    ghost from_gives = { λ e a. a ≡ told_edited e };

    #[tactic(auto, unfolding(crate::specs::Files::told_edited))]
    fn from(e: Edited) -> EditedSite {
        EditedSite {
            site: e.site,
            answer: Answer::from(e.answer),
        }
    }
}

impl From<Changed> for EditedSite {
    ghost from_gives = { λ e a. a ≡ told_changed e };

    #[tactic(auto, unfolding(crate::specs::Files::told_changed))]
    fn from(e: Changed) -> EditedSite {
        EditedSite {
            site: e.site,
            answer: Answer::from(e.answer),
        }
    }
}

impl From<SiteRead> for EditedSite {
    ghost from_gives = { λ e a. a ≡ told_site_read e };

    #[tactic(auto, unfolding(crate::specs::Files::told_site_read))]
    fn from(e: SiteRead) -> EditedSite {
        EditedSite {
            site: e.site,
            answer: Answer::from(e.answer),
        }
    }
}

impl From<SheetRead> for EditedSite {
    ghost from_gives = { λ e a. a ≡ told_sheet_read e };

    #[tactic(auto, unfolding(crate::specs::Files::told_sheet_read))]
    fn from(e: SheetRead) -> EditedSite {
        EditedSite {
            site: e.site,
            answer: Answer::from(e.answer),
        }
    }
}

impl From<PlanRead> for PlanReadC {
    ghost from_gives = { λ e a. a ≡ told_plan_read e };

    #[tactic(auto, unfolding(crate::specs::Files::told_plan_read))]
    fn from(e: PlanRead) -> PlanReadC {
        PlanReadC {
            cells: e.cells,
            slots: e.slots,
            channels: e.channels,
            answer: Answer::from(e.answer),
        }
    }
}
