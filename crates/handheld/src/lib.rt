// One load changes on the handheld: the record is edited where it stands, and the table that is lent with it is planned anew from that cell on.
// It must be the greedy plan of the unedited site, which is tested in place: there is no second record and no second table.
// The local room beyond the copy of the record is that of crates `plantest` and `replan`, one after the other: a row and a mask, 4 kilobytes.
#![tactic(auto)]

ghost use Rattle.std.specs.Prelude.{◌≡◌};
ghost use Rattle.handheld.specs.Change.{error_of, change_of, change_answer, change_site, change_table, changed_of};
ghost use Rattle.handheld.specs.declared.ChangeError.TheVariants.{Record};

use planner::PlanError;
use site::{Fault, Site};

// Why a change is refused: 4, the table is short; 26, it is not the plan; 5, a cell's number and how many of its fragments found no room; or what is wrong with
// the record or the edit.
#[derive(Clone, Copy)]
pub enum ChangeError {
    TableShort,
    NotPlan,
    NoRoom(usize, usize),
    Record(Fault),
}

impl From<Fault> for ChangeError {
    ghost from_gives = { λ f e. e ≡ Record f };

    fn from(fault: Fault) -> ChangeError {
        ChangeError::Record(fault)
    }
}

impl From<PlanError> for ChangeError {
    ghost from_gives = { λ p e. e ≡ error_of p };

    fn from(error: PlanError) -> ChangeError {
        match error {
            PlanError::TableShort => ChangeError::TableShort,
            PlanError::NoRoom(cell, short) => ChangeError::NoRoom(cell, short),
            PlanError::Record(fault) => ChangeError::Record(fault),
        }
    }
}

// The record after a change, beside the answer. Where the change is refused with anything but 5, it is the record as it was.
#[derive(Clone, Copy)]
pub struct Changed {
    pub site: Site,
    pub answer: Result<(), ChangeError>,
}

// The planner's answer, given by this call.
fn as_change(answer: Result<(), PlanError>) -> Result<(), ChangeError>
    ensures { result ≡ change_of answer }
{
    answer?;
    Ok(())
}

// The change by value: the record that is handed back is edited, and the table is planned anew from the cell on.
#[tactic(auto, using(crate::proofs::Ways::of_change), unfolding(crate::specs::Change::in_order))]
pub fn changed_load(site: Site, cell: usize, load: u16, table: &mut [u8]) -> Changed
    ensures { (result ≡ changed_of site cell load table.old) × (table.new ≡ change_table site cell load table.old) }
{
    let edited = site.set_load(cell, load);
    if let Err(fault) = edited.answer {
        return Changed {
            site,
            answer: Err(ChangeError::from(fault)),
        };
    }
    let cells = site.cells as usize;
    let slots = site.slots as usize;
    let channels = site.channels as usize;
    let size = cells * (slots * channels);
    if table.len() < size {
        return Changed {
            site,
            answer: Err(ChangeError::TableShort),
        };
    }
    let loads = site.loads;
    let clash = site.clash_rows();
    let blocked = site.blocked;
    let new = edited.site;
    if !plantest::is_plan(table, cells, slots, channels, &loads, &clash, &blocked) {
        return Changed {
            site: site,
            answer: Err(ChangeError::NotPlan),
        };
    }
    let after = new.loads;
    let answer = replan::plan_from(
        table,
        cell - 1,
        cells,
        slots,
        channels,
        &after,
        &clash,
        &blocked,
    );
    Changed {
        site: new,
        answer: as_change(answer),
    }
}

// The same where the record stands.
pub fn change_load(
    site: &mut Site,
    cell: usize,
    load: u16,
    table: &mut [u8],
) -> Result<(), ChangeError>
    ensures { (result ≡ change_answer site.old cell load table.old)
        × (site.new ≡ change_site site.old cell load table.old)
        × (table.new ≡ change_table site.old cell load table.old) }
{
    let old = *site;
    let e = changed_load(old, cell, load, table);
    *site = e.site;
    e.answer
}
