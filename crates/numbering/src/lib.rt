// Finds a numbering of a site's cells with which the load test is exact whatever the loads, and carries tables in new numbers back.
//
// What it costs: at most 32 rounds over the clash rows (crate `numberrows`); the reach rows of many cells are moved a word at a time.
// A table is copied row by row, once.
#![tactic(auto)]

ghost use Rattle.std.specs.Prelude.{◌≡◌, ◌≤◌};
ghost use Rattle.numberrows.specs.Numbers.{NamesCells};
ghost use Rattle.numbering.specs.Renumber.{moved_site, site_numbers, renumber_of};
ghost use Rattle.numbering.specs.Carried.{carry_refused, carry_answer, carry_table};
ghost use Rattle.numbering.specs.declared.RenumberError.TheVariants.{Record};

use numberrows::{Numbers, carry_rows, moved_loads, moved_rows, number_cells};
use site::{Fault, Site};

// Why a site is not renumbered: 23, there is no such numbering; or what is wrong with the record.
#[derive(Clone, Copy)]
pub enum RenumberError {
    NoNumbering,
    Record(Fault),
}

impl From<Fault> for RenumberError {
    ghost from_gives = { λ f e. e ≡ Record f };

    fn from(fault: Fault) -> RenumberError {
        RenumberError::Record(fault)
    }
}

// Why a table is not carried: 23; 4, one of the tables is short; or what is wrong with the record.
#[derive(Clone, Copy)]
pub enum CarryError {
    NoNumbering,
    TableShort,
    Record(Fault),
}

impl From<RenumberError> for CarryError {
    ghost from_gives = { λ r e. e ≡ carry_refused r };

    fn from(refused: RenumberError) -> CarryError {
        match refused {
            RenumberError::NoNumbering => CarryError::NoNumbering,
            RenumberError::Record(fault) => CarryError::Record(fault),
        }
    }
}

// The site in new numbers; for each old number the new one and for each new number the old one, both from 1 and 0 past the cells; and the answer.
// Any refusal gives the site as it was given, and numbers all 0.
#[derive(Clone, Copy)]
pub struct Renumbered {
    pub site: Site,
    pub new: [u16; 32],
    pub old: [u16; 32],
    pub answer: Result<(), RenumberError>,
}

// The numbering of a site, by its clash rows; or why it has none.
#[tactic(auto, using(crate::proofs::Found::few_cells), unfolding(crate::specs::Renumber::numbering_of, crate::specs::Renumber::site_numbers))]
fn numbers_of(site: Site) -> Result<Numbers, RenumberError>
    ensures { result ≡ site_numbers site }
{
    site.accepted()?;
    let rows = site.clash_rows();
    number_cells(&rows, site.cells as usize).ok_or(RenumberError::NoNumbering)
}

// A site in new numbers: loads and reach go with the cells, and everything else of the record stays.
#[tactic(auto, unfolding(crate::specs::Renumber::moved_site))]
fn moved_site(mut site: Site, old: [u16; 32]) -> Site
    requires { (site.cells ≤ 32) × NamesCells site.cells old }
    ensures { result ≡ moved_site site old }
{
    let cells = site.cells as usize;
    let loads = site.loads;
    let reach = site.reach;
    site.loads = moved_loads(&loads, &old, cells);
    site.reach = moved_rows(&reach, &old, cells);
    site
}

// Renumbers all cells of a site, idle ones too, so that with every cell counted a cell's lower clashing cells clash with one another. Of all choices the last
// number goes to the highest old number whose clashing cells all clash with one another, then the same for those left.
#[tactic(auto, using(crate::proofs::Found::old_found), unfolding(crate::specs::Renumber::renumber_of))]
pub fn renumber(site: Site) -> Renumbered
    ensures { result ≡ renumber_of site }
{
    match numbers_of(site) {
        Ok(numbers) => {
            let new = numbers.new;
            let old = numbers.old;
            let moved = moved_site(site, old);
            Renumbered {
                site: moved,
                new,
                old,
                answer: Ok(()),
            }
        }
        Err(refused) => Renumbered {
            site,
            new: [0; 32],
            old: [0; 32],
            answer: Err(refused),
        },
    }
}

// Carries the rows of a table for the renumbered site, byte for byte, into a table in old numbers. The numbering is worked out anew from the old site.
#[tactic(auto, using(crate::proofs::Found::new_found), unfolding(crate::specs::Carried::carry_answer, crate::specs::Carried::carry_table))]
pub fn carry(site: Site, from: &[u8], to: &mut [u8]) -> Result<(), CarryError>
    ensures answer { result ≡ carry_answer site from.now to.old }
    ensures table { to.new ≡ carry_table site from.now to.old }
{
    let numbers = numbers_of(site)?;
    let cells = site.cells as usize;
    let n = (site.slots as usize) * (site.channels as usize);
    let size = cells * n;
    if from.len() < size {
        return Err(CarryError::TableShort);
    }
    if to.len() < size {
        return Err(CarryError::TableShort);
    }
    let new = numbers.new;
    carry_rows(from, to, &new, cells, n);
    Ok(())
}
