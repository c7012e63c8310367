// Finds a plan for a site by any way that is proved, or says by which way it is shown that there is none.
//
// What it costs: the greedy planner; where that finds no room, the heaviest set of cells that clash with one another; then the numbering, and the plan of the
// renumbered site in 2,048 words of local room; then the search, up to the limit.
#![tactic(auto)]

ghost use Rattle.std.specs.Prelude.{◌≡◌, ◌++◌, ◌*◌, ◌≤◌, length, drop, Ok};
ghost use Rattle.theory.specs.Net.{room};
ghost use Rattle.laws.specs.Bits.{bit_at};
ghost use Rattle.theory.specs.Full.{weight};
ghost use Rattle.theory.specs.Greedy.{greedy};
ghost use Rattle.site.specs.Record.{fault_of, positions};
ghost use Rattle.site.specs.Reach.{net_of};
ghost use Rattle.wordforms.specs.Words.{sends_at, bytes_of};
ghost use Rattle.renumbering.specs.Numbering.{numbering, index_at};
ghost use Rattle.numberrows.specs.Numbers.{NamesCells};
ghost use Rattle.finding.specs.Found.{over_full, found_anew, found_sought, found_numbered, found_else};
ghost use Rattle.finder.specs.Find.{finding_answer, GaveUp, finding_leaves, search_refused, find_answer, find_table, over_full_answer};
ghost use Rattle.finder.specs.declared.FindError.TheVariants.{Record};

use loads::loads_of_many;
use numbering::RenumberError;
use numberrows::{all_clash, cell_at};
use planner::PlanError;
use positions::open_count;
use search::SearchError;
use site::{Fault, Site};
use wordforms::lay_row;

// By which way `find` has found a plan: the greedy one, that of the renumbered site, or one by search, with its tries.
#[derive(Clone, Copy)]
pub enum Way {
    Greedy,
    Renumbered,
    Searched(u64),
}

// Why `find` gives no plan. None: these cells are over, the renumbered site has no room, or the search is exhausted, with its tries. Not known, with the tries
// made. 4, the table is short; or what is wrong with the record.
#[derive(Clone, Copy)]
pub enum FindError {
    Full(u32),
    FullInClass,
    FullSearched(u64),
    NotKnown(u64),
    TableShort,
    Record(Fault),
}

impl From<Fault> for FindError {
    ghost from_gives = { λ f e. e ≡ Record f };

    fn from(fault: Fault) -> FindError {
        FindError::Record(fault)
    }
}

impl From<SearchError> for FindError {
    ghost from_gives = { λ r e. e ≡ search_refused r };

    fn from(refused: SearchError) -> FindError {
        match refused {
            SearchError::Full(tries) => FindError::FullSearched(tries),
            SearchError::Limit(tries) => FindError::NotKnown(tries),
            SearchError::TooMany => FindError::NotKnown(0),
            SearchError::TableShort => FindError::TableShort,
            SearchError::Record(fault) => FindError::Record(fault),
        }
    }
}

// Whether a set of cells is over, with the load of those that the site has.
#[derive(Clone, Copy)]
pub enum OverFull {
    Over(usize),
    Within(usize),
}

// Writes the rows of a table in old numbers from words in new numbers: row i from the bit of its new number.
fn lay_back(table: &mut [u8], words: &[u32], new: [u16; 32], n: usize, cells: usize)
    requires { (cells ≤ 32) × (n ≤ length words.now) × (cells * n ≤ length table.old) × NamesCells cells new }
    ensures { table.new ≡ bytes_of cells n (λ i k. sends_at words.now (index_at new i) k) ++ drop (cells * n) table.old }
{
    for i in 0..cells {
        let from = i * n;
        let to = from + n;
        let a = cell_at(&new, i);
        lay_row(&mut table[from..to], words, a);
    }
}

// Plans the renumbered site, and carries the plan back.
#[tactic(auto, using(crate::proofs::Numbered::carried_back))]
fn plan_back(site: Site, moved: Site, new: [u16; 32], table: &mut [u8]) -> Result<Way, FindError>
    requires gave_up { GaveUp site table.old }
    requires moved_value { (fault_of moved ≡ Ok tt) × (moved.cells ≡ site.cells) × (positions moved ≡ positions site) × NamesCells site.cells new }
    ensures answer { result ≡ finding_answer 0 (found_anew new (greedy (net_of moved))) }
    ensures table { table.new ≡ finding_leaves site (found_anew new (greedy (net_of moved))) table.old }
{
    let mut words = [0u32; 2048];
    let Ok(()) = wordtable::plan_words(moved, &mut words) else {
        return Err(FindError::FullInClass);
    };
    let n = (site.slots as usize) * (site.channels as usize);
    lay_back(table, &words, new, n, site.cells as usize);
    Ok(Way::Renumbered)
}

// The search, where there is no numbering.
#[tactic(auto, using(crate::proofs::BySearch::by_the_search))]
fn find_sought(site: Site, limit: u64, table: &mut [u8]) -> Result<Way, FindError>
    requires { GaveUp site table.old }
    ensures answer { result ≡ finding_answer limit (found_sought (net_of site) limit) }
    ensures table { table.new ≡ finding_leaves site (found_sought (net_of site) limit) table.old }
{
    let tries = search::search(site, limit, table)?;
    Ok(Way::Searched(tries))
}

// The numbering, where no set of cells is over.
#[tactic(auto, using(crate::proofs::Numbered::by_numbers))]
fn find_numbered(site: Site, limit: u64, table: &mut [u8]) -> Result<Way, FindError>
    requires { GaveUp site table.old }
    ensures answer { result ≡ finding_answer limit (found_numbered (net_of site) limit (numbering 32 (net_of site).clash site.cells)) }
    ensures table { table.new ≡ finding_leaves site (found_numbered (net_of site) limit (numbering 32 (net_of site).clash site.cells)) table.old }
{
    let found = numbering::renumber(site);
    match found.answer {
        Ok(()) => plan_back(site, found.site, found.new, table),
        Err(RenumberError::NoNumbering) => find_sought(site, limit, table),
        Err(RenumberError::Record(fault)) => Err(FindError::Record(fault)),
    }
}

// How many positions of a site are open.
#[tactic(auto, using(planner::proofs::Answer::accepted_record))]
fn open_of(site: Site) -> usize
    requires { fault_of site ≡ Ok tt }
    ensures { result ≡ room (net_of site) }
{
    let n = (site.slots as usize) * (site.channels as usize);
    let blocked = site.blocked;
    open_count(&blocked, n)
}

// What is found where the greedy planner finds no room: the heaviest set is over, or the other ways say it.
#[tactic(auto, using(crate::proofs::Numbered::by_the_heaviest))]
fn find_else(site: Site, limit: u64, table: &mut [u8]) -> Result<Way, FindError>
    requires { GaveUp site table.old }
    ensures answer { result ≡ finding_answer limit (found_else (net_of site) limit) }
    ensures table { table.new ≡ finding_leaves site (found_else (net_of site) limit) table.old }
{
    let (load, cells) = heaviest::heaviest(site)?;
    let open = open_of(site);
    if open < load {
        return Err(FindError::Full(cells));
    }
    find_numbered(site, limit, table)
}

// A plan of a site by any proved way, in the lent table, or why there is none: the answer for any site, any limit and any table.
#[tactic(auto, using(crate::proofs::Ways::by_the_planner))]
pub fn find(site: Site, limit: u64, table: &mut [u8]) -> Result<Way, FindError>
    ensures answer { result ≡ find_answer site limit table.old }
    ensures table { table.new ≡ find_table site limit table.old }
{
    match planner::plan(site, table) {
        Ok(()) => Ok(Way::Greedy),
        Err(PlanError::TableShort) => Err(FindError::TableShort),
        Err(PlanError::NoRoom(_, _)) => find_else(site, limit, table),
        Err(PlanError::Record(fault)) => Err(FindError::Record(fault)),
    }
}

// The load of those of these cells that an accepted site has, with bit i for the cell at index i. The places of other cells hold 0.
#[tactic(auto, using(crate::proofs::Cells::load_is))]
fn load_in(site: Site, cells: u32) -> usize
    requires { fault_of site ≡ Ok tt }
    ensures { result ≡ weight (net_of site) (bit_at cells) }
{
    let loads = site.loads;
    loads_of_many(&loads, cells) as usize
}

// Whether these cells are an accepted site's, clash with one another, and have more load than there are open positions.
#[tactic(auto, using(crate::proofs::Cells::by_rows, planner::proofs::Answer::accepted_record))]
fn is_over(site: Site, cells: u32, load: usize) -> bool
    requires site_value { fault_of site ≡ Ok tt }
    requires load_value { load ≡ weight (net_of site) (bit_at cells) }
    ensures { result ≡ over_full (net_of site) cells }
{
    let count = site.cells as usize;
    if (cells as u64) >> count != 0 {
        return false;
    }
    let clash = site.clash_rows();
    if !all_clash(&clash, cells) {
        return false;
    }
    let open = open_of(site);
    open < load
}

// Whether a set of cells is over, and its load: where it is, no table of the site is valid.
#[tactic(auto, unfolding(crate::specs::Find::over_full_answer))]
pub fn over_full(site: Site, cells: u32) -> Result<OverFull, Fault>
    ensures { result ≡ over_full_answer site cells }
{
    site.accepted()?;
    let load = load_in(site, cells);
    if is_over(site, cells, load) {
        return Ok(OverFull::Over(load));
    }
    Ok(OverFull::Within(load))
}
