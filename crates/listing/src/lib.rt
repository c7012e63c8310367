// The lines of the listing: the four of its head, by the answers that they tell, and that of a planned cell.
#![tactic(auto)]

ghost use Rattle.std.specs.Prelude.{◌≡◌, ◌+◌, ◌*◌, ◌≤◌, ◌<◌, length};
ghost use Rattle.theory.specs.Greedy.{row_at};
ghost use Rattle.phrases.specs.Put.{Put};
ghost use Rattle.say_listing.specs.Lines.{cell_listed};
ghost use Rattle.listing.specs.Answers.{site_line, chain_line, load_line, plan_line, row_count, head_with};

use judges::{ChainVerdict, LoadVerdict};
use phrases::Phrase;
use planner::PlanError;
use say_listing::{
    CHAIN_NO, CHAIN_YES, LOAD_HOLDS, LOAD_OVER, PLAN_DONE, PLAN_SHORT, SITE, put_line,
};
use site::{Fault, Site};

// The line of the site.
fn site_line(site: Site) -> Phrase
    ensures { result ≡ site_line site }
{
    let cells = site.cells as usize;
    let slots = site.slots as usize;
    let channels = site.channels as usize;
    Phrase::Row(SITE, cells, slots, channels, 0)
}

// The line of the chain judge. A refusal has none: a site that was read is never refused. No twin of `chain_phrase` in `whyrows`: the rows of another table.
fn chain_line(answer: Result<ChainVerdict, Fault>) -> Phrase
    ensures { result ≡ chain_line answer }
{
    match answer {
        Ok(ChainVerdict::Chained) => Phrase::Row(CHAIN_YES, 0, 0, 0, 0),
        Ok(ChainVerdict::Broken(a, b, c)) => Phrase::Row(CHAIN_NO, a, b, c, 0),
        Err(_) => Phrase::Silent,
    }
}

// The line of the load test.
fn load_line(answer: Result<LoadVerdict, Fault>) -> Phrase
    ensures { result ≡ load_line answer }
{
    match answer {
        Ok(LoadVerdict::Holds) => Phrase::Row(LOAD_HOLDS, 0, 0, 0, 0),
        Ok(LoadVerdict::Over(cell, excess)) => Phrase::Row(LOAD_OVER, cell, excess, 0, 0),
        Err(_) => Phrase::Silent,
    }
}

// The line of the planner. A table of 65,536 bytes is never short.
fn plan_line(answer: Result<(), PlanError>) -> Phrase
    ensures { result ≡ plan_line answer }
{
    match answer {
        Ok(()) => Phrase::Row(PLAN_DONE, 0, 0, 0, 0),
        Err(PlanError::NoRoom(cell, short)) => Phrase::Row(PLAN_SHORT, cell, short, 0, 0),
        Err(PlanError::TableShort) => Phrase::Silent,
        Err(PlanError::Record(_)) => Phrase::Silent,
    }
}

// How many cell lines follow: one for each cell of a planned site.
pub fn row_count(reply: Result<(), PlanError>, cells: usize) -> usize
    ensures { result ≡ row_count reply cells }
{
    match reply {
        Ok(()) => cells,
        Err(_) => 0,
    }
}

// The lines of the head, with the planner's answer, and where they end.
pub fn put_answers(out: &mut [u8], site: Site, reply: Result<(), PlanError>) -> usize
    requires { 800 ≤ length out.old }
    ensures { Put out.old 0 (head_with site reply) 800 out.new result }
{
    let chain = put_line(out, 0, site_line(site));
    let load = put_line(out, chain, chain_line(judges::chain(site)));
    let plan = put_line(out, load, load_line(judges::load_test(site)));
    put_line(out, plan, plan_line(reply))
}

// The line of the cell at index `i`, from its row of the table.
pub fn row_line(out: &mut [u8], table: &[u8], width: usize, channels: usize, i: usize) -> usize
    requires channels_nonzero { (0 < channels) × (width ≤ 2048) }
    requires i_bound { (i < 32) × (i * width + width ≤ length table.now) }
    requires in_bounds { 24576 ≤ length out.old }
    ensures { Put out.old 0 (cell_listed (i + 1) channels (row_at width table.now i)) 24576 out.new result }
{
    let from = i * width;
    let to = from + width;
    say_listing::put_cell_line(out, i + 1, channels, &table[from..to])
}
