// The greedy planner over a lent byte table: cells in rising number, and each cell's row filled where it stands. Where there are few positions each row is
// a word.
#![tactic(auto)]

ghost use Rattle.std.specs.Prelude.{◌≡◌, not, ◌*◌, ◌^◌, ◌≤◌, ◌<◌, length, get_or};
ghost use Rattle.laws.specs.Bits.{bit_at, bit_in};
ghost use Rattle.theory.specs.Greedy.{greedy};
ghost use Rattle.planner.specs.Plan.{plan_answer, plan_table, answer_of, leaves};
ghost use Rattle.planner.specs.declared.PlanError.TheVariants.{Record};
ghost use Rattle.planrows.specs.Row.{opens, Masks, EitherWay};
ghost use Rattle.site.specs.Reach.{net_in, is_open};

use loads::load_of;
use planrows::plan_row;
use shortrows::{open_word, plan_short_row};
use site::{Fault, Site};

// Why the planner refuses: 4, the table is short; 5, a cell's number and how many of its fragments found no room; or what is wrong with the record.
#[derive(Clone, Copy)]
pub enum PlanError {
    TableShort,
    NoRoom(usize, usize),
    Record(Fault),
}

impl From<Fault> for PlanError {
    ghost from_gives = { λ f e. e ≡ Record f };

    fn from(fault: Fault) -> PlanError {
        PlanError::Record(fault)
    }
}

// A row of so many positions at most is planned as one word. A word has 64, but there the passes over bytes are as quick.
const SHORT: usize = 32;

// The greedy plan, row by row. The site's bytes are the first cells * slots * channels of the table; where a cell finds no room they are made idle.
// The room that is lent is for where each row's reserved positions start, and where they end.
fn plan_rows(
    table: &mut [u8],
    starts: &mut [u16; 32],
    ends: &mut [u16; 32],
    cells: usize,
    slots: usize,
    channels: usize,
    loads: &[u16; 32],
    clash: &[u32; 32],
    mask: &[u8],
) -> Result<(), PlanError>
    requires cells_bound { (cells ≤ 32) × (channels ≤ 16) × (slots * channels ≤ 2048) × (length starts.old ≡ 32) × (length ends.old ≡ 32) }
    requires channels_in_bounds { (cells * (slots * channels) ≤ length table.old) × Masks (slots * channels) mask.now × EitherWay clash.now }
    ensures answer { result ≡ answer_of (greedy (net_in cells (slots * channels) loads.now (bit_in clash.now)
        (opens mask.now))) }
    ensures table { table.new ≡ leaves (net_in cells (slots * channels) loads.now (bit_in clash.now)
        (opens mask.now)) table.old }
{
    for i in 0..cells {
        let load = load_of(loads, i) as usize;
        let row = plan_row(table, slots, channels, i, load, clash, mask, starts, ends);
        let short = row.left;
        if 0 < short {
            let end = cells * (slots * channels);
            rows::clear(&mut table[..end]);
            let cell = i + 1;
            return Err(PlanError::NoRoom(cell, short));
        }
        starts[i] = row.from as u16;
        ends[i] = row.to as u16;
    }
    Ok(())
}

// The same where these positions are blocked: rows are planned with a mask only where there are any.
fn plan_long(
    table: &mut [u8],
    cells: usize,
    slots: usize,
    channels: usize,
    loads: &[u16; 32],
    clash: &[u32; 32],
    blocked: &[u64; 32],
) -> Result<(), PlanError>
    requires { (cells ≤ 32) × (channels ≤ 16) × (slots * channels ≤ 2048) × (cells * (slots * channels) ≤ length table.old) × EitherWay clash.now }
    ensures answer { result ≡ answer_of (greedy (net_in cells (slots * channels) loads.now (bit_in clash.now)
        (is_open blocked.now))) }
    ensures table { table.new ≡ leaves (net_in cells (slots * channels) loads.now (bit_in clash.now)
        (is_open blocked.now)) table.old }
{
    let mut starts = [0u16; 32];
    let mut ends = [0u16; 32];
    if positions::none_blocked(blocked) {
        return plan_rows(
            table,
            &mut starts,
            &mut ends,
            cells,
            slots,
            channels,
            loads,
            clash,
            b"",
        );
    }
    let n = slots * channels;
    let mut mask = [0u8; 2048];
    positions::bars(blocked, &mut mask[..n]);
    plan_rows(
        table,
        &mut starts,
        &mut ends,
        cells,
        slots,
        channels,
        loads,
        clash,
        &mask,
    )
}

// The greedy plan of a site with at most 64 positions, a word for each row, of which `usable` has those that may be reserved. The room that is lent is for
// the word of each row.
fn plan_short(
    table: &mut [u8],
    held: &mut [u64; 32],
    cells: usize,
    slots: usize,
    channels: usize,
    loads: &[u16; 32],
    clash: &[u32; 32],
    usable: u64,
) -> Result<(), PlanError>
    requires cells_bound { (cells ≤ 32) × (slots * channels ≤ 64) × (length held.old ≡ 32) × (usable < 2 ^ (slots * channels)) }
    requires channels_in_bounds { (cells * (slots * channels) ≤ length table.old) × EitherWay clash.now }
    ensures answer { result ≡ answer_of (greedy (net_in cells (slots * channels) loads.now (bit_in clash.now) (bit_at usable))) }
    ensures table { table.new ≡ leaves (net_in cells (slots * channels) loads.now (bit_in clash.now) (bit_at usable))
        table.old }
{
    for i in 0..cells {
        let load = load_of(loads, i) as usize;
        let lacks = plan_short_row(table, held, slots, channels, i, load, clash, usable);
        if 0 < lacks {
            let end = cells * (slots * channels);
            rows::clear(&mut table[..end]);
            let cell = i + 1;
            return Err(PlanError::NoRoom(cell, lacks));
        }
    }
    Ok(())
}

// The same where the positions of a word are blocked.
fn plan_few(
    table: &mut [u8],
    cells: usize,
    slots: usize,
    channels: usize,
    loads: &[u16; 32],
    clash: &[u32; 32],
    blocked: u64,
) -> Result<(), PlanError>
    requires { (cells ≤ 32) × (slots * channels ≤ 64) × (cells * (slots * channels) ≤ length table.old) × EitherWay clash.now }
    ensures answer { result ≡ answer_of (greedy (net_in cells (slots * channels) loads.now (bit_in clash.now)
        (λ k. not (bit_at blocked k)))) }
    ensures table { table.new ≡ leaves (net_in cells (slots * channels) loads.now (bit_in clash.now)
        (λ k. not (bit_at blocked k))) table.old }
{
    let mut held = [0u64; 32];
    let n = slots * channels;
    let usable = open_word(blocked, n);
    plan_short(
        table, &mut held, cells, slots, channels, loads, clash, usable,
    )
}

// Plans the site into the lent table: the planner's answer for any site and any table.
#[tactic(auto, using(crate::proofs::Answer::accepted_record), unfolding(crate::specs::Plan::plan_answer, crate::specs::Plan::plan_table))]
pub fn plan(site: Site, table: &mut [u8]) -> Result<(), PlanError>
    ensures answer { result ≡ plan_answer site table.old }
    ensures table { table.new ≡ plan_table site table.old }
{
    site.accepted()?;
    let cells = site.cells as usize;
    let slots = site.slots as usize;
    let channels = site.channels as usize;
    let size = cells * (slots * channels);
    if table.len() < size {
        return Err(PlanError::TableShort);
    }
    let loads = site.loads;
    let clash = site.clash_rows();
    if slots * channels <= SHORT {
        let first = site.blocked[0];
        return plan_few(table, cells, slots, channels, &loads, &clash, first);
    }
    let blocked = site.blocked;
    plan_long(table, cells, slots, channels, &loads, &clash, &blocked)
}
