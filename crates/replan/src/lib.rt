// The greedy plan from a cell on, where the rows before it stand. Each row is made apart from the table, and what is lent to be written is that one row.
//
// What it costs: for each row what it costs to plan it, and one pass to store it. The local room is a byte for each position, and one more for each where a
// position is blocked: no second table. Of at most 128 positions only so many are cleared.
#![tactic(auto)]

ghost use Rattle.std.specs.Prelude.{◌≡◌, ◌*◌, ◌≤◌, length};
ghost use Rattle.theory.specs.Greedy.{greedy};
ghost use Rattle.site.specs.Reach.{is_open, net_by};
ghost use Rattle.planner.specs.Plan.{answer_of, leaves};
ghost use Rattle.planner.specs.Loop.{PlannedTo};
ghost use Rattle.planrows.specs.Row.{opens, Masks, Sending, EitherWay};
ghost use Rattle.rowapart.specs.Code.{mask_size};

use loads::load_of;
use planner::PlanError;
use rowapart::{make_row, mask_size};

// The greedy rows from cell `first` on, by index, where the rows before it are planned. Of the table only the row that is laid is lent to be written, so that
// those rows are read and never written while every cell finds room. Where one finds none, the site's part is made idle.
// The other room that is lent is for a row, and for where each row's reserved positions start and end.
fn rows_from(
    table: &mut [u8],
    row: &mut [u8],
    starts: &mut [u16; 32],
    ends: &mut [u16; 32],
    first: usize,
    cells: usize,
    slots: usize,
    channels: usize,
    loads: &[u16; 32],
    clash: &[u32; 32],
    mask: &[u8],
) -> Result<(), PlanError>
    requires first_le_cells { (first ≤ cells) × (cells ≤ 32) × (channels ≤ 16) × (slots * channels ≤ 2048) × (cells * (slots * channels) ≤ length table.old) }
    requires row_len { (length row.old ≡ slots * channels) × (length starts.old ≡ 32) × (length ends.old ≡ 32) }
    requires planned_to { PlannedTo (net_by cells (slots * channels) loads.now clash.now (opens mask.now)) first table.old
        × Sending (slots * channels) table.old first starts.old ends.old × Masks (slots * channels) mask.now × EitherWay clash.now }
    ensures answer { result ≡ answer_of (greedy (net_by cells (slots * channels) loads.now clash.now
        (opens mask.now))) }
    ensures table { table.new ≡ leaves (net_by cells (slots * channels) loads.now clash.now
        (opens mask.now)) table.old }
{
    let n = slots * channels;
    for i in first..cells {
        let load = load_of(loads, i) as usize;
        let made = make_row(
            row, table, slots, channels, i, load, clash, mask, starts, ends,
        );
        let short = made.left;
        if 0 < short {
            let size = cells * n;
            rows::clear(&mut table[..size]);
            let cell = i + 1;
            return Err(PlanError::NoRoom(cell, short));
        }
        let from = i * n;
        let to = from + n;
        rows::lay_mask(&mut table[from..to], row);
        starts[i] = made.from as u16;
        ends[i] = made.to as u16;
    }
    Ok(())
}

// The same in lent room: bytes for a row, and for a mask where a position is blocked. Where the reserved positions of a row before `first` start and end is not
// known: such a row is asked as a whole.
fn plan_in(
    table: &mut [u8],
    mask: &mut [u8],
    row: &mut [u8],
    first: usize,
    cells: usize,
    slots: usize,
    channels: usize,
    loads: &[u16; 32],
    clash: &[u32; 32],
    blocked: &[u64; 32],
) -> Result<(), PlanError>
    requires first_le_cells { (first ≤ cells) × (cells ≤ 32) × (channels ≤ 16) × (slots * channels ≤ 2048) × (cells * (slots * channels) ≤ length table.old) }
    requires mask_len { (length mask.old ≡ mask_size blocked.now (slots * channels)) × (length row.old ≡ slots * channels) }
    requires planned_to { PlannedTo (net_by cells (slots * channels) loads.now clash.now (is_open blocked.now)) first table.old × EitherWay clash.now }
    ensures answer { result ≡ answer_of (greedy (net_by cells (slots * channels) loads.now clash.now
        (is_open blocked.now))) }
    ensures table { table.new ≡ leaves (net_by cells (slots * channels) loads.now clash.now
        (is_open blocked.now)) table.old }
{
    let n = slots * channels;
    let end = n as u16;
    let mut starts = [0u16; 32];
    let mut ends = [end; 32];
    positions::bars(blocked, mask);
    rows_from(
        table,
        row,
        &mut starts,
        &mut ends,
        first,
        cells,
        slots,
        channels,
        loads,
        clash,
        mask,
    )
}

// The same for at most 128 positions: the room is cleared for so many alone.
fn plan_small_from(
    table: &mut [u8],
    first: usize,
    cells: usize,
    slots: usize,
    channels: usize,
    loads: &[u16; 32],
    clash: &[u32; 32],
    blocked: &[u64; 32],
) -> Result<(), PlanError>
    requires first_le_cells { (first ≤ cells) × (cells ≤ 32) × (channels ≤ 16) × (slots * channels ≤ 128) × (cells * (slots * channels) ≤ length table.old) }
    requires planned_to { PlannedTo (net_by cells (slots * channels) loads.now clash.now (is_open blocked.now)) first table.old × EitherWay clash.now }
    ensures answer { result ≡ answer_of (greedy (net_by cells (slots * channels) loads.now clash.now
        (is_open blocked.now))) }
    ensures table { table.new ≡ leaves (net_by cells (slots * channels) loads.now clash.now
        (is_open blocked.now)) table.old }
{
    let n = slots * channels;
    let m = mask_size(blocked, n);
    let mut mask = [0u8; 128];
    let mut row = [0u8; 128];
    plan_in(
        table,
        &mut mask[..m],
        &mut row[..n],
        first,
        cells,
        slots,
        channels,
        loads,
        clash,
        blocked,
    )
}

// The same for any number of positions.
pub fn plan_from(
    table: &mut [u8],
    first: usize,
    cells: usize,
    slots: usize,
    channels: usize,
    loads: &[u16; 32],
    clash: &[u32; 32],
    blocked: &[u64; 32],
) -> Result<(), PlanError>
    requires first_le_cells { (first ≤ cells) × (cells ≤ 32) × (channels ≤ 16) × (slots * channels ≤ 2048) × (cells * (slots * channels) ≤ length table.old) }
    requires planned_to { PlannedTo (net_by cells (slots * channels) loads.now clash.now (is_open blocked.now)) first table.old × EitherWay clash.now }
    ensures answer { result ≡ answer_of (greedy (net_by cells (slots * channels) loads.now clash.now
        (is_open blocked.now))) }
    ensures table { table.new ≡ leaves (net_by cells (slots * channels) loads.now clash.now
        (is_open blocked.now)) table.old }
{
    let n = slots * channels;
    if n <= 128 {
        return plan_small_from(table, first, cells, slots, channels, loads, clash, blocked);
    }
    let m = mask_size(blocked, n);
    let mut mask = [0u8; 2048];
    let mut row = [0u8; 2048];
    plan_in(
        table,
        &mut mask[..m],
        &mut row[..n],
        first,
        cells,
        slots,
        channels,
        loads,
        clash,
        blocked,
    )
}
