// Whether a table is the greedy plan, tested in place: each row is made anew from the rows before it, and compared.
//
// What it costs: for each row what it costs to plan it, and one pass to compare it. The local room is a byte for each position, and one more for each where a
// position is blocked: 4 kilobytes, and for up to 128 positions 256 bytes. There is no second table.
#![tactic(auto)]

ghost use Rattle.std.specs.Prelude.{◌≡◌, ◌+◌, ◌*◌, ◌≤◌, ◌<◌, length};
ghost use Rattle.theory.specs.Plan.{is_plan};
ghost use Rattle.site.specs.Reach.{is_open, net_by};
ghost use Rattle.planrows.specs.Row.{opens, Masks, EitherWay};
ghost use Rattle.rowapart.specs.Code.{bytes_alike, mask_size};

use loads::load_of;
use rowapart::{make_row, mask_size};

// Whether n bytes of the table, from `from` on, are those of a row. No branch in the loop, so that many are compared at once.
fn same(table: &[u8], from: usize, row: &[u8], n: usize) -> bool
    requires { (from + n ≤ length table.now) × (n ≤ length row.now) }
    ensures { result ≡ bytes_alike table.now from row.now n }
{
    let mut other: u8 = 0;
    for k in 0..n {
        other = other | ((table[from + k] != row[k]) as u8);
    }
    other == 0
}

// Whether the table's rows are the greedy plan, cell after cell. The room that is lent is for a row, and for where each row's reserved positions start and end.
fn test_rows(
    table: &[u8],
    row: &mut [u8],
    starts: &mut [u16; 32],
    ends: &mut [u16; 32],
    cells: usize,
    slots: usize,
    channels: usize,
    loads: &[u16; 32],
    clash: &[u32; 32],
    mask: &[u8],
) -> bool
    requires cells_nonzero { (0 < cells) × (cells ≤ 32) × (channels ≤ 16) × (slots * channels ≤ 2048) × (cells * (slots * channels) ≤ length table.now) }
    requires row_len { (length row.old ≡ slots * channels) × (length starts.old ≡ 32) × (length ends.old ≡ 32) }
    requires masks { Masks (slots * channels) mask.now × EitherWay clash.now }
    ensures { result ≡ is_plan (net_by cells (slots * channels) loads.now clash.now (opens mask.now))
        table.now }
{
    let n = slots * channels;
    for i in 0..cells {
        let load = load_of(loads, i) as usize;
        let made = make_row(
            row, table, slots, channels, i, load, clash, mask, starts, ends,
        );
        let short = made.left;
        if 0 < short {
            return false;
        }
        let from = i * n;
        if !same(table, from, row, n) {
            return false;
        }
        starts[i] = made.from as u16;
        ends[i] = made.to as u16;
    }
    true
}

// The same in lent room: bytes for a row, and for a mask where a position is blocked.
fn test_in(
    table: &[u8],
    mask: &mut [u8],
    row: &mut [u8],
    cells: usize,
    slots: usize,
    channels: usize,
    loads: &[u16; 32],
    clash: &[u32; 32],
    blocked: &[u64; 32],
) -> bool
    requires cells_nonzero { (0 < cells) × (cells ≤ 32) × (channels ≤ 16) × (slots * channels ≤ 2048) × (cells * (slots * channels) ≤ length table.now) }
    requires mask_len { (length mask.old ≡ mask_size blocked.now (slots * channels)) × (length row.old ≡ slots * channels) }
    requires either_way { EitherWay clash.now }
    ensures { result ≡ is_plan (net_by cells (slots * channels) loads.now clash.now (is_open blocked.now))
        table.now }
{
    let mut starts = [0u16; 32];
    let mut ends = [0u16; 32];
    positions::bars(blocked, mask);
    test_rows(
        table,
        row,
        &mut starts,
        &mut ends,
        cells,
        slots,
        channels,
        loads,
        clash,
        mask,
    )
}

// Whether a table of at most 128 positions is the greedy plan: the room is cleared for so many alone.
fn is_small_plan(
    table: &[u8],
    cells: usize,
    slots: usize,
    channels: usize,
    loads: &[u16; 32],
    clash: &[u32; 32],
    blocked: &[u64; 32],
) -> bool
    requires cells_nonzero { (0 < cells) × (cells ≤ 32) × (channels ≤ 16) × (slots * channels ≤ 128) × (cells * (slots * channels) ≤ length table.now) }
    requires either_way { EitherWay clash.now }
    ensures { result ≡ is_plan (net_by cells (slots * channels) loads.now clash.now (is_open blocked.now))
        table.now }
{
    let n = slots * channels;
    let m = mask_size(blocked, n);
    let mut mask = [0u8; 128];
    let mut row = [0u8; 128];
    test_in(
        table,
        &mut mask[..m],
        &mut row[..n],
        cells,
        slots,
        channels,
        loads,
        clash,
        blocked,
    )
}

// Whether a table is the greedy plan, byte for byte.
pub fn is_plan(
    table: &[u8],
    cells: usize,
    slots: usize,
    channels: usize,
    loads: &[u16; 32],
    clash: &[u32; 32],
    blocked: &[u64; 32],
) -> bool
    requires cells_nonzero { (0 < cells) × (cells ≤ 32) × (channels ≤ 16) × (slots * channels ≤ 2048) × (cells * (slots * channels) ≤ length table.now) }
    requires either_way { EitherWay clash.now }
    ensures { result ≡ is_plan (net_by cells (slots * channels) loads.now clash.now (is_open blocked.now))
        table.now }
{
    let n = slots * channels;
    if n <= 128 {
        return is_small_plan(table, cells, slots, channels, loads, clash, blocked);
    }
    let m = mask_size(blocked, n);
    let mut mask = [0u8; 2048];
    let mut row = [0u8; 2048];
    test_in(
        table,
        &mut mask[..m],
        &mut row[..n],
        cells,
        slots,
        channels,
        loads,
        clash,
        blocked,
    )
}
