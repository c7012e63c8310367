// A row of the greedy plan, made apart from the table: from the earlier rows that stand there, which are read and never written.
//
// What it costs is what it costs in crate `planrows`: for each earlier clashing row a pass over the stretch in which that row is reserved, and one pass to fill
// it. Where the marks of the row before can be taken over, that is one pass for all of the rows that they come from.
#![tactic(auto)]

ghost use Rattle.std.specs.Prelude.{◌≡◌, [], ◌+◌, ◌*◌, ◌^◌, ◌≤◌, ◌<◌, eqb, length, get_or};
ghost use Rattle.laws.specs.Bits.{bit_in};
ghost use Rattle.laws.specs.Choice.{pick};
ghost use Rattle.laws.specs.Part.{part, put, list_of};
ghost use Rattle.theory.specs.Net.{unblocked};
ghost use Rattle.theory.specs.Greedy.{sends, forbid, fill};
ghost use Rattle.rows.specs.Bars.{bar_row};
ghost use Rattle.rows.specs.Stretch.{SameBut, SendsIn, filled_by};
ghost use Rattle.planrows.specs.Row.{marks_in, marks_on, row_short, opens, Masks, Sending, EitherWay, by_word, RowsMarked, RowsBefore};
ghost use Rattle.rowapart.specs.Code.{cover_by, mask_size};

use planrows::{group_of, near_of, place_of};
use rows::{Filled, cover, mark};

// Forbids, in a row of `n` bytes, each position that row `j` of the table reserves: all of these lie from `start` to `end`.
// A byte is stored at each position of that stretch, marked or as it was, so that the loop has no branch.
fn forbid_by(row: &mut [u8], table: &[u8], n: usize, j: usize, start: usize, end: usize)
    requires row_len { (length row.old ≡ n) × (j * n + n ≤ length table.now) }
    requires sends_in { SendsIn n table.now j start end }
    ensures { row.new ≡ forbid (part (j * n) n table.now) row.old }
{
    let from = j * n;
    for p in start..end {
        row[p] = mark(table[from + p], row[p]);
    }
}

// Forbids, in a row of `n` bytes, each position at which row `j` of the table is not idle: all that it reserves, and all that is forbidden there.
fn cover_by(row: &mut [u8], table: &[u8], n: usize, j: usize)
    requires { (length row.old ≡ n) × (j * n + n ≤ length table.now) }
    ensures { row.new ≡ list_of (cover_by n table.now j row.old) n }
{
    let from = j * n;
    for p in 0..n {
        row[p] = cover(table[from + p], row[p]);
    }
}

// Takes the marks of the row before over into the row of cell `i`, where they are all marks of it too, and gives the cells by which it is still to be marked.
// The first few rows are marked quicker by each cell.
fn take_over(row: &mut [u8], table: &[u8], n: usize, i: usize, clash: &[u32; 32]) -> u32
    requires i_bound { (i < 32) × (length row.old ≡ n) × (i * n + n ≤ length table.now) }
    requires rows_marked { RowsMarked n (bit_in clash.now) table.now i × EitherWay clash.now }
    ensures few { result < 2 ^ i }
    ensures marks { marks_on n (by_word result) table.now i row.new i
        ≡ marks_on n (bit_in clash.now) table.now i row.old i }
{
    let near = near_of(clash, i);
    if i < 6 {
        return near;
    }
    let before = i - 1;
    let group = group_of(clash, before);
    if (group | near) != near {
        return near;
    }
    cover_by(row, table, n, before);
    words::apart(near, group)
}

// Makes a row of `n` bytes idle but where row `j` of the table is not: there it is forbidden.
fn cover_idle(row: &mut [u8], table: &[u8], n: usize, j: usize)
    requires { (length row.old ≡ n) × (j * n + n ≤ length table.now) }
    ensures { row.new ≡ list_of (cover_by n table.now j []) n }
{
    let from = j * n;
    for k in 0..n {
        row[k] = cover(table[from + k], 0);
    }
}

// The same as `take_over`, of an idle row: it is cleared only where nothing is taken over.
fn lay_open(row: &mut [u8], table: &[u8], n: usize, i: usize, clash: &[u32; 32]) -> u32
    requires i_bound { (i < 32) × (length row.old ≡ n) × (i * n + n ≤ length table.now) }
    requires rows_marked { RowsMarked n (bit_in clash.now) table.now i × EitherWay clash.now }
    ensures few { result < 2 ^ i }
    ensures marks { marks_on n (by_word result) table.now i row.new i
        ≡ marks_in n (bit_in clash.now) table.now i }
{
    let near = near_of(clash, i);
    if i < 6 {
        rows::clear(row);
        return near;
    }
    let before = i - 1;
    let taken = group_of(clash, before);
    if (taken | near) != near {
        rows::clear(row);
        return near;
    }
    cover_idle(row, table, n, before);
    words::apart(near, taken)
}

// Forbids in the row of cell `i` all that the rows of these cells reserve.
fn mark_by(
    row: &mut [u8],
    table: &[u8],
    n: usize,
    i: usize,
    cells: u32,
    starts: &[u16; 32],
    ends: &[u16; 32],
)
    requires i_bound { (i < 32) × (length row.old ≡ n) × (i * n + n ≤ length table.now) × (cells < 2 ^ i) }
    requires sending { Sending n table.now i starts.now ends.now }
    ensures { row.new ≡ marks_on n (by_word cells) table.now i row.old i }
{
    let mut left = cells;
    // From member to member of a word: no index is counted.
    while left != 0 {
        let j = u32::trailing_zeros(left) as usize;
        let start = place_of(starts, j) as usize;
        let end = place_of(ends, j) as usize;
        forbid_by(row, table, n, j, start, end);
        left = left & (left - 1);
    }
}

// Marks the row of cell `i`, as it is lent, by these cells, and reserves its first idle positions.
fn take_marked(
    row: &mut [u8],
    table: &[u8],
    slots: usize,
    channels: usize,
    i: usize,
    load: usize,
    cells: u32,
    starts: &[u16; 32],
    ends: &[u16; 32],
) -> Filled
    requires i_bound { (i < 32) × (channels ≤ 16) × (length row.old ≡ slots * channels) × (i * (slots * channels) + slots * channels ≤ length table.now) }
    requires cells_bound { (cells < 2 ^ i) × Sending (slots * channels) table.now i starts.now ends.now }
    ensures row { row.new ≡ fill unblocked 0 load (marks_on (slots * channels) (by_word cells) table.now i row.old i) }
    ensures stretch { SameBut result.from result.to
        (marks_on (slots * channels) (by_word cells) table.now i row.old i)
        (fill unblocked 0 load (marks_on (slots * channels) (by_word cells) table.now i row.old i)) }
    ensures answer { result ≡ filled_by slots channels load (marks_on (slots * channels) (by_word cells) table.now i row.old i) }
{
    let n = slots * channels;
    mark_by(row, table, n, i, cells, starts, ends);
    rows::fill_row(row, slots, channels, load)
}

// Makes the row of cell `i`, where no position is barred.
fn make_open_row(
    row: &mut [u8],
    table: &[u8],
    slots: usize,
    channels: usize,
    i: usize,
    load: usize,
    clash: &[u32; 32],
    starts: &[u16; 32],
    ends: &[u16; 32],
) -> Filled
    requires i_bound { (i < 32) × (channels ≤ 16) × (length row.old ≡ slots * channels) × (i * (slots * channels) + slots * channels ≤ length table.now) }
    requires rows_before { RowsBefore (slots * channels) table.now i clash.now starts.now ends.now }
    ensures row { row.new ≡ fill unblocked 0 load (marks_in (slots * channels) (bit_in clash.now) table.now i) }
    ensures short { result.left ≡ row_short (slots * channels) (bit_in clash.now) unblocked i load table.now }
    ensures stretch { SendsIn (slots * channels) (put (i * (slots * channels)) (slots * channels) row.new table.now) i
        result.from result.to }
    ensures answer { result ≡ filled_by slots channels load (marks_in (slots * channels) (bit_in clash.now) table.now i) }
{
    let n = slots * channels;
    let cells = lay_open(row, table, n, i, clash);
    take_marked(row, table, slots, channels, i, load, cells, starts, ends)
}

// The same where the mask bars positions: they are not idle while the row is filled, and are idle at the end.
fn make_barred_row(
    row: &mut [u8],
    table: &[u8],
    slots: usize,
    channels: usize,
    i: usize,
    load: usize,
    clash: &[u32; 32],
    mask: &[u8],
    starts: &[u16; 32],
    ends: &[u16; 32],
) -> Filled
    requires i_bound { (i < 32) × (channels ≤ 16) × (length row.old ≡ slots * channels) × (i * (slots * channels) + slots * channels ≤ length table.now) }
    requires rows_before { RowsBefore (slots * channels) table.now i clash.now starts.now ends.now }
    requires mask_nonzero { (0 < length mask.now) × Masks (slots * channels) mask.now }
    ensures row { row.new ≡ fill (opens mask.now) 0 load
        (marks_in (slots * channels) (bit_in clash.now) table.now i) }
    ensures short { result.left ≡ row_short (slots * channels) (bit_in clash.now) (opens mask.now) i load table.now }
    ensures stretch { SendsIn (slots * channels) (put (i * (slots * channels)) (slots * channels) row.new table.now) i
        result.from result.to }
    ensures answer { result ≡ filled_by slots channels load (bar_row (opens mask.now) 0
        (marks_in (slots * channels) (bit_in clash.now) table.now i)) }
{
    let n = slots * channels;
    rows::lay_mask(row, mask);
    let cells = take_over(row, table, n, i, clash);
    let filled = take_marked(row, table, slots, channels, i, load, cells, starts, ends);
    rows::lift(row);
    filled
}

// Makes the row of cell `i`, where the rows before it stand in the table and each of these is reserved from its start to its end alone. Gives how many
// fragments found no room, and the stretch in which it is reserved. A mask without bytes bars no position.
pub fn make_row(
    row: &mut [u8],
    table: &[u8],
    slots: usize,
    channels: usize,
    i: usize,
    load: usize,
    clash: &[u32; 32],
    mask: &[u8],
    starts: &[u16; 32],
    ends: &[u16; 32],
) -> Filled
    requires i_bound { (i < 32) × (channels ≤ 16) × (length row.old ≡ slots * channels) × (i * (slots * channels) + slots * channels ≤ length table.now) }
    requires rows_before { RowsBefore (slots * channels) table.now i clash.now starts.now ends.now }
    requires masks { Masks (slots * channels) mask.now }
    ensures row { row.new ≡ fill (opens mask.now) 0 load
        (marks_in (slots * channels) (bit_in clash.now) table.now i) }
    ensures short { result.left ≡ row_short (slots * channels) (bit_in clash.now) (opens mask.now) i load table.now }
    ensures stretch { SendsIn (slots * channels) (put (i * (slots * channels)) (slots * channels) row.new table.now) i
        result.from result.to }
    ensures answer { result ≡ filled_by slots channels load (bar_row (opens mask.now) 0
        (marks_in (slots * channels) (bit_in clash.now) table.now i)) }
{
    if mask.len() == 0 {
        return make_open_row(row, table, slots, channels, i, load, clash, starts, ends);
    }
    make_barred_row(
        row, table, slots, channels, i, load, clash, mask, starts, ends,
    )
}

// How many bytes the mask of a row of `n` positions has: none where no position is blocked.
pub fn mask_size(blocked: &[u64; 32], n: usize) -> usize
    ensures { result ≡ mask_size blocked.now n }
{
    if positions::none_blocked(blocked) {
        return 0;
    }
    n
}
