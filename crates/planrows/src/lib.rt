// The row of one cell in the greedy plan, where it stands in the lent table: marked by the earlier clashing rows, and filled.
//
// What it costs: for each earlier clashing row a pass over the stretch in which that row is reserved, and one pass to fill it. Where the marks of the row
// before can be taken over, that is one pass for all of the rows that they come from.
#![tactic(auto)]

ghost use Rattle.std.specs.Prelude.{◌≡◌, ◌+◌, ◌*◌, ◌^◌, ◌≤◌, ◌<◌, length, get_or};
ghost use Rattle.laws.specs.Bits.{bit_in, set_bit};
ghost use Rattle.laws.specs.Part.{part, put};
ghost use Rattle.theory.specs.Net.{unblocked};
ghost use Rattle.theory.specs.Greedy.{fill, unmet};
ghost use Rattle.rows.specs.Bars.{bar_row};
ghost use Rattle.rows.specs.Stretch.{SameBut, SendsIn, filled_by};
ghost use Rattle.planrows.specs.Row.{marks_in, marks_here, row_planned, row_short, opens, Masks, Sending, EitherWay, near_in, by_word, RowsMarked, RowsBefore};

use rows::Filled;

// The cells before cell `i` that clash with it, as a word.
pub fn near_of(clash: &[u32; 32], i: usize) -> u32
    requires { i < 32 }
    ensures { result ≡ near_in clash.now i }
{
    clash[i] % (1 << i)
}

// The same, and cell `i` itself.
pub fn group_of(clash: &[u32; 32], i: usize) -> u32
    requires { i < 32 }
    ensures { result ≡ set_bit (near_in clash.now i) i }
{
    near_of(clash, i) | (1 << i)
}

// Takes the marks of the row before over into row `i`, where they are all marks of row `i` too, and gives the cells by which it is still to be marked.
// The first few rows are marked quicker by each cell.
fn take_over(table: &mut [u8], n: usize, i: usize, clash: &[u32; 32]) -> u32
    requires i_bound { (i < 32) × (i * n + n ≤ length table.old) }
    requires rows_marked { RowsMarked n (bit_in clash.now) table.old i × EitherWay clash.now }
    ensures few { result < 2 ^ i }
    ensures row { table.new ≡ put (i * n) n (part (i * n) n table.new) table.old }
    ensures marks { marks_here n (by_word result) table.new i ≡ marks_here n (bit_in clash.now) table.old i }
{
    let near = near_of(clash, i);
    if i < 6 {
        return near;
    }
    let before = i - 1;
    let group = group_of(clash, before);
    if (group | near) != near {
        return near;
    }
    rows::cover_row(table, n, before, i);
    words::apart(near, group)
}

// The position at index `j`: where the stretch of row `j` begins, or where it ends.
// It only looks like `loads::load_of`: a load is no place, and a name for both would say less at each of their calls.
pub fn place_of(places: &[u16; 32], j: usize) -> u16
    requires { j < 32 }
    ensures { result ≡ get_or places.now j 0 }
{
    places[j]
}

// Forbids in row `i`, as it stands, all that the rows of these cells reserve.
fn mark_by(table: &mut [u8], n: usize, i: usize, cells: u32, starts: &[u16; 32], ends: &[u16; 32])
    requires i_bound { (i < 32) × (i * n + n ≤ length table.old) × (cells < 2 ^ i) }
    requires sending { Sending n table.old i starts.now ends.now }
    ensures { table.new ≡ put (i * n) n (marks_here n (by_word cells) table.old i) table.old }
{
    let mut left = cells;
    // From member to member of a word: no index is counted.
    while left != 0 {
        let j = u32::trailing_zeros(left) as usize;
        let start = place_of(starts, j) as usize;
        let end = place_of(ends, j) as usize;
        rows::forbid_row(table, n, j, i, start, end);
        left = left & (left - 1);
    }
}

// Forbids in row `i`, as it stands, all that the earlier clashing rows reserve.
fn mark_row(
    table: &mut [u8],
    n: usize,
    i: usize,
    clash: &[u32; 32],
    starts: &[u16; 32],
    ends: &[u16; 32],
)
    requires i_bound { (i < 32) × (i * n + n ≤ length table.old) }
    requires rows_before { RowsBefore n table.old i clash.now starts.now ends.now }
    ensures { table.new ≡ put (i * n) n (marks_here n (bit_in clash.now) table.old i) table.old }
{
    let left = take_over(table, n, i, clash);
    mark_by(table, n, i, left, starts, ends);
}

// Marks row `i`, as it stands, and reserves its first idle positions.
fn take_row(
    table: &mut [u8],
    slots: usize,
    channels: usize,
    i: usize,
    load: usize,
    clash: &[u32; 32],
    starts: &[u16; 32],
    ends: &[u16; 32],
) -> Filled
    requires i_bound { (i < 32) × (channels ≤ 16) × (i * (slots * channels) + slots * channels ≤ length table.old) }
    requires rows_before { RowsBefore (slots * channels) table.old i clash.now starts.now ends.now }
    ensures row { table.new ≡ put (i * (slots * channels)) (slots * channels)
        (fill unblocked 0 load (marks_here (slots * channels) (bit_in clash.now) table.old i)) table.old }
    ensures short { result.left ≡ unmet unblocked 0 load (marks_here (slots * channels) (bit_in clash.now) table.old i) }
    ensures stretch { SameBut result.from result.to (marks_here (slots * channels) (bit_in clash.now) table.old i)
        (fill unblocked 0 load (marks_here (slots * channels) (bit_in clash.now) table.old i)) }
    ensures answer { result ≡ filled_by slots channels load (marks_here (slots * channels) (bit_in clash.now) table.old i) }
{
    let n = slots * channels;
    let from = i * n;
    let to = from + n;
    mark_row(table, n, i, clash, starts, ends);
    rows::fill_row(&mut table[from..to], slots, channels, load)
}

// Plans row `i`, where the rows before it are planned and no position is barred. Each of these is reserved from its start to its end alone.
fn plan_open_row(
    table: &mut [u8],
    slots: usize,
    channels: usize,
    i: usize,
    load: usize,
    clash: &[u32; 32],
    starts: &[u16; 32],
    ends: &[u16; 32],
) -> Filled
    requires i_bound { (i < 32) × (channels ≤ 16) × (i * (slots * channels) + slots * channels ≤ length table.old) }
    requires rows_before { RowsBefore (slots * channels) table.old i clash.now starts.now ends.now }
    ensures row { table.new ≡ row_planned (slots * channels) (bit_in clash.now) unblocked i load table.old }
    ensures short { result.left ≡ row_short (slots * channels) (bit_in clash.now) unblocked i load table.old }
    ensures stretch { SendsIn (slots * channels) table.new i result.from result.to }
    ensures answer { result ≡ filled_by slots channels load (marks_in (slots * channels) (bit_in clash.now) table.old i) }
{
    let n = slots * channels;
    let from = i * n;
    let to = from + n;
    rows::clear(&mut table[from..to]);
    take_row(table, slots, channels, i, load, clash, starts, ends)
}

// The same where the mask bars positions: they are not idle while the row is filled, and are idle at the end.
fn plan_barred_row(
    table: &mut [u8],
    slots: usize,
    channels: usize,
    i: usize,
    load: usize,
    clash: &[u32; 32],
    mask: &[u8],
    starts: &[u16; 32],
    ends: &[u16; 32],
) -> Filled
    requires i_bound { (i < 32) × (channels ≤ 16) × (i * (slots * channels) + slots * channels ≤ length table.old) }
    requires rows_before { RowsBefore (slots * channels) table.old i clash.now starts.now ends.now }
    requires mask_nonzero { (0 < length mask.now) × Masks (slots * channels) mask.now }
    ensures row { table.new ≡ row_planned (slots * channels) (bit_in clash.now) (opens mask.now) i load
        table.old }
    ensures short { result.left ≡ row_short (slots * channels) (bit_in clash.now) (opens mask.now) i load table.old }
    ensures stretch { SendsIn (slots * channels) table.new i result.from result.to }
    ensures answer { result ≡ filled_by slots channels load (bar_row (opens mask.now) 0
        (marks_in (slots * channels) (bit_in clash.now) table.old i)) }
{
    let n = slots * channels;
    let from = i * n;
    let to = from + n;
    rows::lay_mask(&mut table[from..to], mask);
    let filled = take_row(table, slots, channels, i, load, clash, starts, ends);
    rows::lift(&mut table[from..to]);
    filled
}

// Plans row `i`, where the rows before it are planned, and gives how many fragments found no room and the stretch in which it is reserved.
// A mask without bytes bars no position.
pub fn plan_row(
    table: &mut [u8],
    slots: usize,
    channels: usize,
    i: usize,
    load: usize,
    clash: &[u32; 32],
    mask: &[u8],
    starts: &[u16; 32],
    ends: &[u16; 32],
) -> Filled
    requires i_bound { (i < 32) × (channels ≤ 16) × (i * (slots * channels) + slots * channels ≤ length table.old) }
    requires rows_before { RowsBefore (slots * channels) table.old i clash.now starts.now ends.now }
    requires masks { Masks (slots * channels) mask.now }
    ensures row { table.new ≡ row_planned (slots * channels) (bit_in clash.now) (opens mask.now) i load
        table.old }
    ensures short { result.left ≡ row_short (slots * channels) (bit_in clash.now) (opens mask.now) i load table.old }
    ensures stretch { SendsIn (slots * channels) table.new i result.from result.to }
    ensures answer { result ≡ filled_by slots channels load (bar_row (opens mask.now) 0
        (marks_in (slots * channels) (bit_in clash.now) table.old i)) }
{
    if mask.len() == 0 {
        return plan_open_row(table, slots, channels, i, load, clash, starts, ends);
    }
    plan_barred_row(table, slots, channels, i, load, clash, mask, starts, ends)
}
