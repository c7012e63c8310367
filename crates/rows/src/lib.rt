// The bytes of a row: its idle positions are reserved, those that an earlier row reserves are forbidden, all are made idle.
#![tactic(auto)]

ghost use Rattle.std.specs.Prelude.{◌≡◌, ◌&&◌, ◌++◌, ◌+◌, ◌*◌, ◌%◌, ◌^◌, ◌≤◌, ◌<◌, min, ltb, eqb, length, get_or, take, drop, replicate};
ghost use Rattle.laws.specs.Choice.{pick};
ghost use Rattle.laws.specs.Sum.{bit, count};
ghost use Rattle.laws.specs.Part.{part, put, list_of};
ghost use Rattle.theory.specs.Net.{unblocked};
ghost use Rattle.theory.specs.Greedy.{sends, forbid, fill, unmet};
ghost use Rattle.rows.specs.Bars.{lifted};
ghost use Rattle.rows.specs.Stretch.{SameBut, SendsIn, cover_at, whole_pieces, fill_start, filled_by};

// 1 for an idle byte, and 0 for any other: whether a fragment may be placed there.
fn idle(byte: u8) -> u8
    ensures { result ≡ bit (eqb byte 0) }
{
    (byte == 0) as u8
}

// How many positions of a stretch are idle. The count is as narrow as the bytes, so that many are counted at once.
fn count_idle(stretch: &[u8]) -> usize
    requires { length stretch.now ≤ 128 }
    ensures { result ≡ count (λ k. unblocked k && eqb (get_or stretch.now k 0) 0) (length stretch.now) }
{
    let mut count: u8 = 0;
    for p in 0..stretch.len() {
        count += idle(stretch[p]);
    }
    count as usize
}

// Reserves every idle position of a stretch: it is filled with as many fragments as it has positions.
fn reserve_idle(stretch: &mut [u8])
    ensures { stretch.new ≡ fill unblocked 0 (length stretch.old) stretch.old }
{
    for p in 0..stretch.len() {
        let byte = stretch[p];
        let taken = idle(byte);
        stretch[p] = byte + taken;
    }
}

// Reserves every idle position of a stretch, where there is a fragment for each, and gives how many it has. Where it has none, nothing is stored.
fn take_idle(stretch: &mut [u8], left: usize) -> usize
    requires { length stretch.old ≤ 128 }
    ensures count { result ≡ count (λ k. unblocked k && eqb (get_or stretch.old k 0) 0) (length stretch.old) }
    ensures taken { stretch.new ≡ pick (ltb left result) stretch.old
        (fill unblocked 0 (length stretch.old) stretch.old) }
{
    let count = count_idle(stretch);
    if count == 0 {
        return 0;
    }
    if left < count {
        return count;
    }
    reserve_idle(stretch);
    count
}

// How far a row is filled: the slots that are done, the fragments that are left, and the position before which none is reserved.
#[derive(Clone, Copy)]
struct Front {
    slots: usize,
    left: usize,
    from: usize,
}

// Where the reserved positions begin, of a row that is filled up to `at`: there, while all of the load is left.
fn begins(left: usize, load: usize, at: usize, from: usize) -> usize
    ensures { result ≡ pick (eqb left load) at from }
{
    if left == load {
        return at;
    }
    from
}

// Fills the first slots of a row, eight at a time, as long as there is a fragment for each idle position of these eight. No position of them is looked at
// by itself.
#[tactic(auto, using(crate::proofs::Pieces::piece_in))]
fn fill_front(row: &mut [u8], slots: usize, channels: usize, load: usize) -> Front
    requires { (channels ≤ 16) × (length row.old ≡ slots * channels) }
    ensures within { result.slots ≤ slots }
    ensures filled { row.new ≡ fill unblocked 0 load (take (result.slots * channels) row.old)
        ++ drop (result.slots * channels) row.old }
    ensures left { result.left ≡ unmet unblocked 0 load (take (result.slots * channels) row.old) }
    ensures from { (result.from ≤ result.slots * channels) × (unmet unblocked 0 load (take result.from row.old) ≡ load) }
    ensures pieces { result.slots ≡ 8 * whole_pieces slots (8 * channels) load row.old }
    ensures start { result.from ≡ fill_start (8 * channels) load row.old (whole_pieces slots (8 * channels) load row.old) }
{
    let size = 8 * channels;
    let pieces = slots / 8;
    let mut left = load;
    let mut from: usize = 0;
    for piece in 0..pieces {
        let front = Front {
            slots: 8 * piece,
            left,
            from,
        };
        if left == 0 {
            return front;
        }
        let at = piece * size;
        let to = at + size;
        let count = take_idle(&mut row[at..to], left);
        if left < count {
            return front;
        }
        left -= count;
        from = begins(left, load, to, from);
    }
    Front {
        slots: 8 * pieces,
        left,
        from,
    }
}

// A row that is filled: how many fragments found no place, and the stretch outside which every byte is as it was.
#[derive(Clone, Copy)]
pub struct Filled {
    pub left: usize,
    pub from: usize,
    pub to: usize,
}

// Where the filling of a row ends at most, whose first slots are filled as a whole: there, where nothing is left, and else within eight slots more.
fn ends(left: usize, done: usize, slots: usize, channels: usize) -> usize
    requires { (channels ≤ 16) × (done ≤ slots) × (slots * channels < 2 ^ 64) }
    ensures { result ≡ pick (eqb left 0) done (min (done + 8) slots) * channels }
{
    if left == 0 {
        return done * channels;
    }
    if 8 <= slots - done {
        return (done + 8) * channels;
    }
    slots * channels
}

// What is done of a row and what is left after the half of a piece: four slots.
#[derive(Clone, Copy)]
struct Half {
    slots: usize,
    left: usize,
}

// Fills four slots more of a row whose first `done` slots are filled, where there is a fragment for each idle position of them; else the row stays.
fn fill_half(row: &mut [u8], slots: usize, channels: usize, done: usize, left: usize) -> Half
    requires { (channels ≤ 16) × (done ≤ slots) × (length row.old ≡ slots * channels) }
    ensures within { result.slots ≤ slots }
    ensures filled { take (result.slots * channels) row.new ++ fill unblocked (result.slots * channels) result.left (drop (result.slots * channels) row.new)
        ≡ take (done * channels) row.old ++ fill unblocked (done * channels) left (drop (done * channels) row.old) }
    ensures left { unmet unblocked (result.slots * channels) result.left (drop (result.slots * channels) row.new)
        ≡ unmet unblocked (done * channels) left (drop (done * channels) row.old) }
{
    if left == 0 {
        return Half { slots: done, left };
    }
    if slots - done < 4 {
        return Half { slots: done, left };
    }
    let at = done * channels;
    let to = at + 4 * channels;
    let count = take_idle(&mut row[at..to], left);
    if left < count {
        return Half { slots: done, left };
    }
    Half {
        slots: done + 4,
        left: left - count,
    }
}

// Reserves the first `load` idle positions of a row.
// The first slots go eight at a time, and then perhaps four, so that at most eight are looked at here, and mostly four. Each byte is raised by what it takes,
// 1 or 0, and so is stored without a branch: in a row of mixed bytes a branch would often be guessed wrong.
pub fn fill_row(row: &mut [u8], slots: usize, channels: usize, load: usize) -> Filled
    requires { (channels ≤ 16) × (length row.old ≡ slots * channels) }
    ensures filled { row.new ≡ fill unblocked 0 load row.old }
    ensures answer { result ≡ filled_by slots channels load row.old }
    ensures stretch { SameBut result.from result.to row.old row.new }
{
    let front = fill_front(row, slots, channels, load);
    let from = front.from;
    let to = ends(front.left, front.slots, slots, channels);
    let half = fill_half(row, slots, channels, front.slots, front.left);
    let mut left = half.left;
    // The place is counted: computed from slot and channel, it took 6 to 8 in a hundred longer.
    let mut at = half.slots * channels;
    'slots: for _slot in half.slots..slots {
        for _channel in 0..channels {
            if left == 0 {
                break 'slots;
            }
            let byte = row[at];
            let taken = idle(byte);
            row[at] = byte + taken;
            left -= taken as usize;
            at += 1;
        }
    }
    Filled {
        left: left,
        from: from,
        to: to,
    }
}

// A byte of a row, where an earlier clashing row holds `earlier`.
pub fn mark(earlier: u8, byte: u8) -> u8
    ensures { result ≡ pick (sends earlier) 2 byte }
{
    if earlier == 1 { 2 } else { byte }
}

// Forbids, in row `i` of a table with rows of `n` bytes, each position that the earlier row `j` reserves: all of these lie from `start` to `end`.
// A byte is stored at each position of that stretch, marked or as it was, so that the loop has no branch.
pub fn forbid_row(table: &mut [u8], n: usize, j: usize, i: usize, start: usize, end: usize)
    requires j_lt_i { (j < i) × (i * n + n ≤ length table.old) }
    requires sends_in { SendsIn n table.old j start end }
    ensures { table.new ≡ put (i * n) n (forbid (part (j * n) n table.old) (part (i * n) n table.old))
        table.old }
{
    let from = j * n;
    let to = i * n;
    for p in start..end {
        table[to + p] = mark(table[from + p], table[to + p]);
    }
}

// A byte of a row, where it takes the marks of an earlier row over, which holds `earlier` there.
pub fn cover(earlier: u8, byte: u8) -> u8
    ensures { result ≡ pick (eqb earlier 0) byte 2 }
{
    if earlier == 0 { byte } else { 2 }
}

// Forbids, in row `i`, each position at which the earlier row `j` is not idle: all that it reserves, and all that is forbidden there.
pub fn cover_row(table: &mut [u8], n: usize, j: usize, i: usize)
    requires { (j < i) × (i * n + n ≤ length table.old) }
    ensures { table.new ≡ put (i * n) n (list_of (cover_at n table.old j i) n) table.old }
{
    let from = j * n;
    let to = i * n;
    for p in 0..n {
        table[to + p] = cover(table[from + p], table[to + p]);
    }
}

// Makes every byte idle.
pub fn clear(bytes: &mut [u8])
    ensures { bytes.new ≡ replicate (length bytes.old) 0 }
{
    for p in 0..bytes.len() {
        bytes[p] = 0;
    }
}

// Lays a mask over a row: it becomes the mask's first bytes.
pub fn lay_mask(row: &mut [u8], mask: &[u8])
    requires { length row.old ≤ length mask.now }
    ensures { row.new ≡ take (length row.old) mask.now }
{
    for p in 0..row.len() {
        row[p] = mask[p];
    }
}

// A byte without its bar.
fn lower(byte: u8) -> u8
    ensures { result ≡ byte % 4 }
{
    byte % 4
}

// Makes the barred positions of a row idle again.
pub fn lift(row: &mut [u8])
    ensures { row.new ≡ lifted row.old }
{
    for p in 0..row.len() {
        row[p] = lower(row[p]);
    }
}
