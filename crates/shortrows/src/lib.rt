// The row of one cell in the greedy plan, where rows have at most 64 positions: a word of each row says what is free, and the row's bytes are filled where
// they stand, slot by slot.
//
// What it costs: a step for each earlier clashing row, one for each four positions, and one for each position until the load is met.
#![tactic(auto)]

ghost use Rattle.std.specs.Prelude.{◌≡◌, not, [], ◌∷◌, ◌+◌, ◌*◌, ◌/◌, ◌%◌, ◌^◌, ◌≤◌, ◌<◌, length, get_or, set};
ghost use Rattle.std.proofs.lemmas.List.Edits.{sets};
ghost use Rattle.laws.specs.Bits.{bit_at, bit_in, word_of};
ghost use Rattle.laws.specs.Part.{list_of};
ghost use Rattle.laws.specs.Sum.{bit};
ghost use Rattle.theory.specs.Greedy.{reserved, fill, unmet};
ghost use Rattle.planrows.specs.Row.{row_planned, row_short, EitherWay};
ghost use Rattle.shortrows.specs.Short.{mark_in, any_held, WordsHeld, took_at, Vacant};

use planrows::near_of;
use setwords::{either, low_word, shared, without};

// The word of the first n positions that are not blocked, by the word of those that are.
pub fn open_word(blocked: u64, n: usize) -> u64
    requires { n ≤ 64 }
    ensures { result ≡ word_of (λ k. not (bit_at blocked k)) n }
{
    let all = low_word(n);
    without(all, blocked)
}

// The word of row `j`.
fn word_of(held: &[u64; 32], j: usize) -> u64
    requires { j < 32 }
    ensures { result ≡ get_or held.now j 0 }
{
    held[j]
}

// The words of these cells, joined. All of them are before cell `i`.
fn taken_by(held: &[u64; 32], near: u32, i: usize) -> u64
    requires { (i < 32) × (near < 2 ^ i) }
    ensures { result ≡ word_of (any_held held.now near i) 64 }
{
    let mut taken: u64 = 0;
    let mut left = near;
    // From member to member of a word: no index is counted.
    while left != 0 {
        let j = u32::trailing_zeros(left) as usize;
        taken = either(taken, word_of(held, j));
        left = left & (left - 1);
    }
    taken
}

// Four bits as four bytes, the first the lowest: each bit comes to the lowest bit of its byte.
fn spread(x: u32) -> u32
    requires { x < 16 }
    ensures { result ≡ bit (bit_at x 0) + 256 * bit (bit_at x 1) + 65536 * bit (bit_at x 2) + 16777216 * bit (bit_at x 3) }
{
    (x * 2113665) & 16843009
}

// Four bits of a word from bit p on.
fn four_bits(x: u64, p: usize) -> u32
    requires { p < 64 }
    ensures { result ≡ x / 2 ^ p % 16 }
{
    ((x >> p) % 16) as u32
}

// The marks of four positions from p on, as one number.
fn four_bytes(taken: u64, p: usize) -> u32
    requires { p < 64 }
    ensures { result ≡ mark_in taken p + 256 * mark_in taken (p + 1) + 65536 * mark_in taken (p + 2) + 16777216 * mark_in taken (p + 3) }
{
    2 * spread(four_bits(taken, p))
}

// Stores the four bytes of a number, the lowest first.
fn store_four(row: &mut [u8], at: usize, x: u32)
    requires { at + 4 ≤ length row.old }
    ensures { row.new
        ≡ sets row.old at (x % 256 ∷ x / 256 % 256 ∷ x / 65536 % 256 ∷ x / 16777216 % 256 ∷ []) }
{
    row[at] = (x % 256) as u8;
    row[at + 1] = (x / 256 % 256) as u8;
    row[at + 2] = (x / 65536 % 256) as u8;
    row[at + 3] = (x / 16777216 % 256) as u8;
}

// Writes the marks of the first 4 * m positions, four at a time.
fn lay_fours(row: &mut [u8], m: usize, taken: u64)
    requires { (4 * m ≤ length row.old) × (m ≤ 16) }
    ensures { row.new ≡ sets row.old 0 (list_of (mark_in taken) (4 * m)) }
{
    for q in 0..m {
        let at = 4 * q;
        store_four(row, at, four_bytes(taken, at));
    }
}

// The mark of one position.
fn byte_at(taken: u64, p: usize) -> u8
    requires { p < 64 }
    ensures { result ≡ mark_in taken p }
{
    ((taken >> p) % 2 * 2) as u8
}

// Writes the marks of a row of at most 64 positions: 2 where the word has a position, else 0. The last few that make no four are written one by one.
fn lay_row(row: &mut [u8], taken: u64)
    requires { length row.old ≤ 64 }
    ensures { row.new ≡ list_of (mark_in taken) (length row.old) }
{
    let n = row.len();
    let m = n / 4;
    lay_fours(row, m, taken);
    for p in 4 * m..n {
        row[p] = byte_at(taken, p);
    }
}

// 1 for a free position, and 0 for any other: whether a fragment may be placed there.
fn free_bit(free: u64, p: usize) -> u8
    requires { p < 64 }
    ensures { result ≡ bit (bit_at free p) }
{
    ((free >> p) % 2) as u8
}

// A row that is filled: how many fragments found no place, and the position before which every free one is reserved, and from which on none is.
#[derive(Clone, Copy)]
struct ShortFilled {
    left: usize,
    to: usize,
}

// Reserves the first `load` free positions of a row, in rising position. Each byte is raised by what it takes, 1 or 0, and so is stored without a branch.
fn fill_short(row: &mut [u8], slots: usize, channels: usize, free: u64, load: usize) -> ShortFilled
    requires { (length row.old ≡ slots * channels) × (slots * channels ≤ 64) × Vacant free 0 row.old }
    ensures filled { row.new ≡ fill (bit_at free) 0 load row.old }
    ensures left { result.left ≡ unmet (bit_at free) 0 load row.old }
    ensures to { row.new ≡ sets row.old 0 (list_of (took_at free row.old) result.to) }
    ensures within { result.to ≤ length row.old }
{
    let mut left = load;
    // The place is counted: computed from slot and channel, it took 6 to 8 in a hundred longer.
    let mut at: usize = 0;
    'slots: for _slot in 0..slots {
        for _channel in 0..channels {
            if left == 0 {
                break 'slots;
            }
            let byte = row[at];
            let taken = free_bit(free, at);
            row[at] = byte + taken;
            left -= taken as usize;
            at += 1;
        }
    }
    ShortFilled { left: left, to: at }
}

// Writes a row: its marks, and then the fragments at the first free positions.
fn write_row(
    row: &mut [u8],
    slots: usize,
    channels: usize,
    taken: u64,
    free: u64,
    load: usize,
) -> ShortFilled
    requires { (length row.old ≡ slots * channels) × (slots * channels ≤ 64) × Vacant free 0 (list_of (mark_in taken) (slots * channels)) }
    ensures filled { row.new ≡ fill (bit_at free) 0 load (list_of (mark_in taken) (slots * channels)) }
    ensures left { result.left ≡ unmet (bit_at free) 0 load (list_of (mark_in taken) (slots * channels)) }
    ensures to { row.new ≡ sets (list_of (mark_in taken) (slots * channels)) 0
        (list_of (took_at free (list_of (mark_in taken) (slots * channels))) result.to) }
    ensures within { result.to ≤ slots * channels }
{
    lay_row(row, taken);
    fill_short(row, slots, channels, free, load)
}

// Plans row `i`, where the rows before it are planned and have at most 64 positions, and gives how many fragments found no room. `usable` has the positions
// that may be reserved; the room that is lent has the word of each row before, and gets that of row `i`.
pub fn plan_short_row(
    table: &mut [u8],
    held: &mut [u64; 32],
    slots: usize,
    channels: usize,
    i: usize,
    load: usize,
    clash: &[u32; 32],
    usable: u64,
) -> usize
    requires i_bound { (i < 32) × (slots * channels ≤ 64) × (i * (slots * channels) + slots * channels ≤ length table.old) × (length held.old ≡ 32)
        × (usable < 2 ^ (slots * channels)) }
    requires words_held { WordsHeld (slots * channels) table.old i held.old × EitherWay clash.now }
    ensures row { table.new ≡ row_planned (slots * channels) (bit_in clash.now) (bit_at usable) i load table.old }
    ensures short { result ≡ row_short (slots * channels) (bit_in clash.now) (bit_at usable) i load table.old }
    ensures held { held.new ≡ set held.old i (word_of (reserved (slots * channels)
        (row_planned (slots * channels) (bit_in clash.now) (bit_at usable) i load table.old) i) (slots * channels)) }
{
    let near = near_of(clash, i);
    let taken = taken_by(held, near, i);
    let free = without(usable, taken);
    let n = slots * channels;
    let from = i * n;
    let to = from + n;
    let filled = write_row(&mut table[from..to], slots, channels, taken, free, load);
    held[i] = shared(free, low_word(filled.to));
    filled.left
}
