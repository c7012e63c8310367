// A row of bytes packed into words of 64 positions: position k is bit k % 64 of word k / 64. By blocks of 128 positions, each first in the order of a block.
#![tactic(auto)]

ghost use Rattle.std.specs.Prelude.{◌≡◌, ◌+◌, ◌-◌, ◌*◌, ◌^◌, ◌≤◌, ◌<◌, length, get_or};
ghost use Rattle.std.proofs.lemmas.List.Edits.{sets};
ghost use Rattle.laws.specs.Bits.{word_of};
ghost use Rattle.laws.specs.Choice.{pick};
ghost use Rattle.laws.specs.Part.{list_of};
ghost use Rattle.theory.specs.Greedy.{sends};
ghost use Rattle.blocks.specs.Order.{low_sends, high_sends};
ghost use Rattle.positions.specs.Blocked.{word_in};
ghost use Rattle.packing.specs.Packed.{in_row, block_word, plain_word, one_of};

use blocks::{Block, block_of};
use blockwords::{first_plain, second_plain};

// Stores the words of the first m blocks of a row, each in the order of a block.
fn put_blocks(set: &mut [u64], row: &[u8], m: usize)
    requires { (128 * m ≤ length row.now) × (2 * m ≤ length set.old) }
    ensures { set.new ≡ sets set.old 0 (list_of (block_word row.now) (2 * m)) }
{
    for k in 0..m {
        let block = block_of(row, 128 * k);
        set[2 * k] = block.low;
        set[2 * k + 1] = block.high;
    }
}

// Puts the words of the first m blocks in the order of the positions. A loop of its own: the compiler makes vector code of it.
fn put_plain(set: &mut [u64], m: usize)
    requires { 2 * m ≤ length set.old }
    ensures { set.new ≡ sets set.old 0 (list_of (plain_word set.old) (2 * m)) }
{
    for k in 0..m {
        let x = set[2 * k];
        let y = set[2 * k + 1];
        set[2 * k] = first_plain(x, y);
        set[2 * k + 1] = second_plain(x, y);
    }
}

// Copies the row's bytes from `from` on.
fn copy_rest(bytes: &mut [u8], row: &[u8], from: usize)
    requires { (from ≤ length row.now) × (length row.now ≤ from + length bytes.old) }
    ensures { bytes.new
        ≡ sets bytes.old 0 (list_of (λ i. get_or row.now (from + i) 0) (length row.now - from)) }
{
    let n = row.len() - from;
    for i in 0..n {
        bytes[i] = row[from + i];
    }
}

// The block that begins at `from`, of which the row may have less than the whole: what it lacks is idle.
fn last_block(row: &[u8], from: usize) -> Block
    requires { (from ≤ length row.now) × (length row.now ≤ from + 128) }
    ensures low { result.low ≡ word_of (low_sends row.now from) 64 }
    ensures high { result.high ≡ word_of (high_sends row.now from) 64 }
{
    let mut bytes = [0u8; 128];
    copy_rest(&mut bytes, row, from);
    block_of(&bytes, 0)
}

// The first word of two, the second, and then 0.
fn one_of(d: usize, x: u64, y: u64) -> u64
    ensures { result ≡ one_of x y d }
{
    if d == 0 {
        return x;
    }
    if d == 1 {
        return y;
    }
    0
}

// Stores n words from word `at` on: two, and then 0.
fn put_two(set: &mut [u64], at: usize, n: usize, x: u64, y: u64)
    requires { at + n ≤ length set.old }
    ensures { set.new ≡ sets set.old at (list_of (one_of x y) n) }
{
    for d in 0..n {
        set[at + d] = one_of(d, x, y);
    }
}

// Stores the words from word 2 m on, of a row that has at most 128 positions from there on.
fn put_last(set: &mut [u64], row: &[u8], m: usize, w: usize)
    requires { (128 * m ≤ length row.now) × (length row.now ≤ 128 * m + 128) × (2 * m ≤ w) × (w ≤ length set.old) }
    ensures { set.new
        ≡ sets set.old (2 * m) (list_of (λ d. word_in (in_row row.now) (2 * m + d)) (w - 2 * m)) }
{
    let block = last_block(row, 128 * m);
    let low = block.low;
    let high = block.high;
    let x = first_plain(low, high);
    let y = second_plain(low, high);
    put_two(set, 2 * m, w - 2 * m, x, y);
}

// A bit's weight where a byte is a reservation, else 0.
fn weight_at(byte: u8, b: usize) -> u64
    requires { b < 64 }
    ensures { result ≡ pick (sends byte) (2 ^ b) 0 }
{
    if byte == 1 {
        return 1u64 << b;
    }
    0
}

// A row of at most 64 positions as a word, one by one.
fn short_word(row: &[u8]) -> u64
    requires { length row.now ≤ 64 }
    ensures { result ≡ word_of (in_row row.now) (length row.now) }
{
    let mut x: u64 = 0;
    let n = row.len();
    for b in 0..n {
        x = x | weight_at(row[b], b);
    }
    x
}

// Stores the words of a row of at most 64 positions.
fn put_short(set: &mut [u64], row: &[u8], w: usize)
    requires { (length row.now ≤ 64) × (w ≤ length set.old) }
    ensures { set.new ≡ sets set.old 0 (list_of (word_in (in_row row.now)) w) }
{
    let x = short_word(row);
    put_two(set, 0, w, x, 0);
}

// Stores the words of a row's reservations. Whole blocks of 128 positions first, in two passes, then the rest.
fn put_long(set: &mut [u64], row: &[u8], w: usize)
    requires { (length row.now ≤ 64 * w) × (w ≤ length set.old) }
    ensures { set.new ≡ sets set.old 0 (list_of (word_in (in_row row.now)) w) }
{
    let m = row.len() / 128;
    put_blocks(set, row, m);
    put_plain(set, m);
    if w <= 2 * m {
        return;
    }
    put_last(set, row, m, w);
}

// Stores the first w words of a row's reservations. A few positions are sooner stored one by one.
pub fn pack_words(set: &mut [u64], row: &[u8], w: usize)
    requires { (length row.now ≤ 64 * w) × (w ≤ length set.old) }
    ensures { set.new ≡ sets set.old 0 (list_of (word_in (in_row row.now)) w) }
{
    if row.len() <= 32 {
        put_short(set, row, w);
        return;
    }
    put_long(set, row, w);
}
