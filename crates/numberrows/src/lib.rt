// The numbering of cells over their clash rows, arrays in new numbers, and the rows of a table carried back. Sets of cells are words, bit j for cell j.
//
// What it costs: at most 32 rounds, and in each the cells that are left are looked at from the highest down, each by the cells that it clashes with.
#![tactic(auto)]

ghost use Rattle.std.specs.Prelude.{◌≡◌, ◌+◌, ◌*◌, ◌^◌, ◌≤◌, ◌<◌, length, get_or};
ghost use Rattle.laws.specs.Bits.{bit_at, bit_in, word_of};
ghost use Rattle.laws.specs.Choice.{pick};
ghost use Rattle.laws.specs.Part.{part, put};
ghost use Rattle.renumbering.specs.Numbering.{last, numbering, index_at};
ghost use Rattle.renumbering.specs.Carry.{carried};
ghost use Rattle.numberrows.specs.Words.{misses_in, close_in, fit_in};
ghost use Rattle.numberrows.specs.Numbers.{numbers_of, NamesCells, moved_by, moved_rows};

use words::{apart, has};

// The new number of each old cell and the old number of each new one, from 1, 0 past the cells.
#[derive(Clone, Copy)]
pub struct Numbers {
    pub new: [u16; 32],
    pub old: [u16; 32],
}

// Whether one of `near`, other than cell a, is not in the row of a.
fn misses(near: u32, row: u32, a: usize) -> bool
    requires { a < 32 }
    ensures { result ≡ misses_in near row a }
{
    apart(near, row | (1 << a)) != 0
}

// Whether the cells of `near` are all in one another's rows.
pub fn all_clash(rows: &[u32; 32], near: u32) -> bool
    ensures { result ≡ close_in rows.now near }
{
    let mut rest = near;
    // From member to member of a word: no index is counted.
    while rest != 0 {
        let a = u32::trailing_zeros(rest) as usize;
        if misses(near, rows[a], a) {
            return false;
        }
        rest = rest & (rest - 1);
    }
    true
}

// Whether cell i is left, and its clashing cells among those left all clash with one another.
fn fits(rows: &[u32; 32], left: u32, i: usize) -> bool
    requires { i < 32 }
    ensures { result ≡ fit_in rows.now left i }
{
    if has(left, i) {
        return all_clash(rows, rows[i] & left);
    }
    false
}

// The highest such cell, counted from 1; 0 where there is none.
fn highest_fit(rows: &[u32; 32], cells: usize, left: u32) -> usize
    requires { cells ≤ 32 }
    ensures { result ≡ last (fit_in rows.now left) cells }
{
    for i in (0..cells).rev() {
        if fits(rows, left, i) {
            return i + 1;
        }
    }
    0
}

// The numbering of so many cells, whose clashes are the bits of the rows; none where there is none. The last number is given first.
#[tactic(auto, using(crate::proofs::Words::found_within))]
pub fn number_cells(rows: &[u32; 32], cells: usize) -> Option<Numbers>
    requires { cells ≤ 32 }
    ensures { result ≡ numbers_of (numbering 32 (bit_in rows.now) cells) }
{
    let mut new = [0u16; 32];
    let mut old = [0u16; 32];
    let mut left = square::low_bits(cells);
    for m in (0..cells).rev() {
        let h = highest_fit(rows, cells, left);
        if h == 0 {
            return None;
        }
        let i = h - 1;
        new[i] = (m + 1) as u16;
        old[m] = h as u16;
        left = apart(left, 1 << i);
    }
    Some(Numbers { new, old })
}

// The index of the cell that the number at a names.
pub fn cell_at(numbers: &[u16; 32], a: usize) -> usize
    requires { (a < 32) × (0 < get_or numbers.now a 0) × (index_at numbers.now a < 32) }
    ensures { (result ≡ index_at numbers.now a) × (result < 32) }
{
    numbers[a] as usize - 1
}

// The loads of so many cells in new numbers.
pub fn moved_loads(loads: &[u16; 32], old: &[u16; 32], cells: usize) -> [u16; 32]
    requires { (cells ≤ 32) × NamesCells cells old.now }
    ensures { result ≡ moved_by old.now cells loads.now }
{
    let mut moved = [0u16; 32];
    for a in 0..cells {
        moved[a] = loads[cell_at(old, a)];
    }
    moved
}

// Rows of bits with their rows in new numbers, and their bits as they were.
fn moved_words(rows: &[u32; 32], old: &[u16; 32], cells: usize) -> [u32; 32]
    requires { (cells ≤ 32) × NamesCells cells old.now }
    ensures { result ≡ moved_by old.now cells rows.now }
{
    let mut moved = [0u32; 32];
    for a in 0..cells {
        moved[a] = rows[cell_at(old, a)];
    }
    moved
}

// Bit `to` where a row has bit `from`, else 0.
fn moved_bit(row: u32, from: usize, to: usize) -> u32
    requires { (from < 32) × (to < 32) }
    ensures { result ≡ pick (bit_at row from) (2 ^ to) 0 }
{
    if (row >> from) % 2 == 1 {
        return 1 << to;
    }
    0
}

// A row with the bits of so many cells in new numbers.
fn moved_bits(row: u32, old: &[u16; 32], cells: usize) -> u32
    requires { (cells ≤ 32) × NamesCells cells old.now }
    ensures { result ≡ word_of (λ b. bit_at row (index_at old.now b)) cells }
{
    let mut word: u32 = 0;
    for b in 0..cells {
        word = word | moved_bit(row, cell_at(old, b), b);
    }
    word
}

// Rows of bits with rows and bits in new numbers, bit by bit: quicker where the cells are few.
fn few_moved(rows: &[u32; 32], old: &[u16; 32], cells: usize) -> [u32; 32]
    requires { (cells ≤ 32) × NamesCells cells old.now }
    ensures { result ≡ moved_rows old.now cells rows.now }
{
    let mut moved = [0u32; 32];
    for a in 0..cells {
        moved[a] = moved_bits(rows[cell_at(old, a)], old, cells);
    }
    moved
}

// The same a word at a time: the rows are moved, then, turned over, the bits.
fn many_moved(rows: &[u32; 32], old: &[u16; 32], cells: usize) -> [u32; 32]
    requires { (cells ≤ 32) × NamesCells cells old.now }
    ensures { result ≡ moved_rows old.now cells rows.now }
{
    let columns = square::turned(moved_words(rows, old, cells));
    square::turned(moved_words(&columns, old, cells))
}

// Rows of bits with rows and bits in new numbers: bit by bit up to 12 cells.
pub fn moved_rows(rows: &[u32; 32], old: &[u16; 32], cells: usize) -> [u32; 32]
    requires { (cells ≤ 32) × NamesCells cells old.now }
    ensures { result ≡ moved_rows old.now cells rows.now }
{
    if 12 < cells {
        return many_moved(rows, old, cells);
    }
    few_moved(rows, old, cells)
}

// Copies row a of one table to row b of another, byte for byte. Rows have `width` bytes.
fn copy_row(from: &[u8], to: &mut [u8], a: usize, b: usize, width: usize)
    requires { (a * width + width ≤ length from.now) × (b * width + width ≤ length to.old) }
    ensures { to.new ≡ put (b * width) width (part (a * width) width from.now) to.old }
{
    let start = a * width;
    let end = start + width;
    let to_start = b * width;
    let to_end = to_start + width;
    to[to_start..to_end].copy_from_slice(&from[start..end]);
}

// Carries the rows of a table in new numbers into one in old numbers: row i from the row of its new number.
pub fn carry_rows(from: &[u8], to: &mut [u8], new: &[u16; 32], cells: usize, width: usize)
    requires { (cells ≤ 32) × (cells * width ≤ length from.now) × (cells * width ≤ length to.old) × NamesCells cells new.now }
    ensures { to.new ≡ carried (index_at new.now) width from.now to.old cells }
{
    for i in 0..cells {
        copy_row(from, to, cell_at(new, i), i, width);
    }
}
