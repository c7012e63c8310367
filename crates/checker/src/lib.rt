// The checker of finished tables: the first reservation on a blocked position, then the first clash, then the first wrong number of reservations.
//
// What it costs, for I cells and N positions: each row is read once, a block of 128 positions at a time, sixteen bytes at once, and each block becomes two
// words of 64 bits, which are held against those of the cells above it in its clash row; and each row is counted where it stands in the table (I times N steps,
// sixteen or more bytes at once). The search for a clash ends at the first block that has one. Fewer than 128 positions are looked at by a word for each, which
// every cell is joined to. Pairs of cells are looked at at one position, the one that the answer names. Nothing of the table is copied; the local room is two
// words for each cell, or for each of 64 positions.
// Where some of 128 positions are blocked, each row is read there once more; where none is, only their two words are looked at.
#![tactic(auto)]

ghost use Rattle.std.specs.Prelude.{◌≡◌, ◌&&◌, not, ◌+◌, ◌-◌, ◌*◌, ◌%◌, ◌≤◌, ◌<◌, eqb, length};
ghost use Rattle.laws.specs.Bits.{bit_at, bit_in, word_of};
ghost use Rattle.laws.specs.Choice.{pick};
ghost use Rattle.laws.specs.Search.{first};
ghost use Rattle.theory.specs.Net.{unblocked};
ghost use Rattle.theory.specs.Greedy.{sends, reserved};
ghost use Rattle.theory.specs.Verdict.{barred_at, lowest_barred, lowest_clash, open_verdict, table_verdict};
ghost use Rattle.site.specs.Reach.{is_open, net_in};
ghost use Rattle.checker.specs.Marks.{bar_net, clash_net, clashing_in, held_in, mark_set, Marks, held_row};
ghost use Rattle.blocks.specs.Order.{low_order, high_order, bit_of_two};
ghost use Rattle.checker.specs.Check.{verdict_of, check_answer};
ghost use Rattle.checker.specs.declared.CheckError.TheVariants.{Record};
ghost use Rattle.laws.specs.Part.{Zeros};

use blocks::{Block, block_of, block_of_bits, lowest_place};
use clashblocks::block_clash;
use rowcounts::{cell_count, lowest_wrong};
use site::{Fault, Site};

// Why a table is not valid. Cells are numbered from 1, positions from 0.
// Blocked: position, cell. Clash: position, first cell, second cell. Count: cell, its count. Record: what is wrong with the record.
#[derive(Clone, Copy)]
pub enum CheckError {
    TableShort,
    Blocked(usize, usize),
    Clash(usize, usize, usize),
    Count(usize, usize),
    Record(Fault),
}

impl From<Fault> for CheckError {
    ghost from_gives = { λ f e. e ≡ Record f };

    fn from(fault: Fault) -> CheckError {
        CheckError::Record(fault)
    }
}

// Marks each of m positions, from `from` on, that has a clash: there the mark is not 0. Cells are joined from the highest down, so each meets those
// above it. The words and marks that are lent are 0.
fn mark_clashes(
    words: &mut [u32],
    marks: &mut [u32],
    table: &[u8],
    n: usize,
    from: usize,
    m: usize,
    clash: &[u32; 32],
    cells: usize,
)
    requires cells_bound { (cells ≤ 32) × (m ≤ length words.old) × (m ≤ length marks.old) × (from + m ≤ n) × (cells * n ≤ length table.now) }
    requires zeros { Zeros m words.old × Zeros m marks.old }
    ensures { Marks (clashing_in cells n clash.now table.now) from m marks.new }
{
    for a in (0..cells).rev() {
        words::join_row(words, marks, table, a * n + from, m, 1 << a, clash[a]);
    }
}

// The lowest of the first n positions that is marked; n where there is none.
#[tactic(auto, using(laws::proofs::Search::found, laws::proofs::Search::missed, laws::proofs::Search::ended))]
fn lowest_marked(marks: &[u32], n: usize) -> usize
    requires { n ≤ length marks.now }
    ensures { result ≡ first (mark_set marks.now) 0 n }
{
    for p in 0..n {
        if marks[p] != 0 {
            return p;
        }
    }
    n
}

// The lowest of m positions, from `from` on, that has a clash, counted from `from`; m where there is none.
fn clash_in(table: &[u8], n: usize, from: usize, m: usize, clash: &[u32; 32], cells: usize) -> usize
    requires { (cells ≤ 32) × (m ≤ 64) × (from + m ≤ n) × (cells * n ≤ length table.now) }
    ensures { result ≡ first (λ k. clashing_in cells n clash.now table.now (from + k)) 0 m }
{
    let mut words = [0u32; 64];
    let mut marks = [0u32; 64];
    mark_clashes(&mut words, &mut marks, table, n, from, m, clash, cells);
    lowest_marked(&marks, m)
}

// The lowest of the 128 positions from `at` on that has a clash, counted from `at`; 128 where there is none.
fn clash_block(table: &[u8], n: usize, at: usize, clash: &[u32; 32], cells: usize) -> usize
    requires { (cells ≤ 32) × (at + 128 ≤ n) × (cells * n ≤ length table.now) }
    ensures { result ≡ first (λ k. clashing_in cells n clash.now table.now (at + k)) 0 128 }
{
    let met = block_clash(table, n, at, clash, cells);
    lowest_place(met.low, met.high)
}

// The lowest position with a clash, a block at a time; n where there is none. The last block may begin inside the one before it.
fn clash_by_blocks(table: &[u8], n: usize, clash: &[u32; 32], cells: usize) -> usize
    requires { (cells ≤ 32) × (128 ≤ n) × (cells * n ≤ length table.now) }
    ensures { result ≡ lowest_clash (clash_net cells n clash.now) (reserved n table.now) }
{
    for from in (0..n).step_by(128) {
        let at = from.min(n - 128);
        let p = clash_block(table, n, at, clash, cells);
        if p < 128 {
            return at + p;
        }
    }
    n
}

// The lowest position with a clash, 64 positions at a time; n where there is none.
fn clash_by_words(table: &[u8], n: usize, clash: &[u32; 32], cells: usize) -> usize
    requires { (cells ≤ 32) × (cells * n ≤ length table.now) }
    ensures { result ≡ lowest_clash (clash_net cells n clash.now) (reserved n table.now) }
{
    for from in (0..n).step_by(64) {
        let m = (n - from).min(64);
        let p = clash_in(table, n, from, m, clash, cells);
        if p < m {
            return from + p;
        }
    }
    n
}

// The lowest position with a clash; n where there is none. Fewer positions than a block has are looked at by words.
fn lowest_clash(table: &[u8], n: usize, clash: &[u32; 32], cells: usize) -> usize
    requires { (cells ≤ 32) × (cells * n ≤ length table.now) }
    ensures { result ≡ lowest_clash (clash_net cells n clash.now) (reserved n table.now) }
{
    if n < 128 {
        return clash_by_words(table, n, clash, cells);
    }
    clash_by_blocks(table, n, clash, cells)
}

// A mark that is set where a byte is a reservation, and else as it was.
fn seen(mark: u8, byte: u8) -> u8
    ensures { result ≡ pick (sends byte) 1 mark }
{
    if byte == 1 {
        return 1;
    }
    mark
}

// Marks each of m positions whose byte, from `from` on, is a reservation. One pass without a branch.
fn hold_row(marks: &mut [u8], table: &[u8], from: usize, m: usize)
    requires { (m ≤ length marks.old) × (from + m ≤ length table.now) }
    ensures { marks.new ≡ held_row marks.old table.now from m }
{
    for p in 0..m {
        marks[p] = seen(marks[p], table[from + p]);
    }
}

// Marks each of m positions, from `from` on, that some cell reserves. The marks that are lent are 0.
fn mark_held(marks: &mut [u8], table: &[u8], n: usize, from: usize, m: usize, cells: usize)
    requires cells_bound { (cells ≤ 32) × (m ≤ length marks.old) × (from + m ≤ n) × (cells * n ≤ length table.now) }
    requires zeros { Zeros m marks.old }
    ensures { Marks (held_in cells n table.now) from m marks.new }
{
    for i in 0..cells {
        hold_row(marks, table, i * n + from, m);
    }
}

// Whether a mark is set and its bit is in the word.
fn mark_in(word: u64, mark: u8, p: usize) -> bool
    requires { p < 64 }
    ensures { result ≡ (bit_at word p && not (eqb mark 0)) }
{
    if (word >> p) % 2 == 1 {
        return mark != 0;
    }
    false
}

// The lowest of the first m positions that is marked and in the word; m where there is none.
#[tactic(auto, using(laws::proofs::Search::found, laws::proofs::Search::missed, laws::proofs::Search::ended))]
fn lowest_in(word: u64, marks: &[u8], m: usize) -> usize
    requires { (m ≤ length marks.now) × (m ≤ 64) }
    ensures { result ≡ first (λ k. bit_at word k && mark_set marks.now k) 0 m }
{
    for k in 0..m {
        if mark_in(word, marks[k], k) {
            return k;
        }
    }
    m
}

// The lowest of m positions, from `from` on, that is in the word and that some cell reserves, counted from `from`; m where there is none.
fn barred_in(table: &[u8], n: usize, from: usize, m: usize, word: u64, cells: usize) -> usize
    requires { (cells ≤ 32) × (m ≤ 64) × (from + m ≤ n) × (cells * n ≤ length table.now) }
    ensures { result ≡ first (λ k. bit_at word k && held_in cells n table.now (from + k)) 0 m }
{
    if word == 0 {
        return m;
    }
    let mut marks = [0u8; 64];
    mark_held(&mut marks, table, n, from, m, cells);
    lowest_in(word, &marks, m)
}

// The positions of a block that some cell reserves.
fn held_block(table: &[u8], n: usize, from: usize, cells: usize) -> Block
    requires { (cells ≤ 32) × (from + 128 ≤ n) × (cells * n ≤ length table.now) }
    ensures low { result.low ≡ word_of (low_order (λ k. held_in cells n table.now (from + k))) 64 }
    ensures high { result.high ≡ word_of (high_order (λ k. held_in cells n table.now (from + k))) 64 }
{
    let mut low: u64 = 0;
    let mut high: u64 = 0;
    for i in 0..cells {
        let b = block_of(table, i * n + from);
        low = low | b.low;
        high = high | b.high;
    }
    Block {
        low: low,
        high: high,
    }
}

// The lowest of the 128 positions from `from` on that is a bit of two words and that some cell reserves, counted from `from`; 128 where there is none.
fn barred_block(table: &[u8], n: usize, from: usize, x: u64, y: u64, cells: usize) -> usize
    requires { (cells ≤ 32) × (from + 128 ≤ n) × (cells * n ≤ length table.now) }
    ensures { result ≡ first (λ k. bit_of_two x y k && held_in cells n table.now (from + k)) 0 128 }
{
    if (x | y) == 0 {
        return 128;
    }
    let shut = block_of_bits(x, y);
    let held = held_block(table, n, from, cells);
    lowest_place(shut.low & held.low, shut.high & held.high)
}

// The lowest blocked position at or past `from` that some cell reserves, 64 positions at a time; n where there is none.
fn barred_by_words(table: &[u8], n: usize, from: usize, blocked: &[u64; 32], cells: usize) -> usize
    requires { (cells ≤ 32) × (n ≤ 2048) × (cells * n ≤ length table.now) × (from ≤ n) × (from % 64 ≡ 0) }
    ensures { result ≡ first (barred_at (bar_net cells n blocked.now) (reserved n table.now)) from n }
{
    for at in (from..n).step_by(64) {
        let m = (n - at).min(64);
        let p = barred_in(table, n, at, m, blocked[at / 64], cells);
        if p < m {
            return at + p;
        }
    }
    n
}

// The lowest blocked position that some cell reserves, a block at a time, and past the last block by words; n where there is none.
fn lowest_barred(table: &[u8], n: usize, blocked: &[u64; 32], cells: usize) -> usize
    requires { (cells ≤ 32) × (n ≤ 2048) × (cells * n ≤ length table.now) }
    ensures { result ≡ lowest_barred (bar_net cells n blocked.now) (reserved n table.now) }
{
    let blocks = n / 128 * 128;
    for from in (0..blocks).step_by(128) {
        let q = barred_block(
            table,
            n,
            from,
            blocked[from / 64],
            blocked[from / 64 + 1],
            cells,
        );
        if q < 128 {
            return from + q;
        }
    }
    barred_by_words(table, n, blocks, blocked, cells)
}

// The verdict on a table that is long enough, with no reservation on a blocked position: its first clash, else its first wrong count.
#[tactic(auto, using(crate::proofs::Judged::open_laws))]
fn judge_open(
    table: &[u8],
    n: usize,
    clash: &[u32; 32],
    loads: [u16; 32],
    cells: usize,
) -> Result<(), CheckError>
    requires { (cells ≤ 32) × (n ≤ 2048) × (cells * n ≤ length table.now) }
    ensures { result ≡ verdict_of (open_verdict (net_in cells n loads (bit_in clash.now) unblocked) (reserved n table.now)) }
{
    let p = lowest_clash(table, n, clash, cells);
    if p < n {
        let word = words::word_at(table, n, cells, p);
        let a = words::first_in(word, clash, cells);
        let c = words::second_in(word, clash, cells, a);
        return Err(CheckError::Clash(p, a + 1, c + 1));
    }
    let i = lowest_wrong(table, n, loads, cells);
    if i < cells {
        return Err(CheckError::Count(i + 1, cell_count(table, n, i)));
    }
    Ok(())
}

// The verdict on a table that is long enough: its first reservation on a blocked position, there of the lowest cell, else what is said without them.
#[tactic(auto, using(crate::proofs::Judged::barred_laws))]
fn judge(
    table: &[u8],
    n: usize,
    clash: &[u32; 32],
    loads: [u16; 32],
    cells: usize,
    blocked: &[u64; 32],
) -> Result<(), CheckError>
    requires { (cells ≤ 32) × (n ≤ 2048) × (cells * n ≤ length table.now) }
    ensures { result ≡ verdict_of (table_verdict (net_in cells n loads (bit_in clash.now) (is_open blocked.now)) (reserved n table.now)) }
{
    let p = lowest_barred(table, n, blocked, cells);
    if p < n {
        let word = words::word_at(table, n, cells, p);
        return Err(CheckError::Blocked(p, words::lowest(word, 0, cells) + 1));
    }
    judge_open(table, n, clash, loads, cells)
}

// Whether a table is valid for a site; if not, its first reservation on a blocked position, else its first clash, else its first wrong count.
// Refuses a site at fault, then a table that is too short.
#[tactic(auto, using(crate::proofs::Judged::sizes_known), unfolding(crate::specs::Check::check_answer))]
pub fn check(site: Site, table: &[u8]) -> Result<(), CheckError>
    ensures { result ≡ check_answer site table.now }
{
    site.accepted()?;
    let cells = site.cells as usize;
    let n = (site.slots as usize) * (site.channels as usize);
    if table.len() < cells * n {
        return Err(CheckError::TableShort);
    }
    let clash = site.clash_rows();
    let loads = site.loads;
    let blocked = site.blocked;
    judge(table, n, &clash, loads, cells, &blocked)
}
