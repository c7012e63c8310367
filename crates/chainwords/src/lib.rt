// The chain rule and the class over words: the clash rows, and the word of the cells that count.
// Each search goes from one cell of a word to the next without a look at those between.
#![tactic(auto)]

ghost use Rattle.std.specs.Prelude.{◌≡◌, ◌≤◌, ◌<◌};
ghost use Rattle.laws.specs.Bits.{bit_at, bit_in};
ghost use Rattle.theory.specs.Verdict.{first_break};
ghost use Rattle.chainwords.specs.Chain.{chain_in, gap_in, break_in, far_in, split_in, first_split_in};

use words::{has, lowest};

// The first cell between a and c that counts and is not in the clash row of a; c where there is none.
pub fn gap(row: u32, who: u32, a: usize, c: usize) -> usize
    requires { (a < c) × (c ≤ 32) }
    ensures { result ≡ gap_in row who a c }
{
    lowest(who & !row, a + 1, c)
}

// The first cell above a that breaks the chain with it: the first that clashes with a past the first that does not. The number of cells where there is none.
pub fn break_of(row: u32, who: u32, a: usize, cells: usize) -> usize
    requires { (a < cells) × (cells ≤ 32) }
    ensures { result ≡ break_in row who a cells }
{
    if !has(who, a) {
        return cells;
    }
    let b = gap(row, who, a, cells);
    lowest(who & row, b, cells)
}

// The first cell that some cell breaks the chain with; the number of cells where there is none.
#[tactic(auto, using(crate::proofs::Rows::break_laws), unfolding(theory::specs::Verdict::first_break))]
pub fn first_break(clash: &[u32; 32], who: u32, cells: usize) -> usize
    requires { cells ≤ 32 }
    ensures { result ≡ first_break (chain_in cells (bit_in clash.now)) (bit_at who) }
{
    for a in 0..cells {
        if break_of(clash[a], who, a, cells) < cells {
            return a;
        }
    }
    cells
}

// The first cell of `near`, the cells that count and clash with i, that does not clash with a later one of them below i; i where there is none.
fn first_far(clash: &[u32; 32], near: u32, i: usize) -> usize
    requires { i ≤ 32 }
    ensures { result ≡ far_in clash.now near i }
{
    let mut a = lowest(near, 0, i);
    // From member to member of a word: no index is counted.
    while a < i {
        if gap(clash[a], near, a, i) < i {
            return a;
        }
        a = lowest(near, a + 1, i);
    }
    a
}

// The first cell below i that clashes with i and not with a later one that does; i where there is none, or i does not count.
pub fn split_of(clash: &[u32; 32], who: u32, i: usize) -> usize
    requires { i < 32 }
    ensures { result ≡ split_in clash.now who i }
{
    if !has(who, i) {
        return i;
    }
    first_far(clash, who & clash[i], i)
}

// The first cell with two lower clashing cells that do not clash; the number of cells where there is none.
#[tactic(auto, using(crate::proofs::Rows::split_laws), unfolding(crate::specs::Chain::first_split_in))]
pub fn first_split(clash: &[u32; 32], who: u32, cells: usize) -> usize
    requires { cells ≤ 32 }
    ensures { result ≡ first_split_in clash.now who cells }
{
    for i in 0..cells {
        if split_of(clash, who, i) < i {
            return i;
        }
    }
    cells
}
