// Loads of cells: which cells have one, and what the loads of a word's cells come to. A sum of few loads goes from one cell of a word to the next without a
// look at those between.
#![tactic(auto)]

ghost use Rattle.std.specs.Prelude.{◌≡◌, ◌≤◌, ◌<◌, ltb, length, get_or};
ghost use Rattle.laws.specs.Bits.{bit_at, word_of};
ghost use Rattle.laws.specs.Choice.{pick};
ghost use Rattle.laws.specs.Most.{greater};
ghost use Rattle.loads.specs.Loads.{loads_in};

use words::lowest;

// A load as a number that sums of loads fit, with its bound.
pub fn wide(x: u16) -> u32
    ensures { (result ≡ x) × (result ≤ 65535) }
{
    x as u32
}

// The greater of two numbers.
pub fn greater(a: u32, b: u32) -> u32
    ensures { result ≡ greater a b }
{
    if a < b {
        return b;
    }
    a
}

// The bit of a cell where its load is above 0, else 0.
fn bit_of(load: u16, bit: u32) -> u32
    ensures { result ≡ pick (ltb 0 load) bit 0 }
{
    if 0 < load {
        return bit;
    }
    0
}

// The word of the cells with load above 0, of all 32: the compiler makes vector code of a pass of fixed length without a branch.
pub fn loaded(loads: &[u16; 32]) -> u32
    ensures { result ≡ word_of (λ i. ltb 0 (get_or loads.now i 0)) 32 }
{
    let mut word: u32 = 0;
    for i in 0..32 {
        word = word | bit_of(loads[i], 1 << i);
    }
    word
}

// The same of the cells below `cells`, of any lent loads.
pub fn loaded_in(loads: &[u16], cells: usize) -> u32
    requires { (cells ≤ 32) × (cells ≤ length loads.now) }
    ensures { result ≡ word_of (λ i. ltb 0 (get_or loads.now i 0)) cells }
{
    let mut word: u32 = 0;
    for i in 0..cells {
        word = word | bit_of(loads[i], 1 << i);
    }
    word
}

// The load of cell j where a word has it, else 0.
fn part(load: u16, word: u32, j: usize) -> u32
    requires { j < 32 }
    ensures { (result ≡ pick (bit_at word j) load 0) × (result ≤ 65535) }
{
    (word >> j) % 2 * (load as u32)
}

// The loads of the cells of a word, each cell asked: fast for a word with many.
pub fn loads_of_many(loads: &[u16; 32], word: u32) -> u32
    ensures { (result ≡ loads_in loads.now word) × (result ≤ 2097120) }
{
    let mut sum: u32 = 0;
    for j in 0..32 {
        sum += part(loads[j], word, j);
    }
    sum
}

// The loads of the cells of a word: those of up to three cells one by one.
pub fn loads_of(loads: &[u16; 32], word: u32) -> u32
    ensures { (result ≡ loads_in loads.now word) × (result ≤ 2097120) }
{
    let mut sum: u32 = 0;
    let mut j = lowest(word, 0, 32);
    for _member in 0usize..3 {
        if 32 <= j {
            return sum;
        }
        sum += wide(loads[j]);
        j = lowest(word, j + 1, 32);
    }
    if 32 <= j {
        return sum;
    }
    loads_of_many(loads, word)
}

// The load of the cell at index `i`.
pub fn load_of(loads: &[u16; 32], i: usize) -> u16
    requires { i < 32 }
    ensures { result ≡ get_or loads.now i 0 }
{
    loads[i]
}
