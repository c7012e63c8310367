// The positions of a block at which cells clash, all 128 at once. Cells are joined from the highest down, a block of two words for each, and each is held
// against the cells above it in its clash row; where it meets none of the cells joined before it, no row is looked at.
#![tactic(auto)]

ghost use Rattle.std.specs.Prelude.{◌≡◌, true, ◌&&◌, ℕ, ◌+◌, ◌*◌, ◌≤◌, ◌<◌, leb, length};
ghost use Rattle.laws.specs.Bits.{bit_at, word_of};
ghost use Rattle.laws.specs.Sum.{any};
ghost use Rattle.blocks.specs.Order.{low_order, high_order, placed};
ghost use Rattle.clashblocks.specs.Above.{cell_placed, above_has, clash_from};

use blocks::{Block, block_of, blocks_meet};

// What the blocks of a word's cells have, together.
fn united(lows: &[u64; 32], highs: &[u64; 32], word: u32) -> Block
    ensures { (k : ℕ) → placed result.low result.high k ≡ any (λ c. bit_at word c && cell_placed lows.now highs.now k c) 32 }
{
    let mut low: u64 = 0;
    let mut high: u64 = 0;
    let mut rest = word;
    // From member to member of a word: no index is counted.
    while rest != 0 {
        let c = u32::trailing_zeros(rest) as usize;
        low = low | lows[c];
        high = high | highs[c];
        rest = rest & (rest - 1);
    }
    Block {
        low: low,
        high: high,
    }
}

// The cells of a row from i on.
fn upward(row: u32, i: usize) -> u32
    requires { i < 32 }
    ensures { result ≡ word_of (λ c. leb i c && bit_at row c) 32 }
{
    words::apart(row, (1 << i) - 1)
}

// The positions of a block that a cell of the row from i on has too. All that the cells have is in `low` and `high`.
fn met_above(
    lows: &[u64; 32],
    highs: &[u64; 32],
    low: u64,
    high: u64,
    row: u32,
    i: usize,
    x: u64,
    y: u64,
) -> Block
    requires i_bound { i < 32 }
    requires by_index { (c k : ℕ) → cell_placed lows.now highs.now k c ≡ true → placed low high k ≡ true }
    ensures { (k : ℕ) → placed result.low result.high k ≡ (above_has lows.now highs.now row i k && placed x y k) }
{
    if blocks_meet(low, high, x, y) {
        let above = united(lows, highs, upward(row, i));
        return Block {
            low: above.low & x,
            high: above.high & y,
        };
    }
    Block { low: 0, high: 0 }
}

// The positions from `from` on, 128 of them, that have a clash.
#[tactic(auto, using(laws::proofs::Grid::row_before))]
pub fn block_clash(table: &[u8], n: usize, from: usize, clash: &[u32; 32], cells: usize) -> Block
    requires { (cells ≤ 32) × (from + 128 ≤ n) × (cells * n ≤ length table.now) }
    ensures low { result.low ≡ word_of (low_order (clash_from cells n clash.now table.now from)) 64 }
    ensures high { result.high ≡ word_of (high_order (clash_from cells n clash.now table.now from)) 64 }
{
    let mut lows = [0u64; 32];
    let mut highs = [0u64; 32];
    let mut low: u64 = 0;
    let mut high: u64 = 0;
    let mut met_low: u64 = 0;
    let mut met_high: u64 = 0;
    for i in (0..cells).rev() {
        let b = block_of(table, i * n + from);
        let x = b.low;
        let y = b.high;
        let met = met_above(&lows, &highs, low, high, clash[i], i, x, y);
        met_low = met_low | met.low;
        met_high = met_high | met.high;
        low = low | x;
        high = high | y;
        lows[i] = x;
        highs[i] = y;
    }
    Block {
        low: met_low,
        high: met_high,
    }
}
