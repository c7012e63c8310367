// The loads and the reach rows of a record, as plain arrays: which is the first at fault, who clashes with whom, and one bit of a row.
#![tactic(auto)]

ghost use Rattle.std.specs.Prelude.{◌≡◌, false, not, ◌&&◌, ◌||◌, ℕ, ◌≤◌, ◌<◌, ltb, eqb, get_or, replicate};
ghost use Rattle.std.proofs.lemmas.List.Edits.{sets};
ghost use Rattle.laws.specs.Choice.{pick};
ghost use Rattle.laws.specs.Bits.{bit_at, bit_in, word_of, set_bit, clear_bit};
ghost use Rattle.laws.specs.Part.{list_of};
ghost use Rattle.laws.specs.Search.{first};
ghost use Rattle.laws.specs.Sum.{any};
ghost use Rattle.reachrows.specs.Rows.{row_bad, reached_by_both, clash_in};

// Whether the reach row x of the cell at index k is at fault, on a site with n cells.
fn row_bad(n: usize, x: u32, k: usize) -> bool
    requires { (n ≤ 32) × (k < 32) }
    ensures { result ≡ row_bad n x k }
{
    if n <= k {
        return 0 < x;
    }
    let over = (x as u64) >> n;
    if 0 < over {
        return true;
    }
    (x >> k) % 2 == 1
}

// The loads from cells on, joined: 0 where none is set. No branch in the loop, so that a record with no fault is fast.
fn loads_past(loads: &[u16; 32], cells: usize) -> u16
    ensures { result ≡ 0 → (k : ℕ) → cells ≤ k → k < 32 → get_or loads.now k 0 ≡ 0 }
{
    let mut all: u16 = 0;
    for k in cells..32 {
        all = all | loads[k];
    }
    all
}

// The lowest index from cells on with a load set; 32 where there is none.
#[tactic(auto, using(laws::proofs::Search::found, laws::proofs::Search::missed, laws::proofs::Search::ended))]
pub fn extra_load(loads: &[u16; 32], cells: usize) -> usize
    requires { cells ≤ 32 }
    ensures { result ≡ first (λ k. ltb 0 (get_or loads.now k 0)) cells 32 }
{
    if loads_past(loads, cells) == 0 {
        return 32;
    }
    for k in cells..32 {
        if 0 < loads[k] {
            return k;
        }
    }
    32
}

// What is at fault in the reach row x of the cell at index k, on a site with n cells: 0 only where nothing is.
fn fault_bits(n: usize, x: u32, k: usize) -> u32
    requires { (n ≤ 32) × (k < 32) }
    ensures { result ≡ 0 → row_bad n x k ≡ false }
{
    let most = square::low_bits(n);
    let own = 1u32 << k;
    if most & own == 0 {
        return x;
    }
    if most < x {
        return x;
    }
    x & own
}

// The rows' bits at fault, joined: 0 where no row is at fault. No branch in the loop, so that a record with no fault is fast.
fn faults_in(reach: &[u32; 32], cells: usize) -> u32
    requires { cells ≤ 32 }
    ensures { result ≡ 0 → (k : ℕ) → k < 32 → row_bad cells (get_or reach.now k 0) k ≡ false }
{
    let mut all: u32 = 0;
    for k in 0..32 {
        all = all | fault_bits(cells, reach[k], k);
    }
    all
}

// The lowest index of a row at fault; 32 where there is none.
#[tactic(auto, using(laws::proofs::Search::found, laws::proofs::Search::missed, laws::proofs::Search::ended))]
pub fn bad_row(reach: &[u32; 32], cells: usize) -> usize
    requires { cells ≤ 32 }
    ensures { result ≡ first (λ k. row_bad cells (get_or reach.now k 0) k) 0 32 }
{
    if faults_in(reach, cells) == 0 {
        return 32;
    }
    for (k, &row) in reach.iter().enumerate() {
        if row_bad(cells, row, k) {
            return k;
        }
    }
    32
}

// The word of the rows, of so many, that have bit a.
fn column(rows: &[u32; 32], n: usize, a: usize) -> u32
    requires { (n ≤ 32) × (a < 32) }
    ensures { result ≡ word_of (λ b. bit_in rows.now b a) n }
{
    let mut word: u32 = 0;
    for b in 0..n {
        word = joined(word, (rows[b] >> a) % 2 == 1, b);
    }
    word
}

// The lowest bits of a word, so many of them.
fn lowest(x: u32, n: usize) -> u32
    requires { n ≤ 32 }
    ensures { result ≡ word_of (bit_at x) n }
{
    ((x as u64) % (1u64 << n)) as u32
}

// Two different cells clash when either reaches the other. The word of the cells, of so many, that clash with the cell at index a, which reaches
// the cells of one word and is reached by those of the other; under rule 2 the other word has those too that reach a third cell with a.
fn clash_row(reaches: u32, reached: u32, a: usize, cells: usize) -> u32
    requires { (a < 32) × (cells ≤ 32) }
    ensures { result ≡ word_of (λ b. not (eqb b a) && (bit_at reaches b || bit_at reached b)) cells }
{
    lowest(without_bit(reaches | reached, a), cells)
}

// The clash rows of so many cells under rule 1, over zeros: each by its column, which is quicker where the cells are few.
pub fn few_rows(reach: &[u32; 32], cells: usize) -> [u32; 32]
    requires { cells ≤ 32 }
    ensures { result ≡ sets (replicate 32 0) 0 (list_of (λ a. word_of (clash_in 1 reach.now a) cells) cells) }
{
    let mut rows = [0u32; 32];
    for a in 0..cells {
        rows[a] = clash_row(reach[a], column(reach, cells, a), a, cells);
    }
    rows
}

// The same of up to 16 cells: their columns are turned over four to a word.
fn some_rows(reach: &[u32; 32], cells: usize) -> [u32; 32]
    requires { cells ≤ 16 }
    ensures { result ≡ sets (replicate 32 0) 0 (list_of (λ a. word_of (clash_in 1 reach.now a) cells) cells) }
{
    let fours = square::turned_fours(reach);
    let mut rows = [0u32; 32];
    for a in 0..cells {
        rows[a] = clash_row(reach[a], square::row_in(fours[a / 4], a % 4), a, cells);
    }
    rows
}

// The same by all columns at once.
fn all_rows(reach: [u32; 32], cells: usize) -> [u32; 32]
    requires { cells ≤ 32 }
    ensures { result ≡ sets (replicate 32 0) 0 (list_of (λ a. word_of (clash_in 1 reach a) cells) cells) }
{
    let columns = square::turned(reach);
    let mut rows = [0u32; 32];
    for a in 0..cells {
        rows[a] = clash_row(reach[a], columns[a], a, cells);
    }
    rows
}

// The same by the columns of 16 cells, or of all.
pub fn many_rows(reach: [u32; 32], cells: usize) -> [u32; 32]
    requires { cells ≤ 32 }
    ensures { result ≡ sets (replicate 32 0) 0 (list_of (λ a. word_of (clash_in 1 reach a) cells) cells) }
{
    if 16 < cells {
        return all_rows(reach, cells);
    }
    some_rows(&reach, cells)
}

// The rows, each without its own cell.
fn others(reach: [u32; 32]) -> [u32; 32]
    ensures { result ≡ sets (replicate 32 0) 0 (list_of (λ a. clear_bit (get_or reach a 0) a) 32) }
{
    let mut rows = [0u32; 32];
    for a in 0..32 {
        rows[a] = without_bit(reach[a], a);
    }
    rows
}

// The word of the rows that share a bit with x. All 32 are asked, so that the compiler can ask them side by side.
fn sharing(rows: &[u32; 32], x: u32) -> u32
    ensures { result ≡ word_of (λ b. any (λ c. bit_at x c && bit_in rows.now b c) 32) 32 }
{
    let mut word: u32 = 0;
    for b in 0..32 {
        word = joined(word, x & rows[b] != 0, b);
    }
    word
}

// The word of the cells, of so many, that reach a third cell with the cell at index a.
fn with_third(rows: &[u32; 32], n: usize, a: usize) -> u32
    requires { (n ≤ 32) × (a < 32) }
    ensures { result ≡ word_of (reached_by_both rows.now a) n }
{
    let mut word: u32 = 0;
    for b in 0..n {
        word = joined(word, share_third(rows[a], rows[b], a, b), b);
    }
    word
}

// The clash rows of so many cells under rule 2, over zeros, each from the rows of these cells alone: quicker where the cells are few.
fn few_thirds(reach: &[u32; 32], cells: usize) -> [u32; 32]
    requires { cells ≤ 32 }
    ensures { result ≡ sets (replicate 32 0) 0 (list_of (λ a. word_of (clash_in 2 reach.now a) cells) cells) }
{
    let mut rows = [0u32; 32];
    for a in 0..cells {
        rows[a] = clash_row(
            reach[a],
            column(reach, cells, a) | with_third(reach, cells, a),
            a,
            cells,
        );
    }
    rows
}

// The same of up to 16 cells, with their columns turned over four to a word.
fn some_thirds(reach: &[u32; 32], cells: usize) -> [u32; 32]
    requires { cells ≤ 16 }
    ensures { result ≡ sets (replicate 32 0) 0 (list_of (λ a. word_of (clash_in 2 reach.now a) cells) cells) }
{
    let fours = square::turned_fours(reach);
    let mut rows = [0u32; 32];
    for a in 0..cells {
        rows[a] = clash_row(
            reach[a],
            square::row_in(fours[a / 4], a % 4) | with_third(reach, cells, a),
            a,
            cells,
        );
    }
    rows
}

// The same, all rows at once. Two cells reach a third where their rows, each without its own cell, share a bit.
fn many_thirds(reach: [u32; 32], cells: usize) -> [u32; 32]
    requires { cells ≤ 32 }
    ensures { result ≡ sets (replicate 32 0) 0 (list_of (λ a. word_of (clash_in 2 reach a) cells) cells) }
{
    let columns = square::turned(reach);
    let thirds = others(reach);
    let mut rows = [0u32; 32];
    for a in 0..cells {
        let own = without_bit(reach[a], a);
        rows[a] = clash_row(reach[a], columns[a] | sharing(&thirds, own), a, cells);
    }
    rows
}

// The clash rows of so many cells under rule 2, over zeros: of few cells, of up to 16, or of all.
pub fn third_rows(reach: [u32; 32], cells: usize) -> [u32; 32]
    requires { cells ≤ 32 }
    ensures { result ≡ sets (replicate 32 0) 0 (list_of (λ a. word_of (clash_in 2 reach a) cells) cells) }
{
    if 16 < cells {
        return many_thirds(reach, cells);
    }
    if 8 < cells {
        return some_thirds(&reach, cells);
    }
    few_thirds(&reach, cells)
}

// Whether two rows, each without its own cell, share a bit: some third cell is reached by both.
fn share_third(x: u32, y: u32, a: usize, b: usize) -> bool
    requires { (a < 32) × (b < 32) }
    ensures { result ≡ any (λ c. bit_at (clear_bit x a) c && bit_at (clear_bit y b) c) 32 }
{
    without_bit(x, a) & without_bit(y, b) != 0
}

// Whether the cells at indices a and b clash under a rule: two bits are looked at, and under rule 2 two rows.
#[tactic(auto, using(crate::proofs::Rule::pair_laws), unfolding(crate::specs::Rows::clash_in, crate::specs::Rows::reaches))]
pub fn pair_clashes(reach: &[u32; 32], rule: u16, a: usize, b: usize) -> bool
    requires { (a < 32) × (b < 32) }
    ensures { result ≡ clash_in rule reach.now a b }
{
    if a == b {
        return false;
    }
    let x = reach[a];
    let y = reach[b];
    if (x >> b) % 2 == 1 {
        return true;
    }
    if (y >> a) % 2 == 1 {
        return true;
    }
    if rule == 2 {
        return share_third(x, y, a, b);
    }
    false
}

// The word with number b joined, where it is to be.
fn joined(word: u32, with: bool, b: usize) -> u32
    requires { b < 32 }
    ensures { result ≡ pick with (set_bit word b) word }
{
    if with {
        return with_bit(word, b);
    }
    word
}

// A row with bit b set.
pub fn with_bit(x: u32, b: usize) -> u32
    requires { b < 32 }
    ensures { result ≡ set_bit x b }
{
    x | (1 << b)
}

// A row with bit b cleared.
fn without_bit(x: u32, b: usize) -> u32
    requires { b < 32 }
    ensures { result ≡ clear_bit x b }
{
    let m = 1u32 << b;
    (x | m) ^ m
}

// A row with bit b set, or cleared.
pub fn put_bit(x: u32, b: usize, set: bool) -> u32
    requires { b < 32 }
    ensures { result ≡ pick set set_bit clear_bit x b }
{
    if set {
        return with_bit(x, b);
    }
    without_bit(x, b)
}
