// The greedy plan as words, one for each position with bit i where cell i is reserved there, laid down a stretch at a time.
//
// What it costs, for I cells and N positions: which cells a position takes depends only on which cells still have fragments left, and that changes only
// where a cell takes its last one. So there are at most I + 1 stretches. For each, two loops go over the cells of its word, from one to the next by the bits
// that are set: one finds them, and how long they last; one takes that off what they have left, and drops those with nothing left. One store a position lays
// the word down. The local room is a load for each cell. Where positions are blocked, each position of a stretch is looked at, and a blocked one takes no cell.
#![tactic(auto)]

ghost use Rattle.std.specs.Prelude.{◌≡◌, true, not, ◌++◌, ℕ, ◌+◌, ◌-◌, ◌^◌, ◌≤◌, ◌<◌, min, eqb, length, get_or, drop};
ghost use Rattle.std.proofs.lemmas.List.Edits.{sets};
ghost use Rattle.laws.specs.Bits.{bit_at, bit_in, word_of};
ghost use Rattle.laws.specs.Choice.{pick};
ghost use Rattle.laws.specs.Part.{list_of};
ghost use Rattle.laws.specs.Sum.{bit};
ghost use Rattle.theory.specs.Greedy.{greedy};
ghost use Rattle.theory.specs.Positions.{chosen, need_at};
ghost use Rattle.positions.specs.Blocked.{most_positions, any_in};
ghost use Rattle.words.specs.Words.{out_words};
ghost use Rattle.planner.specs.Plan.{answer_of};
ghost use Rattle.stretches.specs.Stretches.{laid_to, left_to, gated, open_from, in_need, shortest, spent};
ghost use Rattle.site.specs.Reach.{is_open, net_by};

use loads::loaded_in;
use planner::PlanError;
use positions::{is_blocked, none_blocked};
use words::{apart, has, lay, lowest};

// A stretch: the word of its positions, and for how many it stays.
#[derive(Clone, Copy)]
struct Stretch {
    word: u32,
    run: usize,
}

// The stretch that begins where these cells, of so many, are in need: the lowest is taken, then the lowest of those that do not clash with it, and so on.
// What is left is looked at without the clash row of the cell before: the cells that clash with one taken are dropped all at once, where such a cell is met.
fn stretch_of(need: u32, left: &[u16], clash: &[u32; 32], cells: usize, most: usize) -> Stretch
    requires { (cells ≤ 32) × (cells ≤ length left.now) × (need < 2 ^ cells) }
    ensures word { result.word ≡ word_of (chosen (bit_in clash.now) (bit_at need)) cells }
    ensures run { result.run ≡ shortest (chosen (bit_in clash.now) (bit_at need)) (λ i. get_or left.now i 0) most cells }
{
    let mut word: u32 = 0;
    let mut run = most;
    let mut met: u32 = 0;
    let mut rest = need;
    // From member to member of a word: no index is counted. All that clash with one taken are dropped at once.
    while rest != 0 {
        let i = u32::trailing_zeros(rest) as usize;
        if has(met, i) {
            rest = apart(rest, met);
            continue;
        }
        run = run.min(left[i] as usize);
        word = word | (1 << i);
        met = met | clash[i];
        rest = rest & (rest - 1);
    }
    Stretch {
        word: word,
        run: run,
    }
}

// The bit of a cell that has nothing left, else 0.
fn emptied(left: u16, bit: u32) -> u32
    ensures { result ≡ pick (eqb left 0) bit 0 }
{
    if left == 0 {
        return bit;
    }
    0
}

// Takes a run off what each cell of the word has left, and gives, of the cells in need, those that still are.
fn subtract(left: &mut [u16], word: u32, run: usize, need: u32, cells: usize) -> u32
    requires cells_bound { (cells ≤ 32) × (cells ≤ length left.old) × (word < 2 ^ cells) }
    requires need_value { need ≡ word_of (in_need left.old) cells }
    requires by_index { (i : ℕ) → i < cells → bit_at word i ≡ true → run ≤ get_or left.old i 0 }
    ensures left { left.new ≡ sets left.old 0 (list_of (spent left.old word run) cells) }
    ensures need { result ≡ word_of (in_need left.new) cells }
{
    let mut still = need;
    let mut rest = word;
    // From member to member of a word: no index is counted.
    while rest != 0 {
        let i = u32::trailing_zeros(rest) as usize;
        let has = left[i] - run as u16;
        left[i] = has;
        still = apart(still, emptied(has, 1 << i));
        rest = rest & (rest - 1);
    }
    still
}

// A piece of the positions: how many they are, and how many of them are open.
#[derive(Clone, Copy)]
struct Piece {
    span: usize,
    free: usize,
}

// The word, and 0 at a blocked position.
fn word_unless(shut: bool, word: u32) -> u32
    ensures { result ≡ pick (not shut) word 0 }
{
    if shut {
        return 0;
    }
    word
}

// 1, and 0 for a blocked position.
fn one_unless(shut: bool) -> usize
    ensures { result ≡ bit (not shut) }
{
    if shut {
        return 0;
    }
    1
}

// Lays a word down at the open positions from `from` on, of at most so many, until it is laid down `run` times; 0 at the blocked ones between.
fn lay_open(
    words: &mut [u32],
    blocked: &[u64; 32],
    from: usize,
    most: usize,
    word: u32,
    run: usize,
) -> Piece
    requires { (0 < run) × (0 < most) × (from + most ≤ length words.old) × (from + most ≤ most_positions) }
    ensures fits { (0 < result.span) × (result.span ≤ most) × (result.free ≤ run) }
    ensures free { result.free ≡ open_from blocked.now from result.span }
    ensures words { words.new ≡ sets words.old from (list_of (gated blocked.now from word) result.span) }
{
    let mut used: usize = 0;
    for span in 0..most {
        if run <= used {
            return Piece {
                span: span,
                free: used,
            };
        }
        let shut = is_blocked(blocked, from + span);
        words[from + span] = word_unless(shut, word);
        used += one_unless(shut);
    }
    Piece {
        span: most,
        free: used,
    }
}

// The same, where it is known whether any position is blocked: where none is, the word is laid down without a look at them.
fn lay_piece(
    words: &mut [u32],
    blocked: &[u64; 32],
    none: bool,
    from: usize,
    most: usize,
    word: u32,
    run: usize,
) -> Piece
    requires run_nonzero { (0 < run) × (run ≤ most) × (from + most ≤ length words.old) × (from + most ≤ most_positions) }
    requires none_value { none ≡ not (any_in blocked.now most_positions) }
    ensures fits { (0 < result.span) × (result.span ≤ most) × (result.free ≤ run) }
    ensures free { result.free ≡ open_from blocked.now from result.span }
    ensures words { words.new ≡ sets words.old from (list_of (gated blocked.now from word) result.span) }
{
    if none {
        lay(words, from, run, word);
        return Piece {
            span: run,
            free: run,
        };
    }
    lay_open(words, blocked, from, most, word, run)
}

// Lays the words of n positions down, stretch after stretch, leaves what each cell has left at the end, and gives the word of the cells that are then in need.
fn lay_all(
    words: &mut [u32],
    left: &mut [u16],
    clash: &[u32; 32],
    cells: usize,
    n: usize,
    blocked: &[u64; 32],
) -> u32
    requires { (cells ≤ 32) × (cells ≤ length left.old) × (n ≤ length words.old) × (n ≤ most_positions) }
    ensures need { result ≡ word_of (need_at (net_by cells n left.old clash.now (is_open blocked.now)) n) cells }
    ensures words { words.new ≡ laid_to (net_by cells n left.old clash.now (is_open blocked.now)) n words.old }
    ensures left { left.new ≡ left_to (net_by cells n left.old clash.now (is_open blocked.now)) n left.old }
{
    let none = none_blocked(blocked);
    let mut need = loaded_in(left, cells);
    let mut k: usize = 0;
    // A step goes over a whole piece, whose length differs from turn to turn.
    while k < n {
        let most = n - k;
        let s = stretch_of(need, left, clash, cells, most);
        let word = s.word;
        let run = s.run;
        let p = lay_piece(words, blocked, none, k, most, word, run);
        let span = p.span;
        let free = p.free;
        need = subtract(left, word, free, need, cells);
        k = k + span;
    }
    need
}

// What cell i has left.
fn left_of(left: &[u16], i: usize) -> u16
    requires { i < length left.now }
    ensures { result ≡ get_or left.now i 0 }
{
    left[i]
}

// The greedy plan of n positions as words: the planner's answer, and the words in the first n places, which are 0 where a cell found no room. What stands
// past them is as it was. Bit b of row a of `clash` says that the cells a and b clash; it is asked with the lower cell's row. Blocked positions take no cell.
pub fn plan_stretches(
    words: &mut [u32],
    clash: &[u32; 32],
    loads: [u16; 32],
    cells: usize,
    n: usize,
    blocked: &[u64; 32],
) -> Result<(), PlanError>
    requires { (cells ≤ 32) × (n ≤ length words.old) × (n ≤ most_positions) }
    ensures answer { result ≡ answer_of (greedy (net_by cells n loads clash.now (is_open blocked.now))) }
    ensures words { words.new
        ≡ out_words cells n (greedy (net_by cells n loads clash.now (is_open blocked.now))) ++ drop n words.old }
{
    let mut left = loads;
    let need = lay_all(words, &mut left, clash, cells, n, blocked);
    let cell = lowest(need, 0, cells);
    if cell < cells {
        lay(words, 0, n, 0);
        let short = left_of(&left, cell) as usize;
        let number = cell + 1;
        return Err(PlanError::NoRoom(number, short));
    }
    Ok(())
}
