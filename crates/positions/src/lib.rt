// A set of positions as 32 words of 64 bits: position k is bit k % 64 of word k / 64. Counted and searched a word at a time.
#![tactic(auto)]

ghost use Rattle.std.specs.Prelude.{◌≡◌, false, not, ◌&&◌, ℕ, ◌+◌, ◌^◌, ◌≤◌, ◌<◌, eqb, length};
ghost use Rattle.laws.specs.Bits.{bit_at};
ghost use Rattle.laws.specs.Choice.{pick};
ghost use Rattle.laws.specs.Part.{list_of};
ghost use Rattle.laws.specs.Search.{first};
ghost use Rattle.laws.specs.Sum.{count, any};
ghost use Rattle.positions.specs.Blocked.{most_positions, blocked_at, open_in, first_past, any_in, bar_of};

// How many positions a set has room for.
const MOST: usize = 2048;

// Whether a word has bit b.
pub fn has_bit(x: u64, b: usize) -> bool
    requires { b < 64 }
    ensures { result ≡ bit_at x b }
{
    (x >> b) % 2 == 1
}

// How many bits a word has.
pub fn bits_in(x: u64) -> usize
    ensures { result ≡ count (bit_at x) 64 }
{
    u64::count_ones(x) as usize
}

// How many of its lowest m bits a word has.
fn ones_below(x: u64, m: usize) -> usize
    requires { m < 64 }
    ensures { result ≡ count (bit_at x) m }
{
    u64::count_ones(x % (1u64 << m)) as usize
}

// The lowest bit of a word from bit m on; 64 or more where it has none.
fn lowest_from(x: u64, m: usize) -> usize
    requires { m < 64 }
    ensures { result ≡ first (bit_at x) m (m + 64) }
{
    m + u64::trailing_zeros(x >> m) as usize
}

// Bit b where t says so, else 0.
pub fn bit_weight(t: bool, b: usize) -> u64
    requires { b < 64 }
    ensures { result ≡ pick t (2 ^ b) 0 }
{
    if t {
        return 1u64 << b;
    }
    0
}

// Whether a position is in the set.
pub fn is_blocked(set: &[u64; 32], k: usize) -> bool
    requires { k < most_positions }
    ensures { result ≡ blocked_at set.now k }
{
    has_bit(set[k / 64], k % 64)
}

// How many of the first n positions are in the set.
fn blocked_count(set: &[u64; 32], n: usize) -> usize
    requires { n ≤ most_positions }
    ensures { result ≡ count (blocked_at set.now) n }
{
    let whole = n / 64;
    let mut c: usize = 0;
    for j in 0..whole {
        c += bits_in(set[j]);
    }
    let rest = n % 64;
    if rest == 0 {
        return c;
    }
    c + ones_below(set[whole], rest)
}

// How many of the first n positions are not in the set.
pub fn open_count(set: &[u64; 32], n: usize) -> usize
    requires { n ≤ most_positions }
    ensures { result ≡ open_in set.now n }
{
    n - blocked_count(set, n)
}

// All words of a set joined: 0 where it is empty. The loop has no branch.
fn joined(set: &[u64; 32]) -> u64
    ensures { eqb result 0 ≡ not (any_in set.now most_positions) }
{
    let mut all: u64 = 0;
    for j in 0..32 {
        all = all | set[j];
    }
    all
}

// The positions at or past n, as words, joined: 0 only where the set has none of them. The loop has no branch.
fn joined_past(set: &[u64; 32], n: usize) -> u64
    requires { n < most_positions }
    ensures { result ≡ 0 → (k : ℕ) → n ≤ k → k < most_positions → blocked_at set.now k ≡ false }
{
    let w = n / 64;
    let mut all: u64 = set[w] >> (n % 64);
    for j in w + 1..32 {
        all = all | set[j];
    }
    all
}

// The search for the lowest position at or past n, a word at a time.
fn search_past(set: &[u64; 32], n: usize) -> usize
    ensures { result ≡ first_past set.now n }
{
    for j in n / 64..set.len() {
        let b = lowest_from(set[j], n.saturating_sub(64 * j));
        if b < 64 {
            return 64 * j + b;
        }
    }
    n.max(MOST)
}

// The lowest position of the set at or past n; 2,048 where it has none, and n where that is more.
pub fn first_past(set: &[u64; 32], n: usize) -> usize
    ensures { result ≡ first_past set.now n }
{
    if MOST <= n {
        return n;
    }
    if joined(set) == 0 {
        return MOST;
    }
    if joined_past(set, n) == 0 {
        return MOST;
    }
    search_past(set, n)
}

// Whether the set is empty.
pub fn none_blocked(set: &[u64; 32]) -> bool
    ensures { result ≡ not (any_in set.now most_positions) }
{
    joined(set) == 0
}

// 4 where a word has bit b, else 0.
fn bar(x: u64, b: usize) -> u8
    requires { b < 64 }
    ensures { result ≡ pick (bit_at x b) 4 0 }
{
    ((x >> b) % 2 * 4) as u8
}

// A byte for each of the first positions: 4 where it is in the set, else 0. No branch.
pub fn bars(set: &[u64; 32], mask: &mut [u8])
    requires { length mask.old ≤ most_positions }
    ensures { mask.new ≡ list_of (bar_of set.now) (length mask.old) }
{
    for k in 0..mask.len() {
        mask[k] = bar(set[k / 64], k % 64);
    }
}
