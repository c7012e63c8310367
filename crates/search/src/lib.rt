// W13's call: lists the fragments and the open positions, searches on an explicit stack of at most 24 fragments, and writes the plan into the lent table.
// In the search, open positions are counted by their index, of at most 64, so that the positions that a fragment cannot have are one word.
#![tactic(auto)]

ghost use Rattle.std.specs.Prelude.{◌≡◌, ◌&&◌, [], ℕ, ◌+◌, ◌-◌, ◌*◌, ◌≤◌, ◌<◌, ltb, length, get_or};
ghost use Rattle.laws.specs.Bits.{bit_at, bit_in};
ghost use Rattle.tries.specs.Search.{opens_from, fragments_from, seek, limited};
ghost use Rattle.search.specs.Hunt.{keeps, placed_of, start_of, Distinct, Owned, TakenWord, limited_by, height_of};
ghost use Rattle.site.specs.Reach.{net_in, is_open};
ghost use Rattle.search.specs.Search.{lay_out, laid_on, replied, reply_of, leaves_of, search_answer, search_table};
ghost use Rattle.search.specs.Loop.{Listed, Spots};
ghost use Rattle.search.specs.declared.SearchError.TheVariants.{Record};

use positions::{bit_weight, has_bit, is_blocked};
use site::{Fault, Site};

// Why a search has no plan: none exists or limit met, each with the tries made; 25, too many positions or fragments; 4, the table is short; or what is wrong
// with the record.
#[derive(Clone, Copy)]
pub enum SearchError {
    Full(u64),
    Limit(u64),
    TooMany,
    TableShort,
    Record(Fault),
}

impl From<Fault> for SearchError {
    ghost from_gives = { λ f e. e ≡ Record f };

    fn from(fault: Fault) -> SearchError {
        SearchError::Record(fault)
    }
}

// How a search ends, with the tries made.
#[derive(Clone, Copy)]
pub enum HuntEnd {
    Plan(u64),
    Full(u64),
    Limit,
}

// An end, and the index of each fragment's open position where it is a plan.
#[derive(Clone, Copy)]
pub struct Hunted {
    pub end: HuntEnd,
    pub at: [usize; 24],
}

// The cell of each fragment; a count of 25 where there are more than 24.
#[derive(Clone, Copy)]
struct Fragments {
    count: usize,
    owner: [usize; 24],
}

// The open positions; a count of 65 where there are more than 64.
#[derive(Clone, Copy)]
struct Opens {
    count: usize,
    at: [usize; 64],
}

// Whether a fragment of cell `o` keeps one of cell `c` from its position; `row` has the cells that clash with `o`.
fn hit(o: usize, c: usize, row: u32) -> bool
    requires { c < 32 }
    ensures { result ≡ (ltb o c && bit_at row c) }
{
    if o < c {
        return (row >> c) % 2 == 1;
    }
    false
}

// The word of the open positions from which the first `d` fragments keep cell `c`.
fn gathered(owner: &[usize], at: &[usize; 24], d: usize, c: usize, clash: &[u32; 32]) -> u64
    requires d_in_bounds { (d ≤ length owner.now) × (d ≤ 24) × (c < 32) }
    requires owned { Owned owner.now }
    requires by_index { (k : ℕ) → k < d → get_or at.now k 0 < 64 }
    ensures { (i : ℕ) → bit_at result i ≡ keeps (bit_in clash.now) owner.now at.now d c i }
{
    let mut word: u64 = 0;
    for k in 0..d {
        let o = owner[k];
        word = word | bit_weight(hit(o, c, clash[o]), at[k]);
    }
    word
}

// The same for the cell of fragment `d`. Fragment `d - 1` has the word `before`: it is the same word within a cell. 0 past the last fragment.
fn entered(owner: &[usize], at: &[usize; 24], d: usize, clash: &[u32; 32], before: u64) -> u64
    requires d_nonzero { (0 < d) × (d ≤ 24) }
    requires owned { Owned owner.now }
    requires by_index { (k : ℕ) → k < d → get_or at.now k 0 < 64 }
    requires taken_word { TakenWord clash.now owner.now at.now (d - 1) before }
    ensures { TakenWord clash.now owner.now at.now d result }
{
    if d < owner.len() {
        let c = owner[d];
        if c == owner[d - 1] {
            return before;
        }
        return gathered(owner, at, d, c, clash);
    }
    0
}

// Where fragment `d` starts to look, when the one before it stands at index `i`: past it within a cell.
fn start(owner: &[usize], d: usize, i: usize) -> usize
    requires { (0 < d) × (i < 64) }
    ensures { result ≡ start_of owner.now d i }
{
    if d < owner.len() {
        if owner[d] == owner[d - 1] {
            return i + 1;
        }
    }
    0
}

// The search over the fragments `owner`, each by its cell, and the open positions `opens`.
fn hunt(owner: &[usize], opens: &[usize], clash: &[u32; 32], limit: u64) -> Hunted
    requires owner_len_bound { (length owner.now ≤ 24) × (length opens.now ≤ 64) }
    requires owned { Owned owner.now }
    requires distinct { Distinct opens.now }
    ensures answer { limited_by (placed_of owner.now opens.now result.at (length owner.now)) result.end
        ≡ limited limit (seek (bit_in clash.now) opens.now owner.now [] opens.now) }
    ensures stack { (k : ℕ) → k < height_of (length owner.now) result.end → get_or result.at k 0 < length opens.now }
{
    let many = opens.len();
    let mut at = [0usize; 24];
    let mut words = [0u64; 25];
    let mut d: usize = 0;
    let mut i: usize = 0;
    let mut tries: u64 = 0;
    // A turn goes a fragment on, a fragment back or a position on: no index is counted.
    while d < owner.len() {
        if i == many {
            if d == 0 {
                return Hunted {
                    end: HuntEnd::Full(tries),
                    at,
                };
            }
            d -= 1;
            i = at[d] + 1;
            continue;
        }
        if tries == limit {
            return Hunted {
                end: HuntEnd::Limit,
                at,
            };
        }
        tries += 1;
        let word = words[d];
        if has_bit(word, i) {
            i += 1;
            continue;
        }
        at[d] = i;
        d += 1;
        words[d] = entered(owner, &at, d, clash, word);
        i = start(owner, d, i);
    }
    Hunted {
        end: HuntEnd::Plan(tries),
        at,
    }
}

// The fragments in cell order.
fn list_fragments(cells: usize, loads: [u16; 32]) -> Fragments
    requires { cells ≤ 32 }
    ensures { Listed 24 (fragments_from (λ i. get_or loads i 0) 0 cells) result.count result.owner }
{
    let mut owner = [0usize; 24];
    let mut count: usize = 0;
    for i in 0..cells {
        let to = count + loads[i] as usize;
        if 24 < to {
            return Fragments { count: 25, owner };
        }
        owner[count..to].fill(i);
        count = to;
    }
    Fragments { count, owner }
}

// The open positions, rising.
fn list_opens(n: usize, blocked: &[u64; 32]) -> Opens
    requires { n ≤ 2048 }
    ensures { Listed 64 (opens_from (is_open blocked.now) 0 n) result.count result.at }
{
    let mut at = [0usize; 64];
    let mut count: usize = 0;
    for k in 0..n {
        if is_blocked(blocked, k) {
            continue;
        }
        if count == 64 {
            return Opens { count: 65, at };
        }
        at[count] = k;
        count += 1;
    }
    Opens { count, at }
}

// Reserves each fragment's place in the table.
fn lay(table: &mut [u8], n: usize, owner: &[usize], opens: &[usize], at: [usize; 24])
    requires owner_len_bound { length owner.now ≤ 24 }
    requires by_index { (k : ℕ) → k < length owner.now → get_or at k 0 < length opens.now }
    requires spots { Spots n owner.now opens.now table.old }
    ensures { table.new ≡ lay_out n (placed_of owner.now opens.now at (length owner.now)) table.old }
{
    for k in 0..owner.len() {
        let i = at[k];
        table[owner[k] * n + opens[i]] = 1;
    }
}

// The search over the fragments and the open positions; a plan is reserved in the table.
fn settle(
    table: &mut [u8],
    n: usize,
    owner: &[usize],
    opens: &[usize],
    clash: &[u32; 32],
    limit: u64,
) -> Result<u64, SearchError>
    requires owner_len_bound { (length owner.now ≤ 24) × (length opens.now ≤ 64) }
    requires owned { Owned owner.now }
    requires distinct { Distinct opens.now }
    requires spots { Spots n owner.now opens.now table.old }
    ensures answer { result ≡ replied limit (limited limit (seek (bit_in clash.now) opens.now owner.now []
        opens.now)) }
    ensures table { table.new ≡ laid_on n (limited limit (seek (bit_in clash.now) opens.now owner.now []
        opens.now)) table.old }
{
    let out = hunt(owner, opens, clash, limit);
    let stack = out.at;
    let end = out.end;
    match end {
        HuntEnd::Plan(tries) => {
            lay(table, n, owner, opens, stack);
            Ok(tries)
        }
        HuntEnd::Full(tries) => Err(SearchError::Full(tries)),
        HuntEnd::Limit => Err(SearchError::Limit(limit)),
    }
}

// The search for a site of so many cells and positions: nothing is written where there are too many.
fn search_in(
    table: &mut [u8],
    cells: usize,
    n: usize,
    loads: [u16; 32],
    clash: &[u32; 32],
    blocked: &[u64; 32],
    limit: u64,
) -> Result<u64, SearchError>
    requires { (cells ≤ 32) × (n ≤ 2048) × (cells * n ≤ length table.old) }
    ensures answer { result ≡ reply_of (net_in cells n loads (bit_in clash.now) (is_open blocked.now)) limit }
    ensures table { table.new ≡ leaves_of (net_in cells n loads (bit_in clash.now) (is_open blocked.now)) limit
        table.old }
{
    let fragments = list_fragments(cells, loads);
    let count = fragments.count;
    if 24 < count {
        return Err(SearchError::TooMany);
    }
    let opens = list_opens(n, blocked);
    let many = opens.count;
    if 64 < many {
        return Err(SearchError::TooMany);
    }
    let size = cells * n;
    rows::clear(&mut table[..size]);
    let owner = fragments.owner;
    let at = opens.at;
    settle(table, n, &owner[..count], &at[..many], clash, limit)
}

// Searches for a plan of the site, with at most so many tries: the tries made, for any site, any limit and any table.
#[tactic(auto, using(crate::proofs::Answer::accepted_sizes), unfolding(crate::specs::Search::search_answer, crate::specs::Search::search_table))]
pub fn search(site: Site, limit: u64, table: &mut [u8]) -> Result<u64, SearchError>
    ensures answer { result ≡ search_answer site limit table.old }
    ensures table { table.new ≡ search_table site limit table.old }
{
    site.accepted()?;
    let cells = site.cells as usize;
    let n = site.slots as usize * site.channels as usize;
    let size = cells * n;
    if table.len() < size {
        return Err(SearchError::TableShort);
    }
    let loads = site.loads;
    let clash = site.clash_rows();
    let blocked = site.blocked;
    search_in(table, cells, n, loads, &clash, &blocked, limit)
}
