// The cells' turns, on sets of positions: each cell keeps of a table from another planner what it may, then adds what is lacking.
//
// What it costs, for I cells and N positions: each row is packed once into words of 64 positions; then all is done a word at a time. Of the cells before it, a
// cell looks only at those that clash with it. The table is not written. The local room is three sets, for up to 128 positions of two words each.
#![tactic(auto)]

ghost use Rattle.std.specs.Prelude.{◌≡◌, ◌&&◌, ◌||◌, not, ◌+◌, ◌-◌, ◌*◌, ◌≤◌, ◌<◌, length, get_or};
ghost use Rattle.std.proofs.lemmas.List.Edits.{sets};
ghost use Rattle.laws.specs.Few.{first_few};
ghost use Rattle.laws.specs.Sum.{count};
ghost use Rattle.mending.specs.Keep.{stand_at};
ghost use Rattle.sets.specs.Sets.{in_set, set_in};
ghost use Rattle.standing.specs.Sets.{stands_in, vacant_at, free_by, OpenIn, OldIn, short_count, turn_count, TwoWay};
ghost use Rattle.standing.specs.Stand.{stood_by, SaysBy};
ghost use Rattle.standing.specs.Turns.{packed_rows, turned_by};

use loads::load_of;
use sets::{
    first_positions, join_set, keep_all, meet_of, pack_cell, put_set, take_away, take_first,
    unlike_count,
};
use words::lowest;
use wordturns::{free_word, word_turn};

// A cell that could not have its load: its number, and how many of its fragments found no room.
#[derive(Clone, Copy)]
pub struct Short(pub usize, pub usize);

// Packs the rows of a table of n positions into sets of w words, one after the other.
fn pack_rows(old: &mut [u64], table: &[u8], w: usize, n: usize, cells: usize)
    requires { (cells ≤ 32) × (w ≤ 32) × (n ≤ 64 * w) × (cells * n ≤ length table.now) × (cells * w ≤ length old.old) }
    ensures { old.new ≡ packed_rows w n table.now old.old cells }
{
    for i in 0..cells {
        let from = i * w;
        let to = from + w;
        pack_cell(&mut old[from..to], table, w, n, i);
    }
}

// The open positions of n, in w words: those that are not blocked.
fn open_set(vacant: &mut [u64], blocked: &[u64], w: usize, n: usize)
    requires { (w ≤ length vacant.old) × (w ≤ length blocked.now) × (w ≤ 32) }
    ensures { vacant.new ≡ sets vacant.old 0 (set_in (vacant_at n blocked.now) w) }
{
    first_positions(vacant, w, n);
    take_away(vacant, blocked, 0, w);
}

// The open positions where none of the i cells below that the clash row has stands. Cell a's set begins at word a * w.
fn free_set(free: &mut [u64], vacant: &[u64], stands: &[u64], w: usize, i: usize, row: u32)
    requires { (i < 32) × (w ≤ 32) × (w ≤ length free.old) × (w ≤ length vacant.now) × (i * w ≤ length stands.now) }
    ensures { free.new ≡ sets free.old 0
        (set_in (free_by (in_set vacant.now) w row stands.now i) w) }
{
    meet_of(free, vacant, vacant, w);
    let mut a = lowest(row, 0, i);
    // From cell to cell of a word: no index is counted.
    while a < i {
        take_away(free, stands, a * w, w);
        a = lowest(row, a + 1, i);
    }
}

// Joins the lowest of the free positions that a cell does not stand at yet, so many of them; answers how many are lacking still.
fn add_free(here: &mut [u64], free: &mut [u64], w: usize, lacking: usize) -> usize
    requires { (w ≤ length here.old) × (w ≤ length free.old) × (w ≤ 32) }
    ensures here { here.new ≡ sets here.old 0
        (set_in (λ k. in_set here.old k || first_few (λ q. in_set free.old q && not (in_set here.old q)) lacking k) w) }
    ensures short { result ≡ lacking - count (λ q. in_set free.old q && not (in_set here.old q)) (64 * w) }
{
    if lacking == 0 {
        keep_all(here, w);
        return 0;
    }
    take_away(free, here, 0, w);
    let short = take_first(free, w, lacking);
    join_set(here, free, w);
    short
}

// What a cell's turn comes to: the fragments that found no room, and the number of changes.
#[derive(Clone, Copy)]
struct Turn {
    short: usize,
    changes: usize,
}

// The set of the positions that a cell stands at, by the free positions and the old reservations. The free ones are used up.
fn stand(here: &mut [u64], free: &mut [u64], old: &[u64], w: usize, load: usize) -> Turn
    requires { (w ≤ length here.old) × (w ≤ length free.old) × (w ≤ length old.now) × (w ≤ 32) }
    ensures here { here.new
        ≡ sets here.old 0 (set_in (stand_at (in_set free.old) (in_set old.now) load (64 * w)) w) }
    ensures short { result.short ≡ short_count (in_set free.old) (in_set old.now) load (64 * w) }
    ensures changes { result.changes ≡ turn_count (in_set free.old) (in_set old.now) load (64 * w) }
{
    meet_of(here, free, old, w);
    let lacking = take_first(here, w, load);
    let short = add_free(here, free, w, lacking);
    let changes = unlike_count(here, old, w);
    Turn {
        short: short,
        changes: changes,
    }
}

// The first word of a set.
fn first_of(set: &[u64]) -> u64
    requires { 0 < length set.now }
    ensures { result ≡ get_or set.now 0 0 }
{
    set[0]
}

// Cell i's turn, where each set is one word.
fn stand_word(
    stands: &mut [u64],
    vacant: &[u64],
    old: &[u64],
    w: usize,
    i: usize,
    load: usize,
    row: u32,
) -> Turn
    requires { (w ≡ 1) × (i < 32) × (i < length stands.old) × (i < length old.now) × (0 < length vacant.now) }
    ensures stands { stands.new ≡ sets stands.old (i * w)
        (set_in (stand_at (free_by (in_set vacant.now) w row stands.old i) (stands_in w old.now i) load (64 * w)) w) }
    ensures short { result.short
        ≡ short_count (free_by (in_set vacant.now) w row stands.old i) (stands_in w old.now i) load (64 * w) }
    ensures changes { result.changes
        ≡ turn_count (free_by (in_set vacant.now) w row stands.old i) (stands_in w old.now i) load (64 * w) }
{
    let free = free_word(first_of(vacant), stands, row, i);
    let turn = word_turn(free, old[i], load);
    stands[i] = turn.here;
    Turn {
        short: turn.short,
        changes: turn.changes,
    }
}

// Cell i's turn, where the sets have the cells below it: it keeps what it may, then adds what is lacking. Its set is stored at word i * w.
fn stand_cell(
    stands: &mut [u64],
    free: &mut [u64],
    here: &mut [u64],
    vacant: &[u64],
    old: &[u64],
    w: usize,
    i: usize,
    load: usize,
    row: u32,
) -> Turn
    requires i_bound { (i < 32) × (w ≤ 32) × (i * w + w ≤ length stands.old) × (i * w + w ≤ length old.now) }
    requires w_in_bounds { (w ≤ length free.old) × (w ≤ length here.old) × (w ≤ length vacant.now) }
    ensures stands { stands.new ≡ sets stands.old (i * w)
        (set_in (stand_at (free_by (in_set vacant.now) w row stands.old i) (stands_in w old.now i) load (64 * w)) w) }
    ensures short { result.short
        ≡ short_count (free_by (in_set vacant.now) w row stands.old i) (stands_in w old.now i) load (64 * w) }
    ensures changes { result.changes
        ≡ turn_count (free_by (in_set vacant.now) w row stands.old i) (stands_in w old.now i) load (64 * w) }
{
    if w == 1 {
        return stand_word(stands, vacant, old, w, i, load, row);
    }
    free_set(free, vacant, stands, w, i, row);
    let from = i * w;
    let to = from + w;
    let turn = stand(here, free, &old[from..to], w, load);
    put_set(stands, from, here, w);
    turn
}

// The cells in rising number, each in its turn, by the sets of their old reservations. The sets come back with who stands where; the room that is lent beside
// them is used up. Which positions are blocked, and the table, only the contract asks.
fn stand_turns(
    stands: &mut [u64],
    free: &mut [u64],
    here: &mut [u64],
    vacant: &[u64],
    old: &[u64],
    table: &[u8],
    w: usize,
    n: usize,
    cells: usize,
    loads: &[u16; 32],
    clash: &[u32; 32],
    blocked: &[u64],
) -> Result<usize, Short>
    requires cells_bound { (cells ≤ 32) × (w ≤ 32) × (n ≤ 64 * w) × (cells * w ≤ length stands.old) × (cells * w ≤ length old.now) }
    requires w_in_bounds { (w ≤ length free.old) × (w ≤ length here.old) × (w ≤ length vacant.now) }
    requires open_in { OpenIn w n blocked.now vacant.now × OldIn w cells n table.now old.now × TwoWay clash.now }
    ensures answer { result ≡ stood_by cells n loads.now clash.now blocked.now table.now }
    ensures stands { stands.new
        ≡ turned_by w cells n loads.now clash.now blocked.now table.now stands.old }
    ensures says { SaysBy cells n loads.now clash.now blocked.now table.now w stands.new
        old.now }
{
    let mut number: usize = 0;
    for i in 0..cells {
        let load = load_of(loads, i) as usize;
        let turn = stand_cell(stands, free, here, vacant, old, w, i, load, clash[i]);
        let short = turn.short;
        if 0 < short {
            return Err(Short(i + 1, short));
        }
        number += turn.changes;
    }
    Ok(number)
}

// Every cell's turn for at most 128 positions, none on a blocked one: the room is cleared for so many alone.
#[tactic(auto, using(crate::proofs::Turns::lent_sets))]
fn stand_small(
    stands: &mut [u64],
    old: &[u64],
    table: &[u8],
    w: usize,
    n: usize,
    cells: usize,
    loads: &[u16; 32],
    clash: &[u32; 32],
    blocked: &[u64],
) -> Result<usize, Short>
    requires cells_bound { (cells ≤ 32) × (w ≤ 2) × (n ≤ 64 * w) × (cells * w ≤ length stands.old) × (cells * w ≤ length old.now) }
    requires w_in_bounds { (w ≤ length blocked.now) × OldIn w cells n table.now old.now × TwoWay clash.now }
    ensures answer { result ≡ stood_by cells n loads.now clash.now blocked.now table.now }
    ensures stands { stands.new
        ≡ turned_by w cells n loads.now clash.now blocked.now table.now stands.old }
    ensures says { SaysBy cells n loads.now clash.now blocked.now table.now w stands.new
        old.now }
{
    let mut vacant = [0u64; 2];
    open_set(&mut vacant, blocked, w, n);
    let mut free = [0u64; 2];
    let mut here = [0u64; 2];
    stand_turns(
        stands, &mut free, &mut here, &vacant, old, table, w, n, cells, loads, clash, blocked,
    )
}

// The same for more positions.
#[tactic(auto, using(crate::proofs::Turns::lent_sets))]
fn stand_large(
    stands: &mut [u64],
    old: &[u64],
    table: &[u8],
    w: usize,
    n: usize,
    cells: usize,
    loads: &[u16; 32],
    clash: &[u32; 32],
    blocked: &[u64],
) -> Result<usize, Short>
    requires cells_bound { (cells ≤ 32) × (w ≤ 32) × (n ≤ 64 * w) × (cells * w ≤ length stands.old) × (cells * w ≤ length old.now) }
    requires w_in_bounds { (w ≤ length blocked.now) × OldIn w cells n table.now old.now × TwoWay clash.now }
    ensures answer { result ≡ stood_by cells n loads.now clash.now blocked.now table.now }
    ensures stands { stands.new
        ≡ turned_by w cells n loads.now clash.now blocked.now table.now stands.old }
    ensures says { SaysBy cells n loads.now clash.now blocked.now table.now w stands.new
        old.now }
{
    let mut vacant = [0u64; 32];
    open_set(&mut vacant, blocked, w, n);
    let mut free = [0u64; 32];
    let mut here = [0u64; 32];
    stand_turns(
        stands, &mut free, &mut here, &vacant, old, table, w, n, cells, loads, clash, blocked,
    )
}

// Every cell's turn, none on a blocked position: the number of changes. The sets come back with who stands where, and who stood.
#[tactic(auto, using(crate::proofs::Turns::lent_sets))]
pub fn stand_all(
    stands: &mut [u64],
    old: &mut [u64],
    table: &[u8],
    w: usize,
    n: usize,
    cells: usize,
    loads: &[u16; 32],
    clash: &[u32; 32],
    blocked: &[u64],
) -> Result<usize, Short>
    requires cells_bound { (cells ≤ 32) × (w ≤ 32) × (n ≤ 64 * w) × (cells * n ≤ length table.now) × (cells * w ≤ length stands.old)
        × (cells * w ≤ length old.old) }
    requires w_in_bounds { (w ≤ length blocked.now) × TwoWay clash.now }
    ensures answer { result ≡ stood_by cells n loads.now clash.now blocked.now table.now }
    ensures stands { stands.new
        ≡ turned_by w cells n loads.now clash.now blocked.now table.now stands.old }
    ensures old { old.new ≡ packed_rows w n table.now old.old cells }
    ensures says { SaysBy cells n loads.now clash.now blocked.now table.now w stands.new
        old.new }
{
    pack_rows(old, table, w, n, cells);
    if w <= 2 {
        return stand_small(stands, old, table, w, n, cells, loads, clash, blocked);
    }
    stand_large(stands, old, table, w, n, cells, loads, clash, blocked)
}
