// The demands of a site's cells, over the loads, the clash rows and the word of the cells that count: the first that is over, and the greatest.
#![tactic(auto)]

ghost use Rattle.std.specs.Prelude.{◌≡◌, ◌≤◌, ◌<◌, get_or};
ghost use Rattle.laws.specs.Most.{most};
ghost use Rattle.laws.specs.Search.{first};
ghost use Rattle.demands.specs.Words.{demand_at, over_in, demand_counted};

use loads::{greater, loads_of, wide};
use words::has;

// The load of cell i, and the loads of the cells below i in its clash row.
pub fn demand(loads: &[u16; 32], row: u32, i: usize) -> u32
    requires { i < 32 }
    ensures { result ≡ demand_at loads.now row i }
{
    wide(loads[i]) + loads_of(loads, row & ((1 << i) - 1))
}

// Whether cell i counts, and its demand is above the room.
fn is_over(loads: &[u16; 32], row: u32, who: u32, room: u32, i: usize) -> bool
    requires { i < 32 }
    ensures { result ≡ over_in loads.now row who room i }
{
    if !has(who, i) {
        return false;
    }
    room < demand(loads, row, i)
}

// The lowest cell that counts and whose demand is above the room; the number of cells where there is none.
#[tactic(auto, using(laws::proofs::Search::found, laws::proofs::Search::missed, laws::proofs::Search::ended))]
pub fn first_over(loads: &[u16; 32], clash: &[u32; 32], who: u32, cells: usize, room: u32) -> usize
    requires { cells ≤ 32 }
    ensures { result ≡ first (λ i. over_in loads.now (get_or clash.now i 0) who room i) 0 cells }
{
    for i in 0..cells {
        if is_over(loads, clash[i], who, room, i) {
            return i;
        }
    }
    cells
}

// What a cell asks of the room: its demand where it counts, else 0.
fn asked(loads: &[u16; 32], row: u32, who: u32, i: usize) -> u32
    requires { i < 32 }
    ensures { result ≡ demand_counted loads.now row who i }
{
    if has(who, i) {
        return demand(loads, row, i);
    }
    0
}

// The greatest demand of the cells that count.
pub fn most_demand(loads: &[u16; 32], clash: &[u32; 32], who: u32, cells: usize) -> u32
    requires { cells ≤ 32 }
    ensures { result ≡ most (λ i. demand_counted loads.now (get_or clash.now i 0) who i) cells }
{
    let mut greatest: u32 = 0;
    for i in 0..cells {
        greatest = greater(greatest, asked(loads, clash[i], who, i));
    }
    greatest
}
