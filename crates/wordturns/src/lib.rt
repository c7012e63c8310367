// A cell's turn in mending where there are at most 64 positions: what is free, what stood and what stands are one word each.
#![tactic(auto)]

ghost use Rattle.std.specs.Prelude.{◌≡◌, ◌&&◌, not, ◌-◌, ◌≤◌, length};
ghost use Rattle.laws.specs.Bits.{bit_at, bit_in, word_of};
ghost use Rattle.laws.specs.Choice.{pick};
ghost use Rattle.laws.specs.Sum.{any};
ghost use Rattle.wordturns.specs.Turn.{word_here, word_short, word_moves};

use positions::bits_in;
use setwords::{differing, either, first_few, shared, without};

// A word where it counts, else none.
fn counted(x: u64, counts: bool) -> u64
    ensures { result ≡ pick counts x 0 }
{
    if counts {
        return x;
    }
    0
}

// The positions of a word where none of the i cells below that the clash row has stands.
pub fn free_word(vacant: u64, stands: &[u64], row: u32, i: usize) -> u64
    requires { (i ≤ 32) × (i ≤ length stands.now) }
    ensures { result ≡ word_of (λ k. bit_at vacant k && not (any (λ a. bit_at row a && bit_in stands.now a k) i)) 64 }
{
    let mut free = vacant;
    for a in 0..i {
        let clashes = (row >> a) % 2 == 1;
        free = without(free, counted(stands[a], clashes));
    }
    free
}

// What a cell's turn comes to: where it stands, the fragments that found no room, and the number of changes.
#[derive(Clone, Copy)]
pub struct WordTurn {
    pub here: u64,
    pub short: usize,
    pub changes: usize,
}

// The turn of a cell, by the free positions and its old reservations: it keeps what it may, then adds what is lacking.
pub fn word_turn(free: u64, old: u64, load: usize) -> WordTurn
    ensures here { result.here ≡ word_here free old load }
    ensures short { result.short ≡ word_short free old load }
    ensures changes { result.changes ≡ word_moves free old load }
{
    let kept = first_few(shared(free, old), load);
    let lacking = load.saturating_sub(bits_in(kept));
    let rest = without(free, kept);
    let here = either(kept, first_few(rest, lacking));
    let short = lacking.saturating_sub(bits_in(rest));
    WordTurn {
        here: here,
        short: short,
        changes: differing(here, old),
    }
}
