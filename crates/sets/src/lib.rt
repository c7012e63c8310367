// Sets of positions as words of 64 bits: position k is bit k % 64 of word k / 64. A set is a lent run of w words, as many as its positions take.
#![tactic(auto)]

ghost use Rattle.std.specs.Prelude.{◌≡◌, ◌&&◌, ◌||◌, not, ◌+◌, ◌-◌, ◌*◌, ◌≤◌, ◌<◌, ltb, length, get_or};
ghost use Rattle.std.proofs.lemmas.List.Edits.{sets};
ghost use Rattle.laws.specs.Bits.{bit_at, word_of};
ghost use Rattle.laws.specs.Choice.{pick};
ghost use Rattle.laws.specs.Few.{first_few};
ghost use Rattle.laws.specs.Part.{list_of};
ghost use Rattle.laws.specs.Sum.{count};
ghost use Rattle.sets.specs.Sets.{in_set, set_in};
ghost use Rattle.packing.specs.Packed.{in_row};
ghost use Rattle.sets.specs.Pack.{in_cell};

use packing::pack_words;
use positions::bits_in;
use setwords::{differing, either, first_few, kept_word, low_word, shared, without};

// How many positions a set of w words has.
pub fn set_size(set: &[u64], w: usize) -> usize
    requires { (w ≤ length set.now) × (w ≤ 65536) }
    ensures { result ≡ count (in_set set.now) (64 * w) }
{
    let mut n: usize = 0;
    for j in 0..w {
        n += bits_in(set[j]);
    }
    n
}

// Leaves a set of w words as it is. The compiler leaves the loop out.
pub fn keep_all(set: &mut [u64], w: usize)
    requires { w ≤ length set.old }
    ensures { set.new ≡ sets set.old 0 (set_in (in_set set.old) w) }
{
    for j in 0..w {
        set[j] = kept_word(set[j]);
    }
}

// Leaves the first m positions of a set of w words, a word at a time; answers how many it lacks of m.
fn take_some(set: &mut [u64], w: usize, m: usize) -> usize
    requires { w ≤ length set.old }
    ensures set { set.new ≡ sets set.old 0 (set_in (first_few (in_set set.old) m) w) }
    ensures lacking { result ≡ m - count (in_set set.old) (64 * w) }
{
    let mut left = m;
    for j in 0..w {
        let x = set[j];
        set[j] = first_few(x, left);
        left = left.saturating_sub(bits_in(x));
    }
    left
}

// The same. Where the set has no more than m positions it stays, and is only counted.
pub fn take_first(set: &mut [u64], w: usize, m: usize) -> usize
    requires { (w ≤ length set.old) × (w ≤ 65536) }
    ensures set { set.new ≡ sets set.old 0 (set_in (first_few (in_set set.old) m) w) }
    ensures lacking { result ≡ m - count (in_set set.old) (64 * w) }
{
    let many = set_size(set, w);
    if many <= m {
        keep_all(set, w);
        return m - many;
    }
    take_some(set, w, m)
}

// The positions that two sets share, as a third.
pub fn meet_of(to: &mut [u64], a: &[u64], b: &[u64], w: usize)
    requires { (w ≤ length to.old) × (w ≤ length a.now) × (w ≤ length b.now) }
    ensures { to.new ≡ sets to.old 0 (set_in (λ k. in_set a.now k && in_set b.now k) w) }
{
    for j in 0..w {
        to[j] = shared(a[j], b[j]);
    }
}

// How many positions one of two sets has and the other has not.
pub fn unlike_count(a: &[u64], b: &[u64], w: usize) -> usize
    requires { (w ≤ length a.now) × (w ≤ length b.now) × (w ≤ 65536) }
    ensures { result ≡ count (λ k. pick (in_set b.now k) (not (in_set a.now k)) (in_set a.now k)) (64 * w) }
{
    let mut n: usize = 0;
    for j in 0..w {
        n += differing(a[j], b[j]);
    }
    n
}

// Joins the positions of another set.
pub fn join_set(set: &mut [u64], with: &[u64], w: usize)
    requires { (w ≤ length set.old) × (w ≤ length with.now) }
    ensures { set.new ≡ sets set.old 0 (set_in (λ k. in_set set.old k || in_set with.now k) w) }
{
    for j in 0..w {
        set[j] = either(set[j], with[j]);
    }
}

// Takes the positions of another set away, which begins at word `at` of what is lent.
pub fn take_away(set: &mut [u64], with: &[u64], at: usize, w: usize)
    requires { (w ≤ length set.old) × (at + w ≤ length with.now) }
    ensures { set.new
        ≡ sets set.old 0 (set_in (λ k. in_set set.old k && not (in_set with.now (64 * at + k))) w) }
{
    for j in 0..w {
        set[j] = without(set[j], with[at + j]);
    }
}

// Stores the first w words of a set from word `at` on.
pub fn put_set(out: &mut [u64], at: usize, set: &[u64], w: usize)
    requires { (w ≤ length set.now) × (at + w ≤ length out.old) }
    ensures { out.new ≡ sets out.old at (list_of (λ j. get_or set.now j 0) w) }
{
    for j in 0..w {
        out[at + j] = set[j];
    }
}

// The set of the first n positions, in w words.
pub fn first_positions(set: &mut [u64], w: usize, n: usize)
    requires { (w ≤ length set.old) × (w ≤ 65536) }
    ensures { set.new ≡ sets set.old 0 (set_in (λ k. ltb k n) w) }
{
    for j in 0..w {
        set[j] = low_word(n.saturating_sub(64 * j));
    }
}

// Packs a row of bytes into a set of w words: the positions that are reserved.
pub fn pack_row(set: &mut [u64], row: &[u8], w: usize)
    requires { (length row.now ≤ 64 * w) × (w ≤ 32) × (w ≤ length set.old) }
    ensures { set.new ≡ sets set.old 0 (set_in (in_row row.now) w) }
{
    pack_words(set, row, w);
}

// Packs cell i's row of a table of rows of n positions.
pub fn pack_cell(set: &mut [u64], table: &[u8], w: usize, n: usize, i: usize)
    requires { (w ≤ 32) × (n ≤ 64 * w) × (i * n + n ≤ length table.now) × (w ≤ length set.old) }
    ensures { set.new ≡ sets set.old 0 (set_in (in_cell n table.now i) w) }
{
    let from = i * n;
    let to = from + n;
    pack_row(set, &table[from..to], w);
}
