// The list of a set of positions, written into a lent buffer: each function puts its text at `at` and answers where the next byte goes.
#![tactic(auto)]

ghost use Rattle.std.specs.Prelude.{◌≡◌, ◌&&◌, ◌||◌, not, true, false, [], ◌∷◌, ◌++◌, ◌+◌, ◌≤◌, ◌<◌, eqb, ltb, length};
ghost use Rattle.std.proofs.lemmas.List.Edits.{sets};
ghost use Rattle.laws.specs.Bits.{bit_at};
ghost use Rattle.laws.specs.Choice.{pick};
ghost use Rattle.laws.specs.Search.{first};
ghost use Rattle.blocklist.specs.Format.{side_text, item_text};
ghost use Rattle.putblocks.specs.Canon.{slot_word, side_for, runs_from, slots_end, blocked_text};
ghost use Rattle.putblocks.specs.Loop.{comma_if, more_text, item_for};

use phrases::put_byte;
use positions::{bit_weight, is_blocked};
use text::put_number;

const STAR: u8 = 42;

const COMMA: u8 = 44;

const DASH: u8 = 45;

const DOT: u8 = 46;

// Whether from to `to` are all of 1 to most.
fn is_whole(from: usize, to: usize, most: usize) -> bool
    ensures { result ≡ (eqb from 1 && eqb to most) }
{
    if from != 1 {
        return false;
    }
    to == most
}

// One side of an item.
fn put_side(out: &mut [u8], at: usize, from: usize, to: usize, most: usize) -> usize
    requires { at + length (side_text (side_for most from to)) ≤ length out.old }
    ensures stored { out.new ≡ sets out.old at (side_text (side_for most from to)) }
    ensures next { result ≡ at + length (side_text (side_for most from to)) }
{
    if is_whole(from, to, most) {
        return put_byte(out, at, STAR);
    }
    if from == to {
        return put_number(out, at, from);
    }
    let a = put_number(out, at, from);
    let b = put_byte(out, a, DASH);
    put_number(out, b, to)
}

// The comma before an item, where one was written before it.
fn put_comma(out: &mut [u8], at: usize, begun: bool) -> usize
    requires { at + length (comma_if begun) ≤ length out.old }
    ensures stored { out.new ≡ sets out.old at (comma_if begun) }
    ensures next { result ≡ at + length (comma_if begun) }
{
    if begun {
        return put_byte(out, at, COMMA);
    }
    at
}

// An item: slots a to b, channels c to d.
fn put_item(
    out: &mut [u8],
    at: usize,
    begun: bool,
    a: usize,
    b: usize,
    slots: usize,
    c: usize,
    d: usize,
    channels: usize,
) -> usize
    requires { at + length (comma_if begun ++ item_text (item_for slots a b channels c d)) ≤ length out.old }
    ensures stored { out.new ≡ sets out.old at (comma_if begun ++ item_text (item_for slots a b channels c d)) }
    ensures next { result ≡ at + length (comma_if begun ++ item_text (item_for slots a b channels c d)) }
{
    let p = put_comma(out, at, begun);
    let q = put_side(out, p, a, b, slots);
    let r = put_byte(out, q, DOT);
    put_side(out, r, c, d, channels)
}

// Whether bit g of a word is as wanted.
fn is_bit(x: u64, want: bool, g: usize) -> bool
    requires { g < 64 }
    ensures { result ≡ pick want (bit_at x g) (not (bit_at x g)) }
{
    if want {
        return (x >> g) % 2 == 1;
    }
    (x >> g) % 2 != 1
}

// The first bit from f on and below e that is as wanted; e where none is.
fn first_bit(x: u64, want: bool, f: usize, e: usize) -> usize
    requires { e ≤ 64 }
    ensures { result ≡ first (λ g. pick want (bit_at x g) (not (bit_at x g))) f e }
{
    for g in f..e {
        if is_bit(x, want, g) {
            return g;
        }
    }
    f.max(e)
}

// The items of a run of slots, a to b, for the channels of x.
fn put_runs(
    out: &mut [u8],
    at: usize,
    begun: bool,
    a: usize,
    b: usize,
    slots: usize,
    channels: usize,
    x: u64,
) -> usize
    requires { (channels ≤ 16) × (at + length (more_text begun (runs_from channels (side_for slots a b) channels x 0)) ≤ length out.old) }
    ensures stored { out.new ≡ sets out.old at (more_text begun (runs_from channels (side_for slots a b) channels x 0)) }
    ensures next { result ≡ at + length (more_text begun (runs_from channels (side_for slots a b) channels x 0)) }
{
    let mut p = at;
    let mut more = begun;
    let mut f: usize = 0;
    for _ in 0..channels {
        let c = first_bit(x, true, f, channels);
        if channels <= c {
            return p;
        }
        let e = first_bit(x, false, c, channels);
        p = put_item(out, p, more, a, b, slots, c + 1, e, channels);
        more = true;
        f = e;
    }
    p
}

// The channels of slot t that are in the set.
fn slot_word(set: &[u64; 32], channels: usize, t: usize) -> u64
    requires { (channels ≤ 16) × (t < 128) }
    ensures { result ≡ slot_word set.now channels t }
{
    let mut y: u64 = 0;
    for f in 0..channels {
        let b = is_blocked(set, t * channels + f);
        y = y | bit_weight(b, f);
    }
    y
}

// The first slot after t whose channels are others.
fn slots_end(set: &[u64; 32], slots: usize, channels: usize, t: usize) -> usize
    requires { (slots ≤ 128) × (channels ≤ 16) × (t < slots) }
    ensures { result ≡ slots_end set.now slots channels t }
{
    let x = slot_word(set, channels, t);
    for u in t + 1..slots {
        if slot_word(set, channels, u) != x {
            return u;
        }
    }
    slots
}

// Whether something was written up to now.
fn begun_by(begun: bool, p: usize, q: usize) -> bool
    ensures { result ≡ (begun || ltb p q) }
{
    if begun {
        return true;
    }
    p < q
}

// The list of a set of positions of a site with so many slots and channels. It takes 28,672 bytes at most.
pub fn put_blocked(
    out: &mut [u8],
    at: usize,
    set: &[u64; 32],
    slots: usize,
    channels: usize,
) -> usize
    requires { (slots ≤ 128) × (channels ≤ 16) × (at + length (blocked_text set.now slots channels) ≤ length out.old) }
    ensures stored { out.new ≡ sets out.old at (blocked_text set.now slots channels) }
    ensures next { result ≡ at + length (blocked_text set.now slots channels) }
{
    let mut p = at;
    let mut begun = false;
    let mut t: usize = 0;
    for _ in 0..slots {
        if slots <= t {
            return p;
        }
        let u = slots_end(set, slots, channels, t);
        let x = slot_word(set, channels, t);
        let q = put_runs(out, p, begun, t + 1, u, slots, channels, x);
        begun = begun_by(begun, p, q);
        p = q;
        t = u;
    }
    p
}
