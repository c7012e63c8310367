// The list of blocked positions as it is typed: `*.11-14,3.1`. Items with commas between, each a slot, a dot and a channel;
// each of the two a number, a range or `*`.
#![tactic(auto)]

ghost use Rattle.std.specs.Prelude.{◌≡◌, ◌||◌, ◌+◌, ◌*◌, ◌≤◌, ◌<◌, length};
ghost use Rattle.laws.specs.Bits.{bit_at, word_of};
ghost use Rattle.positions.specs.Blocked.{empty_set};
ghost use Rattle.blocklist.specs.Read.{span_of, span_read, block_read, in_span, covers, with_block, bad_list, sizes_fit, list_from, read_list};

use lines::{eat, read_number};
use positions::bit_weight;

const NOWHERE: usize = 18446744073709551615;

const STAR: u8 = 42;

const COMMA: u8 = 44;

const DASH: u8 = 45;

const DOT: u8 = 46;

// The place of the first item of a list that is not one.
#[derive(Clone, Copy)]
pub struct BadList(pub usize);

// The blocked positions; none beside a refusal.
#[derive(Clone, Copy)]
pub struct ListRead {
    pub blocked: [u64; 32],
    pub answer: Result<(), BadList>,
}

// The numbers of one side of an item, and the place after it; NOWHERE where it is not of the format.
#[derive(Clone, Copy)]
struct Span {
    pub from: usize,
    pub to: usize,
    pub next: usize,
}

// The two sides of an item.
#[derive(Clone, Copy)]
struct Block {
    pub slots: Span,
    pub channels: Span,
}

// A span, where it begins with 1 or more and does not run backwards.
fn span_of(from: usize, to: usize, next: usize) -> Span
    ensures { result ≡ span_of from to next }
{
    if from < 1 {
        return Span {
            from,
            to,
            next: NOWHERE,
        };
    }
    if to < from {
        return Span {
            from,
            to,
            next: NOWHERE,
        };
    }
    Span { from, to, next }
}

// One side of an item, of numbers up to `most`.
fn read_span(s: &[u8], at: usize, most: usize) -> Span
    ensures { result ≡ span_read s.now at most }
{
    let star = eat(s, at, STAR);
    if star != NOWHERE {
        return Span {
            from: 1,
            to: most,
            next: star,
        };
    }
    let a = read_number(s, at, most);
    let dash = eat(s, a.next, DASH);
    if dash == NOWHERE {
        return span_of(a.value, a.value, a.next);
    }
    let b = read_number(s, dash, most);
    span_of(a.value, b.value, b.next)
}

// An item.
fn read_block(s: &[u8], at: usize, slots: usize, channels: usize) -> Block
    ensures { result ≡ block_read s.now at slots channels }
{
    let a = read_span(s, at, slots);
    let dot = eat(s, a.next, DOT);
    let b = read_span(s, dot, channels);
    Block {
        slots: a,
        channels: b,
    }
}

// Whether x is one of a side's numbers.
fn in_span(a: Span, x: usize) -> bool
    ensures { result ≡ in_span a x }
{
    if x < a.from {
        return false;
    }
    x <= a.to
}

// Whether position k is one of an item's.
fn covered(b: Block, channels: usize, k: usize) -> bool
    requires { (0 < channels) × (k < 2048) }
    ensures { result ≡ covers channels b k }
{
    let slots = b.slots;
    if !in_span(slots, k / channels + 1) {
        return false;
    }
    let across = b.channels;
    in_span(across, k % channels + 1)
}

// Word j of an item's positions, joined to x.
fn joined(x: u64, j: usize, block: Block, channels: usize) -> u64
    requires { (0 < channels) × (j < 32) }
    ensures { result ≡ word_of (λ b. bit_at x b || covers channels block (64 * j + b)) 64 }
{
    let mut y: u64 = 0;
    for b in 0..64 {
        let t = covered(block, channels, 64 * j + b);
        y = y | bit_weight(t, b);
    }
    x | y
}

// Joins an item's positions to the set.
fn add_block(set: &mut [u64; 32], block: Block, channels: usize)
    requires { (0 < channels) × (length set.old ≡ 32) }
    ensures { set.new ≡ with_block channels block set.old }
{
    for j in 0..32 {
        set[j] = joined(set[j], j, block, channels);
    }
}

// A list that is not of the format.
fn bad_list(at: usize) -> ListRead
    ensures { result ≡ bad_list at }
{
    ListRead {
        blocked: [0; 32],
        answer: Err(BadList(at)),
    }
}

// The items, one by one; there are not more of them than bytes.
fn read_items(s: &[u8], slots: usize, channels: usize) -> ListRead
    requires { 0 < channels }
    ensures { result ≡ list_from (length s.now) s.now slots channels empty_set 0 }
{
    let mut set = [0u64; 32];
    let mut at: usize = 0;
    for _ in 0..s.len() {
        let block = read_block(s, at, slots, channels);
        add_block(&mut set, block, channels);
        let next = block.channels.next;
        if next == s.len() {
            return ListRead {
                blocked: set,
                answer: Ok(()),
            };
        }
        let comma = eat(s, next, COMMA);
        if comma == NOWHERE {
            return bad_list(at);
        }
        at = comma;
    }
    bad_list(at)
}

// Whether a site may have so many slots and channels.
fn sizes_fit(slots: usize, channels: usize) -> bool
    ensures { result ≡ sizes_fit slots channels }
{
    if slots < 1 {
        return false;
    }
    if 128 < slots {
        return false;
    }
    if channels < 1 {
        return false;
    }
    channels <= 16
}

// Reads the list of blocked positions of a site with so many slots and channels. Where there can be no such site, the list is bad at 0.
pub fn read_list(bytes: &[u8], slots: u16, channels: u16) -> ListRead
    ensures { result ≡ read_list bytes.now slots channels }
{
    let t = slots as usize;
    let f = channels as usize;
    if !sizes_fit(t, f) {
        return bad_list(0);
    }
    read_items(bytes, t, f)
}
