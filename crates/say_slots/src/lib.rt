// The slot map of a plan, written into a lent buffer at `at`: the answer is where the next byte goes. Cells, slots, channels and positions are counted from
// 0. The clash rows of the site are made once, by the caller.
#![tactic(auto)]

ghost use Rattle.std.specs.Prelude.{◌≡◌, ◌&&◌, ◌||◌, not, ◌+◌, ◌-◌, ◌*◌, ◌%◌, ◌≤◌, ◌<◌, eqb, ltb, length};
ghost use Rattle.laws.specs.Bits.{bit_at};
ghost use Rattle.laws.specs.Choice.{pick};
ghost use Rattle.laws.specs.Sum.{any};
ghost use Rattle.theory.specs.Greedy.{reserved};
ghost use Rattle.positions.specs.Blocked.{blocked_at};
ghost use Rattle.site.specs.Record.{positions, size};
ghost use Rattle.site.specs.Means.{Sized};
ghost use Rattle.phrases.specs.Put.{Put};
ghost use Rattle.phrases.specs.Phrases.{phrase};
ghost use Rattle.phrases.specs.declared.Phrase.TheVariants.{Row, Silent};
ghost use Rattle.drawing.specs.Lines.{mark_lines, band_lines};
ghost use Rattle.drawing.specs.Places.{slot_wide, channel_high, down_of};
ghost use Rattle.say_slots.specs.Code.{Drawn};
ghost use Rattle.drawing.specs.Slots.{marked_as, run_past, marks_of_kind, edge_phrase, frame_phrase, name_phrase};
ghost use Rattle.drawing.specs.Slots.{every_slot, slot_phrase, slot_numbers};

use phrases::{Phrase, put_phrase};
use positions::is_blocked;
use site::Site;
use words::lowest;

const BLOCKED: usize = 0;

const CLEAR: usize = 1;

const SENDS: usize = 2;

const EDGE: usize = 0;

const GRID: usize = 1;

const NAME: usize = 2;

const SLOT: usize = 3;

const LEFT: usize = 150;

const TOP: usize = 790;

const GAP: usize = 12;

// Puts a mark, or nothing.
fn put_one_mark(out: &mut [u8], at: usize, what: Phrase) -> usize
    requires { at + 480 ≤ length out.old }
    ensures { Put out.old at (phrase mark_lines what) 480 out.new result }
{
    put_phrase(
        out,
        at,
        b"<path class=\"blocked\" d=\"M@1 @2h@3v@4h-@3z\"/>\n|\
          <path class=\"clear\" d=\"M@1 @2h@3v@4h-@3z\"/>\n|\
          <rect x=\"@1\" y=\"@2\" width=\"@3\" height=\"@4\"/>\n|\
          <path class=\"wrong\" d=\"M@1 @2 h@3 v@4 h-@3 z\"/>\n|",
        what,
    )
}

// Puts a frame or a word of a band, or nothing.
fn put_frame(out: &mut [u8], at: usize, what: Phrase) -> usize
    requires { at + 490 ≤ length out.old }
    ensures { Put out.old at (phrase band_lines what) 490 out.new result }
{
    put_phrase(
        out,
        at,
        b"<path class=\"edge\" d=\"M@1 @2h@3v@4h-@3z\"/>\n|\
          <path class=\"grid\" d=\"M@1 @2h@3v@4h-@3z\"/>\n|\
          <text class=\"end\" x=\"140\" y=\"@1\">cell @2</text>\n|\
          <text class=\"tiny\" x=\"@1\" y=\"780\">@2</text>\n|",
        what,
    )
}

// How wide a slot is.
pub fn slot_wide(site: Site) -> usize
    requires { Sized site }
    ensures { result ≡ slot_wide site }
{
    let slots = site.slots as usize;
    (1664 / slots).min(416)
}

// How high a channel is in a band.
pub fn channel_high(site: Site) -> usize
    requires { Sized site }
    ensures { result ≡ channel_high site }
{
    let rows = (site.cells as usize) * (site.channels as usize);
    (1536 / rows).min(48)
}

// How far down a channel of a cell's band begins.
fn down(site: Site, high: usize, i: usize, channel: usize) -> usize
    requires { Sized site × (high ≡ channel_high site) × (i < site.cells) × (channel < site.channels) }
    ensures { result ≡ down_of site i channel }
{
    let channels = site.channels as usize;
    let step = channels * high + GAP;
    TOP + (i * step + channel * high)
}

// Whether one of the cells of the row sends at position k.
fn meets_one(table: &[u8], n: usize, row: u32, cells: usize, k: usize) -> bool
    requires { (k < n) × (n ≤ 2048) × (cells ≤ 32) × (cells * n ≤ length table.now) }
    ensures { result ≡ any (λ c. reserved n table.now c k && bit_at row c) cells }
{
    let mut c = lowest(row, 0, cells);
    // From member to member of a word: no index is counted.
    while c < cells {
        if table[c * n + k] == 1 {
            return true;
        }
        c = lowest(row, c + 1, cells);
    }
    false
}

// Whether cell i is silent at position k, where a cell of its clash row sends and nothing is blocked.
fn keeps_clear(site: &Site, table: &[u8], row: u32, i: usize, k: usize) -> bool
    requires { Sized site.now × (size site.now ≤ length table.now) × (i < site.now.cells) × (k < positions site.now) }
    ensures { result ≡ (not (reserved (positions site.now) table.now i k)
        && (not (blocked_at site.now.blocked k) && any (λ c. reserved (positions site.now) table.now c k && bit_at row c) site.now.cells)) }
{
    let n = (site.slots as usize) * (site.channels as usize);
    if table[i * n + k] == 1 {
        return false;
    }
    if is_blocked(&site.blocked, k) {
        return false;
    }
    meets_one(table, n, row, site.cells as usize, k)
}

// Whether cell i sends at position k, where it is blocked or a cell of its clash row sends too.
fn sends_wrong(site: &Site, table: &[u8], row: u32, i: usize, k: usize) -> bool
    requires { Sized site.now × (size site.now ≤ length table.now) × (i < site.now.cells) × (k < positions site.now) }
    ensures { result ≡ (reserved (positions site.now) table.now i k
        && (blocked_at site.now.blocked k || any (λ c. reserved (positions site.now) table.now c k && bit_at row c) site.now.cells)) }
{
    let n = (site.slots as usize) * (site.channels as usize);
    if table[i * n + k] != 1 {
        return false;
    }
    if is_blocked(&site.blocked, k) {
        return true;
    }
    meets_one(table, n, row, site.cells as usize, k)
}

// Whether cell i sends at position k.
fn sends_at(site: &Site, table: &[u8], i: usize, k: usize) -> bool
    requires { Sized site.now × (size site.now ≤ length table.now) × (i < site.now.cells) × (k < positions site.now) }
    ensures { result ≡ reserved (positions site.now) table.now i k }
{
    let n = (site.slots as usize) * (site.channels as usize);
    table[i * n + k] == 1
}

// Whether cell i has the mark at position k.
fn marked(site: &Site, table: &[u8], clash: &[u32; 32], mark: usize, i: usize, k: usize) -> bool
    requires { Drawn site.now table.now clash.now × (i < site.now.cells) × (k < positions site.now) }
    ensures { result ≡ marked_as site.now table.now mark i k }
{
    if mark == BLOCKED {
        return is_blocked(&site.blocked, k);
    }
    if mark == CLEAR {
        return keeps_clear(site, table, clash[i], i, k);
    }
    if mark == SENDS {
        return sends_at(site, table, i, k);
    }
    sends_wrong(site, table, clash[i], i, k)
}

// The first slot from a slot on that has not the mark.
fn run_past(
    site: &Site,
    table: &[u8],
    clash: &[u32; 32],
    mark: usize,
    i: usize,
    channel: usize,
    slot: usize,
) -> usize
    requires { Drawn site.now table.now clash.now × (i < site.now.cells) × (channel < site.now.channels) × (slot < site.now.slots) }
    ensures { result ≡ run_past site.now table.now mark i channel slot }
{
    let slots = site.slots as usize;
    let channels = site.channels as usize;
    for j in slot..slots {
        if !marked(site, table, clash, mark, i, j * channels + channel) {
            return j;
        }
    }
    slots
}

// The mark of a run of slots, or nothing where there is none in it. A slot is so wide, a channel so high, and this one begins so far down.
fn run_phrase(mark: usize, slot: usize, past: usize, wide: usize, high: usize, y: usize) -> Phrase
    requires { (slot ≤ past) × (past ≤ 128) × (wide ≤ 416) }
    ensures { result ≡ pick (ltb slot past) (Row mark (150 + slot * wide) y ((past - slot) * wide) high) Silent }
{
    if slot == past {
        return Phrase::Silent;
    }
    Phrase::Row(mark, LEFT + slot * wide, y, (past - slot) * wide, high)
}

// The marks of one kind in a channel of the band of cell i.
pub fn put_marks(
    out: &mut [u8],
    at: usize,
    site: Site,
    table: &[u8],
    clash: [u32; 32],
    mark: usize,
    i: usize,
    channel: usize,
) -> usize
    requires { Drawn site table.now clash × (i < site.cells) × (channel < site.channels) × (at + 61440 ≤ length out.old) }
    ensures { Put out.old at (marks_of_kind site table.now mark i channel site.slots) 61440 out.new result }
{
    let slots = site.slots as usize;
    let wide = slot_wide(site);
    let high = channel_high(site);
    let y = down(site, high, i, channel);
    let mut next = at;
    let mut slot = 0;
    // From run to run: a turn takes as many slots as the run has.
    while slot < slots {
        let past = run_past(&site, table, &clash, mark, i, channel, slot);
        next = put_one_mark(out, next, run_phrase(mark, slot, past, wide, high, y));
        slot = past.max(slot + 1);
    }
    next
}

// A box as wide as the map.
fn put_box(out: &mut [u8], at: usize, site: Site, row: usize, y: usize, high: usize) -> usize
    requires { Sized site × (at + 490 ≤ length out.old) }
    ensures { Put out.old at (phrase band_lines (Row row 150 y (site.slots * slot_wide site) high)) 490 out.new result }
{
    let wide = slot_wide(site);
    let slots = site.slots as usize;
    put_frame(out, at, Phrase::Row(row, LEFT, y, slots * wide, high))
}

// The edge of a channel in a band, where it is high enough to be seen.
pub fn put_edge(out: &mut [u8], at: usize, site: Site, i: usize, channel: usize) -> usize
    requires { Sized site × (i < site.cells) × (channel < site.channels) × (at + 490 ≤ length out.old) }
    ensures { Put out.old at (phrase band_lines (edge_phrase site i channel)) 490 out.new result }
{
    let high = channel_high(site);
    if high <= 7 {
        return at;
    }
    put_box(out, at, site, EDGE, down(site, high, i, channel), high)
}

// The frame of the band of cell i.
pub fn put_band(out: &mut [u8], at: usize, site: Site, i: usize) -> usize
    requires { Sized site × (i < site.cells) × (at + 490 ≤ length out.old) }
    ensures { Put out.old at (phrase band_lines (frame_phrase site i)) 490 out.new result }
{
    let high = channel_high(site);
    let channels = site.channels as usize;
    put_box(out, at, site, GRID, down(site, high, i, 0), channels * high)
}

// The name of the band of cell i.
pub fn put_band_name(out: &mut [u8], at: usize, site: Site, i: usize) -> usize
    requires { Sized site × (i < site.cells) × (at + 490 ≤ length out.old) }
    ensures { Put out.old at (phrase band_lines (name_phrase site i)) 490 out.new result }
{
    let high = channel_high(site);
    let channels = site.channels as usize;
    let y = down(site, high, i, 0);
    put_frame(
        out,
        at,
        Phrase::Row(NAME, y + (channels * high / 2 + 9), i + 1, 0, 0),
    )
}

// How many slots there are to a number.
pub fn every_slot(site: Site) -> usize
    ensures { result ≡ every_slot site }
{
    if 32 < site.slots {
        return 8;
    }
    1
}

// Whether a slot's number is written: each up to 32 slots, and from there on each eighth.
fn numbered(slots: usize, number: usize) -> bool
    ensures { result ≡ eqb (number % pick (ltb 32 slots) 8 1) 0 }
{
    if 32 < slots {
        return number % 8 == 0;
    }
    number % 1 == 0
}

// The number of a slot, or nothing: of every slot, or of each eighth.
fn slot_phrase(site: Site, slot: usize) -> Phrase
    requires { Sized site × (slot < site.slots) }
    ensures { result ≡ slot_phrase site slot }
{
    let slots = site.slots as usize;
    let number = slot + 1;
    if numbered(slots, number) {
        let wide = slot_wide(site);
        return Phrase::Row(SLOT, LEFT + slot * wide + wide / 2, number, 0, 0);
    }
    Phrase::Silent
}

// The numbers of the slots.
pub fn put_numbers(out: &mut [u8], at: usize, site: Site) -> usize
    requires { Sized site × (at + 62720 ≤ length out.old) }
    ensures { Put out.old at (slot_numbers site site.slots) 62720 out.new result }
{
    let slots = site.slots as usize;
    let mut next = at;
    for slot in 0..slots {
        next = put_frame(out, next, slot_phrase(site, slot));
    }
    next
}
