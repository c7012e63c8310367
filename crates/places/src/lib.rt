// What a place of a plan shows: the cells that send there, whether two of them clash, and whether it is blocked. Its text, and its line for a spreadsheet, are
// written into a lent buffer. A function `put_..` puts its text at `at` and answers where the next byte goes.
#![tactic(auto)]

ghost use Rattle.std.specs.Prelude.{◌≡◌, true, ◌+◌, ◌≤◌, ◌<◌, length};
ghost use Rattle.laws.specs.Bits.{bit_in};
ghost use Rattle.site.specs.Record.{positions};
ghost use Rattle.site.specs.Reach.{clash_of};
ghost use Rattle.phrases.specs.Put.{Put};
ghost use Rattle.phrases.specs.Phrases.{phrase};
ghost use Rattle.phrases.specs.declared.Phrase.TheVariants.{Row};
ghost use Rattle.say_faults.specs.Said.{judgeable};
ghost use Rattle.places.specs.Lines.{place_lines, spread_lines, spread_head_row};
ghost use Rattle.places.specs.Places.{place_of, sent_phrase, cells_said, clash_mark, end_mark, place_said, spread_marks, spread_said, spread_line};

use phrases::{Phrase, put_phrase};
use positions::is_blocked;
use say_faults::can_judge;
use site::Site;
use words::{first_in, has, lowest, word_at};

const FIRST_CELL: usize = 0;

const NEXT_CELL: usize = 1;

const CLASH: usize = 2;

const BLOCKED: usize = 3;

const IDLE: usize = 4;

const SPREAD_HEAD: usize = 0;

const SPREAD_PLACE: usize = 1;

const SPREAD_PLAIN: usize = 2;

const SPREAD_CLASH: usize = 3;

const SPREAD_BLOCKED: usize = 4;

const SPREAD_BOTH: usize = 5;

// What a place shows: the cells as a word, bit i for the cell at index i.
#[derive(Clone, Copy)]
pub struct PlaceShown {
    pub cells: u32,
    pub clash: bool,
    pub blocked: bool,
}

// The place at position k. The clash rows are the site's.
pub fn place_at(site: Site, table: &[u8], clash: [u32; 32], k: usize) -> PlaceShown
    requires { (judgeable site table.now ≡ true) × (bit_in clash ≡ clash_of site) × (k < positions site) }
    ensures { result ≡ place_of site table.now k }
{
    let cells = site.cells as usize;
    let n = (site.slots as usize) * (site.channels as usize);
    let blocked = site.blocked;
    let word = word_at(table, n, cells, k);
    let clashing = first_in(word, &clash, cells) < cells;
    let barred = is_blocked(&blocked, k);
    PlaceShown {
        cells: word,
        clash: clashing,
        blocked: barred,
    }
}

// Puts a part of a place.
fn put(out: &mut [u8], at: usize, what: Phrase) -> usize
    requires { at + 30 ≤ length out.old }
    ensures { Put out.old at (phrase place_lines what) 30 out.new result }
{
    put_phrase(out, at, b"@1|+@1|!|#|.|", what)
}

// Cell i, where the word has it.
fn cell_phrase(word: u32, i: usize) -> Phrase
    requires { i < 32 }
    ensures { result ≡ sent_phrase word i }
{
    if !has(word, i) {
        return Phrase::Silent;
    }
    if lowest(word, 0, 32) < i {
        return Phrase::Row(NEXT_CELL, i + 1, 0, 0, 0);
    }
    Phrase::Row(FIRST_CELL, i + 1, 0, 0, 0)
}

// The cells of a word, in rising order. Each takes at most 3 bytes.
fn put_cells(out: &mut [u8], at: usize, word: u32) -> usize
    requires { at + 126 ≤ length out.old }
    ensures { Put out.old at (cells_said word) 96 out.new result }
{
    let mut next = at;
    for i in 0..32 {
        next = put(out, next, cell_phrase(word, i));
    }
    next
}

// The mark of a clash.
fn clash_mark(clash: bool) -> Phrase
    ensures { result ≡ clash_mark clash }
{
    if clash {
        return Phrase::Row(CLASH, 0, 0, 0, 0);
    }
    Phrase::Silent
}

// The mark of a blocked place, and of one where nothing is.
fn end_mark(word: u32, blocked: bool) -> Phrase
    ensures { result ≡ end_mark word blocked }
{
    if blocked {
        return Phrase::Row(BLOCKED, 0, 0, 0, 0);
    }
    if word == 0 {
        return Phrase::Row(IDLE, 0, 0, 0, 0);
    }
    Phrase::Silent
}

// A place: its cells and its marks.
pub fn put_place(out: &mut [u8], at: usize, place: PlaceShown) -> usize
    requires { at + 156 ≤ length out.old }
    ensures { Put out.old at (place_said place) 156 out.new result }
{
    let word = place.cells;
    let first = put_cells(out, at, word);
    let second = put(out, first, clash_mark(place.clash));
    put(out, second, end_mark(word, place.blocked))
}

// Puts a part of a line for a spreadsheet.
fn put_part(out: &mut [u8], at: usize, what: Phrase) -> usize
    requires { at + 300 ≤ length out.old }
    ensures { Put out.old at (phrase spread_lines what) 300 out.new result }
{
    put_phrase(
        out,
        at,
        b"slot,channel,cells,marks\r\n|\
          @1,@2,|\
          ,\r\n|\
          ,clash\r\n|\
          ,blocked\r\n|\
          ,clash and blocked\r\n|",
        what,
    )
}

// The marks of a place in words.
fn spread_marks(clash: bool, blocked: bool) -> Phrase
    ensures { result ≡ spread_marks clash blocked }
{
    if clash {
        if blocked {
            return Phrase::Row(SPREAD_BOTH, 0, 0, 0, 0);
        }
        return Phrase::Row(SPREAD_CLASH, 0, 0, 0, 0);
    }
    if blocked {
        return Phrase::Row(SPREAD_BLOCKED, 0, 0, 0, 0);
    }
    Phrase::Row(SPREAD_PLAIN, 0, 0, 0, 0)
}

// The first line for a spreadsheet, at the start of `out`. No twin of `put_legend` in `say_grid`: a row of another table.
pub fn put_spread_head(out: &mut [u8]) -> usize
    requires { 65536 ≤ length out.old }
    ensures { Put out.old 0 (phrase spread_lines (Row spread_head_row 0 0 0 0)) 300 out.new result }
{
    put_part(out, 0, Phrase::Row(SPREAD_HEAD, 0, 0, 0, 0))
}

// The parts of the line of position k for a spreadsheet, one after the other, at the start of `out`.
fn put_spread_parts(out: &mut [u8], channels: usize, k: usize, place: PlaceShown) -> usize
    requires { (0 < channels) × (k < 2048) × (65536 ≤ length out.old) }
    ensures { Put out.old 0 (spread_said channels k place) 696 out.new result }
{
    let slot = k / channels + 1;
    let channel = k % channels + 1;
    let first = put_part(out, 0, Phrase::Row(SPREAD_PLACE, slot, channel, 0, 0));
    let second = put_cells(out, first, place.cells);
    put_part(out, second, spread_marks(place.clash, place.blocked))
}

// The line of position k for a spreadsheet, at the start of `out`; nothing where the table can't be judged, or the position is not the site's.
pub fn put_spread(out: &mut [u8], site: Site, table: &[u8], k: usize) -> usize
    requires { 65536 ≤ length out.old }
    ensures { Put out.old 0 (spread_line site table.now k) 696 out.new result }
{
    if !can_judge(site, table) {
        return 0;
    }
    if (site.slots as usize) * (site.channels as usize) <= k {
        return 0;
    }
    let clash = site.clash_rows();
    let place = place_at(site, table, clash, k);
    put_spread_parts(out, site.channels as usize, k, place)
}
