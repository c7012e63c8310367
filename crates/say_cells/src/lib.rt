// The lines of a cell: where it sends, where it clashes there, and where that is blocked, runs joined. They are put at the start of `out`, and the answer is
// where the next byte goes.
#![tactic(auto)]

ghost use Rattle.std.specs.Prelude.{◌≡◌, true, ◌+◌, ◌≤◌, ◌<◌, length, get_or};
ghost use Rattle.laws.specs.Bits.{bit_in};
ghost use Rattle.laws.specs.Choice.{pick};
ghost use Rattle.laws.specs.Part.{list_of};
ghost use Rattle.site.specs.Reach.{clash_of, clash_rows};
ghost use Rattle.phrases.specs.Put.{Put};
ghost use Rattle.phrases.specs.Phrases.{phrase};
ghost use Rattle.say_faults.specs.Said.{judgeable};
ghost use Rattle.say_cells.specs.Lines.{sender_lines};
ghost use Rattle.say_cells.specs.Cells.{of_kind, held_as, channels_at, slot_channels, sender_row, begin_phrase, none_phrase, row_line, sender_line};

use phrases::{Phrase, put_phrase};
use places::{PlaceShown, place_at};
use say_faults::can_judge;
use say_runs::{put_runs, some_run};
use site::Site;
use words::has;

const CELL: usize = 0;

const NOWHERE: usize = 1;

const CLASHES: usize = 2;

const BARRED: usize = 3;

const CELL_END: usize = 4;

// Which reservations of a cell are listed: all, those that clash, those at blocked positions.
#[derive(Clone, Copy)]
pub enum SentAs {
    Sends,
    Clashing,
    Barred,
}

// Puts a part of a line.
fn put(out: &mut [u8], at: usize, what: Phrase) -> usize
    requires { at + 300 ≤ length out.old }
    ensures { Put out.old at (phrase sender_lines what) 300 out.new result }
{
    put_phrase(
        out,
        at,
        b"cell @1:|\
          cell @1 sends nowhere\n|\
          \x20\x20clashes:|\
          \x20\x20blocked:|\
          \n|",
        what,
    )
}

// Whether a place is of a kind, for a cell with this clash row.
fn of_kind(kind: SentAs, row: u32, place: PlaceShown) -> bool
    ensures { result ≡ of_kind kind row place }
{
    match kind {
        SentAs::Sends => true,
        SentAs::Clashing => (place.cells & row) != 0,
        SentAs::Barred => place.blocked,
    }
}

// Whether cell i sends at a place of a kind.
fn held_as(kind: SentAs, row: u32, i: usize, place: PlaceShown) -> bool
    requires { i < 32 }
    ensures { result ≡ held_as kind row i place }
{
    if !has(place.cells, i) {
        return false;
    }
    of_kind(kind, row, place)
}

// The bits where a test holds, else 0.
fn weight_if(test: bool, bits: u32) -> u32
    ensures { result ≡ pick test bits 0 }
{
    if test {
        return bits;
    }
    0
}

// The channels of a slot where a cell sends at a place of a kind.
fn channels_at(
    site: Site,
    table: &[u8],
    clash: [u32; 32],
    kind: SentAs,
    i: usize,
    slot: usize,
) -> u32
    requires { (judgeable site table.now ≡ true) × (clash ≡ clash_rows site) × (bit_in clash ≡ clash_of site) × (i < site.cells) × (slot < site.slots) }
    ensures { result ≡ channels_at site table.now kind i slot }
{
    let channels = site.channels as usize;
    let row = clash[i];
    let mut word: u32 = 0;
    for f in 0..channels {
        let place = place_at(site, table, clash, slot * channels + f);
        let held = held_as(kind, row, i, place);
        word = word | weight_if(held, 1 << f);
    }
    word
}

// The same, and nothing past the slots of the site.
fn slot_word(site: Site, table: &[u8], clash: [u32; 32], kind: SentAs, i: usize, slot: usize) -> u32
    requires { (judgeable site table.now ≡ true) × (clash ≡ clash_rows site) × (bit_in clash ≡ clash_of site) × (i < site.cells) }
    ensures { result ≡ slot_channels site table.now kind i slot }
{
    if slot < site.slots as usize {
        return channels_at(site, table, clash, kind, i, slot);
    }
    0
}

// A word of channels for each slot.
fn lay_words(words: &mut [u32], site: Site, table: &[u8], clash: [u32; 32], kind: SentAs, i: usize)
    requires { (judgeable site table.now ≡ true) × (clash ≡ clash_rows site) × (bit_in clash ≡ clash_of site) × (i < site.cells) }
    ensures { words.new ≡ list_of (slot_channels site table.now kind i) (length words.old) }
{
    for slot in 0..words.len() {
        words[slot] = slot_word(site, table, clash, kind, i, slot);
    }
}

// How a line begins.
fn begin_phrase(kind: SentAs, i: usize) -> Phrase
    requires { i < 32 }
    ensures { result ≡ begin_phrase kind i }
{
    match kind {
        SentAs::Sends => Phrase::Row(CELL, i + 1, 0, 0, 0),
        SentAs::Clashing => Phrase::Row(CLASHES, 0, 0, 0, 0),
        SentAs::Barred => Phrase::Row(BARRED, 0, 0, 0, 0),
    }
}

// What is said where there is no such reservation.
fn none_phrase(kind: SentAs, i: usize) -> Phrase
    requires { i < 32 }
    ensures { result ≡ none_phrase kind i }
{
    match kind {
        SentAs::Sends => Phrase::Row(NOWHERE, i + 1, 0, 0, 0),
        SentAs::Clashing => Phrase::Silent,
        SentAs::Barred => Phrase::Silent,
    }
}

// The line of a row, which has a word of channels for each slot.
fn put_row_line(out: &mut [u8], channels: usize, kind: SentAs, i: usize, row: &[u32]) -> usize
    requires { (channels ≤ 16) × (i < 32) × (length row.now ≡ 128) × (65536 ≤ length out.old) }
    ensures { Put out.old 0 (row_line channels kind i row.now) 46168 out.new result }
{
    if !some_run(row) {
        return put(out, 0, none_phrase(kind, i));
    }
    let first = put(out, 0, begin_phrase(kind, i));
    let last = put_runs(out, first, channels, row);
    put(out, last, Phrase::Row(CELL_END, 0, 0, 0, 0))
}

// The line of a cell, where the table can be judged and the cell is the site's.
pub fn put_sender(out: &mut [u8], site: Site, table: &[u8], kind: SentAs, i: usize) -> usize
    requires { 65536 ≤ length out.old }
    ensures { Put out.old 0 (sender_line site table.now kind i) 46168 out.new result }
{
    if !can_judge(site, table) {
        return 0;
    }
    if site.cells as usize <= i {
        return 0;
    }
    let clash = site.clash_rows();
    let mut row = [0u32; 128];
    lay_words(&mut row, site, table, clash, kind, i);
    put_row_line(out, site.channels as usize, kind, i, &row)
}
