// A plan by channels and slots, a line at a time, and how many slots fit a width. A function `put_..` puts its text at `at` and answers where the next byte
// goes.
#![tactic(auto)]

ghost use Rattle.std.specs.Prelude.{◌≡◌, true, ◌&&◌, ◌+◌, ◌*◌, ◌-◌, ◌≤◌, ◌<◌, leb, length};
ghost use Rattle.laws.specs.Bits.{bit_in};
ghost use Rattle.site.specs.Reach.{clash_of};
ghost use Rattle.phrases.specs.Put.{Put};
ghost use Rattle.phrases.specs.Phrases.{phrase};
ghost use Rattle.phrases.specs.declared.Phrase.TheVariants.{Row};
ghost use Rattle.say_faults.specs.Said.{judgeable};
ghost use Rattle.say_grid.specs.Lines.{grid_lines, grid_end_row, legend_row};
ghost use Rattle.say_grid.specs.Grid.{entry_said, column_width, blanks, column_said, columns_said, line_head, line_there, whole_line, grid_line};
ghost use Rattle.say_grid.specs.Grid.{fitting, piece_slots};

use phrases::{Phrase, put_phrase};
use places::{place_at, put_place};
use say_faults::can_judge;
use site::Site;

const SLOT_NUMBER: usize = 0;

const SLOTS: usize = 1;

const CHANNEL: usize = 2;

const LONG_CHANNEL: usize = 3;

const BLANK: usize = 4;

const LINE_END: usize = 5;

const LEGEND: usize = 6;

// Puts a part of a line.
fn put(out: &mut [u8], at: usize, what: Phrase) -> usize
    requires { at + 500 ≤ length out.old }
    ensures { Put out.old at (phrase grid_lines what) 500 out.new result }
{
    put_phrase(
        out,
        at,
        b"@1|\
          slot      |\
          channel @1 |\
          channel @1|\
          \x20|\
          \n|\
          . nobody sends   ! two cells clash   # blocked\n|",
        what,
    )
}

// What the marks mean, at the start of `out`. It and `put_gap` name the row that each means: a function of a row is no plainer.
pub fn put_legend(out: &mut [u8]) -> usize
    requires { 65536 ≤ length out.old }
    ensures { Put out.old 0 (phrase grid_lines (Row legend_row 0 0 0 0)) 500 out.new result }
{
    put(out, 0, Phrase::Row(LEGEND, 0, 0, 0, 0))
}

// A line with nothing in it, at the start of `out`: it stands before each piece.
pub fn put_gap(out: &mut [u8]) -> usize
    requires { 65536 ≤ length out.old }
    ensures { Put out.old 0 (phrase grid_lines (Row grid_end_row 0 0 0 0)) 500 out.new result }
{
    put(out, 0, Phrase::Row(LINE_END, 0, 0, 0, 0))
}

// So many blanks.
fn put_blanks(out: &mut [u8], at: usize, many: usize) -> usize
    requires { (many ≤ 1000) × (at + many + 500 ≤ length out.old) }
    ensures { Put out.old at (blanks many) many out.new result }
{
    let mut next = at;
    for _ in 0..many {
        next = put(out, next, Phrase::Row(BLANK, 0, 0, 0, 0));
    }
    next
}

// What stands in a line and the column of a slot.
fn put_entry(
    out: &mut [u8],
    at: usize,
    site: Site,
    table: &[u8],
    clash: [u32; 32],
    line: usize,
    slot: usize,
) -> usize
    requires table_value { (judgeable site table.now ≡ true) × (bit_in clash ≡ clash_of site) }
    requires line_le_channels { (line ≤ site.channels) × (slot < site.slots) × (at + 500 ≤ length out.old) }
    ensures { Put out.old at (entry_said site table.now line slot) 156 out.new result }
{
    if line == 0 {
        return put(out, at, Phrase::Row(SLOT_NUMBER, slot + 1, 0, 0, 0));
    }
    let channels = site.channels as usize;
    let place = place_at(site, table, clash, slot * channels + (line - 1));
    put_place(out, at, place)
}

// How wide it is.
fn entry_size(site: Site, table: &[u8], clash: [u32; 32], line: usize, slot: usize) -> usize
    requires table_value { (judgeable site table.now ≡ true) × (bit_in clash ≡ clash_of site) }
    requires line_le_channels { (line ≤ site.channels) × (slot < site.slots) }
    ensures { (result ≡ length (entry_said site table.now line slot)) × (result ≤ 156) }
{
    let mut scratch = [0u8; 512];
    put_entry(&mut scratch, 0, site, table, clash, line, slot)
}

// How wide the column of a slot is.
fn column_width(site: Site, table: &[u8], clash: [u32; 32], slot: usize) -> usize
    requires { (judgeable site table.now ≡ true) × (bit_in clash ≡ clash_of site) × (slot < site.slots) }
    ensures { (result ≡ column_width site table.now slot) × (result ≤ 156) }
{
    let lines = site.channels as usize + 1;
    let mut widest: usize = 0;
    for line in 0..lines {
        let size = entry_size(site, table, clash, line, slot);
        widest = widest.max(size);
    }
    widest
}

// A column of a line: blanks, and what stands at its right end.
fn put_column(
    out: &mut [u8],
    at: usize,
    site: Site,
    table: &[u8],
    clash: [u32; 32],
    line: usize,
    slot: usize,
) -> usize
    requires table_value { (judgeable site table.now ≡ true) × (bit_in clash ≡ clash_of site) }
    requires line_le_channels { (line ≤ site.channels) × (slot < site.slots) × (at + 700 ≤ length out.old) }
    ensures { Put out.old at (column_said site table.now line slot) 314 out.new result }
{
    let width = column_width(site, table, clash, slot);
    let size = entry_size(site, table, clash, line, slot);
    let first = put_blanks(out, at, width + 2 - size);
    put_entry(out, first, site, table, clash, line, slot)
}

// The columns of so many slots.
fn put_columns(
    out: &mut [u8],
    at: usize,
    site: Site,
    table: &[u8],
    clash: [u32; 32],
    line: usize,
    from: usize,
    many: usize,
) -> usize
    requires table_value { (judgeable site table.now ≡ true) × (bit_in clash ≡ clash_of site) }
    requires line_le_channels { (line ≤ site.channels) × (from + many ≤ site.slots) × (at + 41000 ≤ length out.old) }
    ensures { Put out.old at (columns_said site table.now line from many) 40192 out.new result }
{
    let mut next = at;
    for j in 0..many {
        next = put_column(out, next, site, table, clash, line, from + j);
    }
    next
}

// How a line begins.
fn head_phrase(line: usize) -> Phrase
    ensures { result ≡ line_head line }
{
    if line == 0 {
        return Phrase::Row(SLOTS, 0, 0, 0, 0);
    }
    if line < 10 {
        return Phrase::Row(CHANNEL, line, 0, 0, 0);
    }
    Phrase::Row(LONG_CHANNEL, line, 0, 0, 0)
}

// Whether there is such a line of such slots.
fn line_there(site: Site, table: &[u8], line: usize, from: usize, many: usize) -> bool
    ensures { result ≡ line_there site table.now line from many }
{
    if !can_judge(site, table) {
        return false;
    }
    if (site.channels as usize) < line {
        return false;
    }
    let slots = site.slots as usize;
    if slots < from {
        return false;
    }
    many <= slots - from
}

// The parts of a line, one after the other, at the start of `out`.
fn put_whole_line(
    out: &mut [u8],
    site: Site,
    table: &[u8],
    clash: [u32; 32],
    line: usize,
    from: usize,
    many: usize,
) -> usize
    requires table_value { (judgeable site table.now ≡ true) × (bit_in clash ≡ clash_of site) }
    requires line_le_channels { (line ≤ site.channels) × (from + many ≤ site.slots) × (65536 ≤ length out.old) }
    ensures { Put out.old 0 (whole_line site table.now line from many) 41192 out.new result }
{
    let first = put(out, 0, head_phrase(line));
    let last = put_columns(out, first, site, table, clash, line, from, many);
    put(out, last, Phrase::Row(LINE_END, 0, 0, 0, 0))
}

// A line of a piece, at the start of `out`: of so many slots, from a slot on.
pub fn put_grid_line(
    out: &mut [u8],
    site: Site,
    table: &[u8],
    line: usize,
    from: usize,
    many: usize,
) -> usize
    requires { 65536 ≤ length out.old }
    ensures { Put out.old 0 (grid_line site table.now line from many) 41192 out.new result }
{
    if !line_there(site, table, line, from, many) {
        return 0;
    }
    let clash = site.clash_rows();
    put_whole_line(out, site, table, clash, line, from, many)
}

// How many of the slots that are left fit a width, and one at least.
fn fitting(
    site: Site,
    table: &[u8],
    clash: [u32; 32],
    width: usize,
    from: usize,
    left: usize,
) -> usize
    requires table_value { (judgeable site table.now ≡ true) × (bit_in clash ≡ clash_of site) }
    requires left_nonzero { (0 < left) × (left ≡ site.slots - from) }
    ensures { result ≡ fitting site table.now width from }
{
    let mut used = 12 + column_width(site, table, clash, from);
    for many in 1..left {
        used = used + 2 + column_width(site, table, clash, from + many);
        if width < used {
            return many;
        }
    }
    left
}

// How many slots the piece has that begins at a slot; none where there are no slots more, or the table can't be judged.
pub fn piece_slots(site: Site, table: &[u8], width: usize, from: usize) -> usize
    ensures { result ≡ piece_slots site table.now width from }
{
    if !can_judge(site, table) {
        return 0;
    }
    let slots = site.slots as usize;
    if slots <= from {
        return 0;
    }
    let clash = site.clash_rows();
    fitting(site, table, clash, width, from, slots - from)
}
