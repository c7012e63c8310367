// What `duggfrask why` says of a site, written into a lent buffer: one public function, which asks the calls and puts their answers into English.
#![tactic(auto)]

ghost use Rattle.std.specs.Prelude.{◌≡◌, ◌+◌, ◌*◌, ◌≤◌, ◌<◌, length, Ok};
ghost use Rattle.site.specs.Record.{positions, fault_of};
ghost use Rattle.planner.specs.Plan.{plan_table};
ghost use Rattle.phrases.specs.Put.{Put};
ghost use Rattle.phrases.specs.Phrases.{phrase, text_of, part_in};
ghost use Rattle.why.specs.Lines.{why_lines};
ghost use Rattle.why.specs.Said.{open_of, class_phrase, nested_phrase, over_phrase, load_phrase, plan_phrase, will_do, has_row};
ghost use Rattle.why.specs.Said.{takes_phrase, set_phrase, cell_phrase, cell_phrases, fewest, size_row, size_phrase, verdicts_said, clash_phrases};
ghost use Rattle.why.specs.Said.{sizes_phrases, texts, list_line, last_said, site_said, why_said};

use judges::{ChainVerdict, ClassVerdict, LoadVerdict};
use phrases::{Phrase, put_phrase};
use planner::PlanError;
use positions::open_count;
use putblocks::put_blocked;
use site::{Fault, Site};
use text::put_text;
use whyrows::{chain_phrase, least_number, no_row};
use words::has;

const HOLDS: usize = 2;

const OVER: usize = 3;

const OPEN_OVER: usize = 4;

const PLANNED: usize = 5;

const EXACT: usize = 8;

const RANGE: usize = 10;

const SET: usize = 12;

const CELL: usize = 13;

const SLOTS: usize = 14;

const CHANNELS: usize = 18;

const NESTED: usize = 22;

const SPLIT: usize = 23;

// Puts a line: a row of the table with its values, or nothing. It takes ten bytes at most for each of the row's.
fn put_line(out: &mut [u8], at: usize, what: Phrase) -> usize
    requires { at + 10 * length (part_in (text_of why_lines) what) ≤ length out.old }
    ensures { Put out.old at (phrase why_lines what) (10 * length (part_in (text_of why_lines) what)) out.new result }
{
    put_phrase(
        out,
        at,
        b"chained\n|\
          not chained: cells @1 and @3 clash, and cell @2 between them does not clash with cell @1\n|\
          the load test holds\n|\
          the load test fails: cell @1 is over by @2 fragment@b\n|\
          the load test fails: cell @1 is over by @2 fragment@b; on a site that is not nested that alone decides nothing\n|\
          planned\n|\
          not planned: cell @1 is @2 fragment@b short. The site is full: no plan exists\n|\
          not planned: cell @1 is @2 fragment@b short. This order found no room, which alone decides nothing\n|\
          it takes @1 channel-slot@a, and no fewer; the site has @2\n|\
          it takes @1 channel-slot@a, and no fewer; the site has @2 open\n|\
          it takes at least @1 channel-slot@a, and @2 will do; the site has @3\n|\
          it takes at least @1 channel-slot@a, and @2 will do; the site has @3 open\n|\
          of all cells that clash with one another these need the most, @1:\n|\
          \x20 cell @1, load @2\n|\
          with @1 channel@a: @2 slot@b, and no fewer\n|\
          with @1 channel@a: at least @2 slot@b, and @3 will do\n|\
          with @1 channel@a: at least @2 slot@b\n|\
          with @1 channel@a: more than 128 slots, which no site has\n|\
          with @1 slot@a: @2 channel@b, and no fewer\n|\
          with @1 slot@a: at least @2 channel@b, and @3 will do\n|\
          with @1 slot@a: at least @2 channel@b\n|\
          with @1 slot@a: more than 16 channels, which no site has\n|\
          nested: of each cell, the lower cells that clash with it clash with one another\n|\
          not nested: cells @1 and @2 clash with cell @3, and not with one another\n|",
        what,
    )
}

// Puts any line: no row has more than 150 bytes. No twin of `put` in `say_find`: another table and another bound.
fn put(out: &mut [u8], at: usize, what: Phrase) -> usize
    requires { at + 1500 ≤ length out.old }
    ensures { Put out.old at (phrase why_lines what) 1500 out.new result }
{
    put_line(out, at, what)
}

// Nested, or the triple that shows that it is not. No twin of `chain_phrase` in `whyrows`: another verdict and other rows.
fn class_phrase(class: Result<ClassVerdict, Fault>) -> Phrase
    ensures { result ≡ class_phrase class }
{
    match class {
        Ok(ClassVerdict::InClass) => Phrase::Row(NESTED, 0, 0, 0, 0),
        Ok(ClassVerdict::Outside(a, b, i)) => Phrase::Row(SPLIT, a, b, i, 0),
        Err(_) => Phrase::Silent,
    }
}

// The class of a site that is not chained. A chained site is nested, and nothing is said of that.
fn nested_phrase(judge: Result<ChainVerdict, Fault>, class: Result<ClassVerdict, Fault>) -> Phrase
    ensures { result ≡ nested_phrase judge class }
{
    match judge {
        Ok(ChainVerdict::Chained) => Phrase::Silent,
        Ok(ChainVerdict::Broken(_, _, _)) => class_phrase(class),
        Err(_) => Phrase::Silent,
    }
}

// The lowest cell that is over, and what that means.
fn over_phrase(class: Result<ClassVerdict, Fault>, cell: usize, excess: usize) -> Phrase
    ensures { result ≡ over_phrase class cell excess }
{
    match class {
        Ok(ClassVerdict::InClass) => Phrase::Row(OVER, cell, excess, 0, 0),
        Ok(ClassVerdict::Outside(_, _, _)) => Phrase::Row(OPEN_OVER, cell, excess, 0, 0),
        Err(_) => Phrase::Silent,
    }
}

// The load test: it holds, or who is over.
fn load_phrase(class: Result<ClassVerdict, Fault>, reply: Result<LoadVerdict, Fault>) -> Phrase
    ensures { result ≡ load_phrase class reply }
{
    match reply {
        Ok(LoadVerdict::Holds) => Phrase::Row(HOLDS, 0, 0, 0, 0),
        Ok(LoadVerdict::Over(cell, excess)) => over_phrase(class, cell, excess),
        Err(_) => Phrase::Silent,
    }
}

// Planned or not, and what a no means.
fn plan_phrase(l: usize, n: usize, reply: Result<(), PlanError>) -> Phrase
    ensures { result ≡ plan_phrase l n reply }
{
    match reply {
        Ok(()) => Phrase::Row(PLANNED, 0, 0, 0, 0),
        Err(PlanError::TableShort) => Phrase::Silent,
        Err(PlanError::NoRoom(cell, short)) => Phrase::Row(no_row(l, n), cell, short, 0, 0),
        Err(PlanError::Record(_)) => Phrase::Silent,
    }
}

// The number of channel-slots that will do: where the site is planned, its own if that is smaller.
fn will_do(reply: Result<(), PlanError>, n: usize, m: usize) -> usize
    ensures { result ≡ will_do reply n m }
{
    match reply {
        Ok(()) => n.min(m),
        Err(PlanError::TableShort) => m,
        Err(PlanError::NoRoom(_, _)) => m,
        Err(PlanError::Record(_)) => m,
    }
}

// Of two rows the second, which says `open`, where fewer positions are open than there are.
fn has_row(row: usize, few: usize, all: usize) -> usize
    requires { row ≤ 16 }
    ensures { result ≡ has_row row few all }
{
    if few < all {
        return row + 1;
    }
    row
}

// How many channel-slots it takes, where n of all are open.
fn takes_phrase(l: usize, u: usize, n: usize, all: usize) -> Phrase
    ensures { result ≡ takes_phrase l u n all }
{
    if l == u {
        return Phrase::Row(has_row(EXACT, n, all), l, n, 0, 0);
    }
    Phrase::Row(has_row(RANGE, n, all), l, u, n, 0)
}

// What stands before the cells of the heaviest clash.
fn set_phrase(l: usize) -> Phrase
    ensures { result ≡ set_phrase l }
{
    if 0 < l {
        return Phrase::Row(SET, l, 0, 0, 0);
    }
    Phrase::Silent
}

// The line of a cell of the set; nothing for any other.
fn cell_phrase(set: u32, load: usize, j: usize) -> Phrase
    requires { j < 32 }
    ensures { result ≡ cell_phrase set load j }
{
    if has(set, j) {
        return Phrase::Row(CELL, j + 1, load, 0, 0);
    }
    Phrase::Silent
}

// The lines of the cells of the set, of the first so many.
fn put_cells(out: &mut [u8], at: usize, loads: &[u16; 32], set: u32, cells: usize) -> usize
    requires { (cells ≤ 32) × (at + 200 * cells ≤ length out.old) }
    ensures { Put out.old at (texts (cell_phrases loads.now set cells)) (200 * cells) out.new result }
{
    let mut next = at;
    for j in 0..cells {
        next = put_line(out, next, cell_phrase(set, loads[j] as usize, j));
    }
    next
}

// The fewest slots of f channels, or channels of f slots, that make n channel-slots.
pub fn fewest(n: usize, f: usize) -> usize
    requires { 0 < f }
    ensures { result ≡ fewest n f }
{
    if n < 1 {
        return 1;
    }
    if n % f == 0 {
        return n / f;
    }
    n / f + 1
}

// The row of a size, of the four that begin at `row`, with its values.
fn size_row(row: usize, most: usize, f: usize, lo: usize, hi: usize) -> Phrase
    requires { row ≤ 18 }
    ensures { result ≡ size_row row most f lo hi }
{
    if most < lo {
        return Phrase::Row(row + 3, f, 0, 0, 0);
    }
    if most < hi {
        return Phrase::Row(row + 2, f, lo, 0, 0);
    }
    if lo == hi {
        return Phrase::Row(row, f, lo, 0, 0);
    }
    Phrase::Row(row + 1, f, lo, hi, 0)
}

// With f of the one, how many of the other make l channel-slots, and u.
fn size_phrase(row: usize, most: usize, f: usize, l: usize, u: usize) -> Phrase
    requires { (row ≤ 18) × (0 < f) }
    ensures { result ≡ size_phrase row most f l u }
{
    size_row(row, most, f, fewest(l, f), fewest(u, f))
}

// How many slots, and how many channels.
fn put_sizes(out: &mut [u8], at: usize, site: Site, l: usize, u: usize) -> usize
    requires at_in_bounds { at + 3000 ≤ length out.old }
    requires site_value { fault_of site ≡ Ok tt }
    ensures { Put out.old at (texts (sizes_phrases site l u)) 3000 out.new result }
{
    let slots = size_phrase(SLOTS, 128, site.channels as usize, l, u);
    let middle = put(out, at, slots);
    let channels = size_phrase(CHANNELS, 16, site.slots as usize, l, u);
    put(out, middle, channels)
}

// What is blocked, as a list that can be typed again.
fn put_list(out: &mut [u8], at: usize, site: Site) -> usize
    requires at_in_bounds { at + 30000 ≤ length out.old }
    requires site_value { fault_of site ≡ Ok tt }
    ensures { Put out.old at (list_line site) 30000 out.new result }
{
    let blocked = site.blocked;
    let list = put_text(out, at, b"blocked: ");
    let end = put_blocked(
        out,
        list,
        &blocked,
        site.slots as usize,
        site.channels as usize,
    );
    put_text(out, end, b"\n")
}

// What comes last: how many slots and channels; or what is blocked, where something is.
fn put_last(
    out: &mut [u8],
    at: usize,
    site: Site,
    n: usize,
    all: usize,
    l: usize,
    u: usize,
) -> usize
    requires at_in_bounds { at + 30000 ≤ length out.old }
    requires site_value { (fault_of site ≡ Ok tt) × (n ≡ open_of site) × (all ≡ positions site) }
    ensures { Put out.old at (last_said site l u) 30000 out.new result }
{
    if n < all {
        return put_list(out, at, site);
    }
    put_sizes(out, at, site, l, u)
}

// How many channel-slots it takes, and the heaviest clash.
fn put_clash(
    out: &mut [u8],
    at: usize,
    site: Site,
    n: usize,
    all: usize,
    l: usize,
    u: usize,
    set: u32,
) -> usize
    requires at_in_bounds { at + 9400 ≤ length out.old }
    requires site_value { (fault_of site ≡ Ok tt) × (n ≡ open_of site) × (all ≡ positions site) }
    ensures { Put out.old at (texts (clash_phrases site l u set)) 9400 out.new result }
{
    let second = put(out, at, takes_phrase(l, u, n, all));
    let third = put(out, second, set_phrase(l));
    let loads = site.loads;
    put_cells(out, third, &loads, set, site.cells as usize)
}

// The verdicts: the chain, the class, the load test and the plan.
fn put_verdicts(
    out: &mut [u8],
    site: Site,
    reply: Result<(), PlanError>,
    l: usize,
    n: usize,
) -> usize
    requires { 6000 ≤ length out.old }
    ensures { Put out.old 0 (verdicts_said site reply l n) 6000 out.new result }
{
    let judge = judges::chain(site);
    let class = judges::in_class(site);
    let test = judges::load_test(site);
    let second = put(out, 0, chain_phrase(judge));
    let third = put(out, second, nested_phrase(judge, class));
    let fourth = put(out, third, load_phrase(class, test));
    put(out, fourth, plan_phrase(l, n, reply))
}

// All that is said of an accepted site, with the planner's answer and the heaviest clash.
fn put_all(out: &mut [u8], site: Site, reply: Result<(), PlanError>, l: usize, set: u32) -> usize
    requires in_bounds { 60000 ≤ length out.old }
    requires site_value { fault_of site ≡ Ok tt }
    ensures { Put out.old 0 (site_said site reply (Ok (l, set))) 60000 out.new result }
{
    let all = site.slots as usize * site.channels as usize;
    let blocked = site.blocked;
    let n = open_count(&blocked, all);
    let least = judges::least(site);
    let u = will_do(reply, n, least_number(least));
    let second = put_verdicts(out, site, reply, l, n);
    let third = put_clash(out, second, site, n, all, l, u, set);
    put_last(out, third, site, n, all, l, u)
}

// What can be said of a site, from the start of `out`, and how long it is. The planner plans in `table`, which is long enough for every site. A
// refused record has no text.
pub fn put_why(site: Site, table: &mut [u8], out: &mut [u8]) -> usize
    requires { (65536 ≤ length table.old) × (60000 ≤ length out.old) }
    ensures text { Put out.old 0 (why_said site table.old) 60000 out.new result }
    ensures table { table.new ≡ plan_table site table.old }
{
    let reply = planner::plan(site, table);
    match heaviest::heaviest(site) {
        Ok((l, set)) => put_all(out, site, reply, l, set),
        Err(_) => 0,
    }
}
