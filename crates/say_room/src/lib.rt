// What is said of the room of a site, written into a lent buffer at `at`. The answer is where the next byte goes.
#![tactic(auto)]

ghost use Rattle.std.specs.Prelude.{◌≡◌, ◌+◌, ◌≤◌, ◌<◌, eqb, length, Ok};
ghost use Rattle.laws.specs.Choice.{pick};
ghost use Rattle.site.specs.Record.{fault_of};
ghost use Rattle.judges.specs.Judges.{least_answer};
ghost use Rattle.phrases.specs.declared.Phrase.TheVariants.{Row};
ghost use Rattle.phrases.specs.Put.{Put};
ghost use Rattle.phrases.specs.Phrases.{phrase};
ghost use Rattle.say_room.specs.Lines.{room_lines, carries_row, no_more_row};
ghost use Rattle.why.specs.Said.{least_number};
ghost use Rattle.say_room.specs.Said.{more_phrase, room_phrase, word_end, own_does, beside_own, fewer_phrase};
ghost use Rattle.say_room.specs.Said.{slots_first, slots_second, two_said, slots_said, open_said_of, sized_said, size_said};

use finder::{FindError, Way};
use phrases::{Phrase, put_phrase};
use positions::open_count;
use rooms::Room;
use say_why::fewest;
use site::{Fault, Site};
use whyrows::least_number;

const CARRIES: usize = 0;

const NO_MORE: usize = 1;

const CARRIES_LEAST: usize = 2;

const NO_CELL: usize = 3;

const WHETHER: usize = 4;

const DO_SLOTS: usize = 5;

const DO_OPEN: usize = 8;

const END: usize = 11;

const FEWER: usize = 12;

const FEWER_THAN: usize = 13;

const LEAST_SLOTS: usize = 14;

const TOO_FEW: usize = 15;

// The most slots that a site has.
const MOST_SLOTS: usize = 128;

// Puts a part of a line: a row of the table with its values, or nothing.
fn put(out: &mut [u8], at: usize, what: Phrase) -> usize
    requires { at + 1000 ≤ length out.old }
    ensures { Put out.old at (phrase room_lines what) 1000 out.new result }
{
    put_phrase(
        out,
        at,
        b"cell @1, load @2: @3 more, and no more than that\n|\
          cell @1, load @2: no more\n|\
          cell @1, load @2: at least @3 more\n|\
          : no cell can carry more\n|\
          : whether it has a plan\n|\
          slots: @1 will do, @2 fewer than it has|\
          slots: @1 will do, as many as it has|\
          slots: @1 will do, @2 more than it has|\
          open channel-slots: @1 will do, @2 fewer than it has|\
          open channel-slots: @1 will do, as many as it has|\
          open channel-slots: @1 will do, @2 more than it has|\
          \n|\
          ; with fewer no plan exists\n|\
          ; with fewer than @1 no plan exists\n|\
          slots: with fewer than @1 no plan exists\n|\
          slots: 128, the most that a site has, are too few\n|",
        what,
    )
}

// How much more a cell could carry.
fn more_phrase(cell: usize, load: usize, reply: Result<Room, Fault>) -> Phrase
    ensures { result ≡ more_phrase cell load reply }
{
    match reply {
        Ok(Room::Exactly(m)) => exact_phrase(cell, load, m),
        Ok(Room::AtLeast(m)) => Phrase::Row(CARRIES_LEAST, cell, load, m, 0),
        Err(_) => Phrase::Silent,
    }
}

// Exactly so much more: a cell that can carry nothing more has a row of its own.
fn exact_phrase(cell: usize, load: usize, m: usize) -> Phrase
    ensures { result ≡ pick (eqb m 0) (Row no_more_row cell load 0 0) (Row carries_row cell load m 0) }
{
    if m == 0 {
        return Phrase::Row(NO_MORE, cell, load, 0, 0);
    }
    Phrase::Row(CARRIES, cell, load, m, 0)
}

// The end of the first line, after the last word on the site.
fn word_end(reply: Result<Way, FindError>) -> Phrase
    ensures { result ≡ word_end reply }
{
    match reply {
        Ok(_) => Phrase::Silent,
        Err(FindError::Full(_)) => Phrase::Row(NO_CELL, 0, 0, 0, 0),
        Err(FindError::FullInClass) => Phrase::Row(NO_CELL, 0, 0, 0, 0),
        Err(FindError::FullSearched(_)) => Phrase::Row(NO_CELL, 0, 0, 0, 0),
        Err(FindError::NotKnown(_)) => Phrase::Row(WHETHER, 0, 0, 0, 0),
        Err(FindError::TableShort) => Phrase::Silent,
        Err(FindError::Record(_)) => Phrase::Silent,
    }
}

// Puts the end of the first line: that no cell can carry more, or that it is not known whether there is a plan. Where a plan is found there is no such line.
pub fn put_word_end(out: &mut [u8], at: usize, reply: Result<Way, FindError>) -> usize
    requires { at + 1000 ≤ length out.old }
    ensures { Put out.old at (phrase room_lines (word_end reply)) 1000 out.new result }
{
    put(out, at, word_end(reply))
}

// The line of the cell at index i, of a site of which find gives this answer; nothing where no plan is found, or the site has no such cell.
pub fn put_room(
    out: &mut [u8],
    at: usize,
    site: Site,
    i: usize,
    reply: Result<Way, FindError>,
) -> usize
    requires { (i < 32) × (at + 1000 ≤ length out.old) }
    ensures { Put out.old at (phrase room_lines (room_phrase site i reply)) 1000 out.new result }
{
    let Ok(_) = reply else {
        return at;
    };
    let loads = site.loads;
    let load = loads::wide(loads[i]) as usize;
    let more = rooms::room_of(site, i + 1);
    put(out, at, more_phrase(i + 1, load, more))
}

// Whether a plan is found with n open positions, which are fewer than m.
fn own_does(reply: Result<Way, FindError>, n: usize, m: usize) -> bool
    ensures { result ≡ own_does reply n m }
{
    reply.is_ok() && n < m
}

// So many will do, beside those that it has: the row is the first of three.
fn beside_phrase(row: usize, enough: usize, has: usize) -> Phrase
    requires { row ≤ 8 }
    ensures { result ≡ beside_own row enough has }
{
    if enough < has {
        return Phrase::Row(row, enough, has - enough, 0, 0);
    }
    if enough == has {
        return Phrase::Row(row + 1, enough, 0, 0, 0);
    }
    Phrase::Row(row + 2, enough, enough - has, 0, 0)
}

// With how few no plan exists.
fn fewer_phrase(needs: usize, enough: usize) -> Phrase
    ensures { result ≡ fewer_phrase needs enough }
{
    if needs <= 1 {
        return Phrase::Row(END, 0, 0, 0, 0);
    }
    if needs == enough {
        return Phrase::Row(FEWER, needs, 0, 0, 0);
    }
    Phrase::Row(FEWER_THAN, needs, 0, 0, 0)
}

// How many slots will do; or at least how many it takes; or that no site has as many.
fn slots_first(needs: usize, enough: usize, has: usize) -> Phrase
    ensures { result ≡ slots_first needs enough has }
{
    if MOST_SLOTS < needs {
        return Phrase::Row(TOO_FEW, 0, 0, 0, 0);
    }
    if MOST_SLOTS < enough {
        return Phrase::Row(LEAST_SLOTS, needs, 0, 0, 0);
    }
    beside_phrase(DO_SLOTS, enough, has)
}

// What follows where so many slots will do.
fn slots_second(needs: usize, enough: usize) -> Phrase
    ensures { result ≡ slots_second needs enough }
{
    if MOST_SLOTS < needs {
        return Phrase::Silent;
    }
    if MOST_SLOTS < enough {
        return Phrase::Silent;
    }
    fewer_phrase(needs, enough)
}

// Puts two parts of one line.
fn put_two(out: &mut [u8], at: usize, first: Phrase, second: Phrase) -> usize
    requires { at + 2000 ≤ length out.old }
    ensures { Put out.old at (two_said first second) 2000 out.new result }
{
    let next = put(out, at, first);
    put(out, next, second)
}

// The line of the slots.
fn put_slots(out: &mut [u8], at: usize, needs: usize, enough: usize, has: usize) -> usize
    requires { at + 2000 ≤ length out.old }
    ensures { Put out.old at (slots_said needs enough has) 2000 out.new result }
{
    let first = slots_first(needs, enough, has);
    let second = slots_second(needs, enough);
    put_two(out, at, first, second)
}

// The line of the open channel-slots.
fn put_open(out: &mut [u8], at: usize, needs: usize, enough: usize, has: usize) -> usize
    requires { at + 2000 ≤ length out.old }
    ensures { Put out.old at (open_said_of needs enough has) 2000 out.new result }
{
    let first = beside_phrase(DO_OPEN, enough, has);
    let second = fewer_phrase(needs, enough);
    put_two(out, at, first, second)
}

// The first of two numbers, or the second.
fn either(own: bool, a: usize, b: usize) -> usize
    ensures { result ≡ pick own a b }
{
    if own {
        return a;
    }
    b
}

// The line of the size of an accepted site, whose heaviest clash has load l.
fn put_sized(
    out: &mut [u8],
    at: usize,
    site: Site,
    reply: Result<Way, FindError>,
    l: usize,
) -> usize
    requires at_in_bounds { at + 2000 ≤ length out.old }
    requires site_value { fault_of site ≡ Ok tt }
    ensures { Put out.old at (sized_said site reply l (least_number (least_answer site))) 2000 out.new result }
{
    let slots = site.slots as usize;
    let channels = site.channels as usize;
    let all = slots * channels;
    let blocked = site.blocked;
    let n = open_count(&blocked, all);
    let least = judges::least(site);
    let m = least_number(least);
    let own = own_does(reply, n, m);
    if n < all {
        return put_open(out, at, l, either(own, n, m), n);
    }
    let needs = fewest(l, channels);
    let enough = either(own, slots, fewest(m, channels));
    put_slots(out, at, needs, enough, slots)
}

// How many slots will do for a site of which find gives this answer, next to how many it has; open channel-slots where something is blocked. A refused record
// has no text.
pub fn put_size(out: &mut [u8], at: usize, site: Site, reply: Result<Way, FindError>) -> usize
    requires { at + 2000 ≤ length out.old }
    ensures { Put out.old at (size_said site reply) 2000 out.new result }
{
    match heaviest::heaviest(site) {
        Ok((l, _)) => put_sized(out, at, site, reply, l),
        Err(_) => at,
    }
}
