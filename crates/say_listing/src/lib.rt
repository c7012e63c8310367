// The lines of the listing, written into a lent buffer: each is a row of one table, and a cell's line is made of rows. Nothing here knows a site: the lines
// are made of numbers, fixed texts and the bytes of a row of the plan.
#![tactic(auto)]

ghost use Rattle.std.specs.Prelude.{◌≡◌, ◌+◌, ◌≤◌, ◌<◌, length};
ghost use Rattle.phrases.specs.Put.{Put};
ghost use Rattle.phrases.specs.Phrases.{phrase};
ghost use Rattle.say_listing.specs.Lines.{listing_lines, listed, reservations, cell_listed};

use phrases::{Phrase, put_phrase};

const NUMBER: usize = 0;

const RESERVATION: usize = 1;

const END: usize = 2;

pub const SITE: usize = 3;

pub const CHAIN_YES: usize = 4;

pub const CHAIN_NO: usize = 5;

pub const LOAD_HOLDS: usize = 6;

pub const LOAD_OVER: usize = 7;

pub const PLAN_DONE: usize = 8;

pub const PLAN_SHORT: usize = 9;

pub const REFUSED: usize = 10;

// Puts a line, a row of the table with its values, at `at`, or nothing; and answers where the next byte goes.
pub fn put_line(out: &mut [u8], at: usize, what: Phrase) -> usize
    requires { at + 200 ≤ length out.old }
    ensures { Put out.old at (phrase listing_lines what) 200 out.new result }
{
    put_phrase(
        out,
        at,
        b"@1|\
          \x20@1.@2|\
          \n|\
          site @1 @2 @3\n|\
          chain yes\n|\
          chain no @1 @2 @3\n|\
          load holds\n|\
          load over @1 @2\n|\
          plan done\n|\
          plan 5 @1 @2\n|\
          refused @1 @2\n|",
        what,
    )
}

// Position p as slot and channel, both from 1, where the byte there is 1; and nothing where it is any other.
fn listed(channels: usize, p: usize, byte: u8) -> Phrase
    requires { (0 < channels) × (p < 2048) }
    ensures { result ≡ listed channels p byte }
{
    if byte != 1 {
        return Phrase::Silent;
    }
    let slot = p / channels + 1;
    let channel = p % channels + 1;
    Phrase::Row(RESERVATION, slot, channel, 0, 0)
}

// The reservations of a row, in rising position. Each has at most 10 bytes.
fn put_reservations(out: &mut [u8], at: usize, channels: usize, row: &[u8]) -> usize
    requires { (0 < channels) × (length row.now ≤ 2048) × (at + 20680 ≤ length out.old) }
    ensures { Put out.old at (reservations channels row.now (length row.now)) 20480 out.new result }
{
    let mut next = at;
    for (p, &byte) in row.iter().enumerate() {
        next = put_line(out, next, listed(channels, p, byte));
    }
    next
}

// A cell's line, at the start of `out`: its number and its reservations. A row has at most 2,048 positions.
pub fn put_cell_line(out: &mut [u8], cell: usize, channels: usize, row: &[u8]) -> usize
    requires channels_nonzero { (0 < channels) × (length row.now ≤ 2048) }
    requires in_bounds { 24576 ≤ length out.old }
    ensures { Put out.old 0 (cell_listed cell channels row.now) 24576 out.new result }
{
    let first = put_line(out, 0, Phrase::Row(NUMBER, cell, 0, 0, 0));
    let last = put_reservations(out, first, channels, row);
    put_line(out, last, Phrase::Row(END, 0, 0, 0, 0))
}
