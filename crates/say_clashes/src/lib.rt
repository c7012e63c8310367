// The clashes of a site, written into a lent buffer at `at`. The answer is where the next byte goes.
// Cells are indexed from 0 here, and named from 1 in the text.
#![tactic(auto)]

ghost use Rattle.std.specs.Prelude.{◌≡◌, ◌+◌, ◌≤◌, ◌<◌, length};
ghost use Rattle.phrases.specs.Put.{Put};
ghost use Rattle.phrases.specs.Phrases.{phrase};
ghost use Rattle.say_clashes.specs.Lines.{clash_lines};
ghost use Rattle.say_clashes.specs.Said.{third_under, way_phrase, third_way, pair_phrase, clash_phrase, pairs_said, clashes_said};
ghost use Rattle.say_clashes.specs.Said.{count_phrase, clash_count_said};

use clashcount::clash_count;
use phrases::{Phrase, put_phrase};
use say_rule::third_of;
use site::Site;

const FORTH: usize = 0;

const BACK: usize = 1;

const EACH: usize = 2;

const THIRD_ALONE: usize = 3;

const FORTH_THIRD: usize = 4;

const BACK_THIRD: usize = 5;

const EACH_THIRD: usize = 6;

const ONE_CLASH: usize = 7;

const CLASHES: usize = 8;

// Puts a line: a row of the table with its values, or nothing.
fn put(out: &mut [u8], at: usize, what: Phrase) -> usize
    requires { at + 700 ≤ length out.old }
    ensures { Put out.old at (phrase clash_lines what) 700 out.new result }
{
    put_phrase(
        out,
        at,
        b"@1 and @2 clash: @1 reaches @2\n|\
          @1 and @2 clash: @2 reaches @1\n|\
          @1 and @2 clash: each reaches the other\n|\
          @1 and @2 clash: both reach @3\n|\
          @1 and @2 clash: @1 reaches @2, and both reach @3\n|\
          @1 and @2 clash: @2 reaches @1, and both reach @3\n|\
          @1 and @2 clash: each reaches the other, and both reach @3\n|\
          1 clash, rule @1\n|\
          @1 clashes, rule @2\n|",
        what,
    )
}

// Under rule 2 the lowest third cell that both reach; 32 where there is none.
fn third_under(rule: u16, reach: [u32; 32], a: usize, b: usize) -> usize
    requires { (a < 32) × (b < 32) }
    ensures { result ≡ third_under rule reach a b }
{
    if rule != 2 {
        return 32;
    }
    third_of(reach, a, b)
}

// Who reaches whom, where no third cell is named.
fn way_phrase(forth: bool, back: bool, a: usize, b: usize) -> Phrase
    requires { (a < 32) × (b < 32) }
    ensures { result ≡ way_phrase forth back a b }
{
    if forth {
        if back {
            return Phrase::Row(EACH, a + 1, b + 1, 0, 0);
        }
        return Phrase::Row(FORTH, a + 1, b + 1, 0, 0);
    }
    if back {
        return Phrase::Row(BACK, a + 1, b + 1, 0, 0);
    }
    Phrase::Silent
}

// The row that says who reaches whom, where a third cell is named.
fn third_way(forth: bool, back: bool) -> usize
    ensures { result ≡ third_way forth back }
{
    if forth {
        if back {
            return EACH_THIRD;
        }
        return FORTH_THIRD;
    }
    if back {
        return BACK_THIRD;
    }
    THIRD_ALONE
}

// Two cells, by who reaches whom and the third cell c; nothing where there is none and neither reaches the other.
fn pair_phrase(forth: bool, back: bool, a: usize, b: usize, c: usize) -> Phrase
    requires { (a < 32) × (b < 32) }
    ensures { result ≡ pair_phrase forth back a b c }
{
    if c < 32 {
        return Phrase::Row(third_way(forth, back), a + 1, b + 1, c + 1, 0);
    }
    way_phrase(forth, back, a, b)
}

// Two cells, the lower first; nothing where they do not clash.
fn clash_phrase(rule: u16, reach: [u32; 32], a: usize, b: usize) -> Phrase
    requires { (a < 32) × (b < 32) }
    ensures { result ≡ clash_phrase rule reach a b }
{
    if b <= a {
        return Phrase::Silent;
    }
    let forth = (reach[a] >> b) % 2 == 1;
    let back = (reach[b] >> a) % 2 == 1;
    let third = third_under(rule, reach, a, b);
    pair_phrase(forth, back, a, b, third)
}

// The lines of one first cell, by second cell.
fn put_pairs(out: &mut [u8], at: usize, rule: u16, reach: [u32; 32], a: usize) -> usize
    requires { (a < 32) × (at + 22400 ≤ length out.old) }
    ensures { Put out.old at (pairs_said rule reach a 32) 22400 out.new result }
{
    let mut next = at;
    for b in 0..32 {
        next = put(out, next, clash_phrase(rule, reach, a, b));
    }
    next
}

// The clashes of the cell at index a with higher ones.
pub fn put_clashes(out: &mut [u8], at: usize, site: Site, a: usize) -> usize
    requires { (a < 32) × (at + 22400 ≤ length out.old) }
    ensures { Put out.old at (clashes_said site a) 22400 out.new result }
{
    let rule = site.rule;
    let reach = site.reach;
    put_pairs(out, at, rule, reach, a)
}

// How many clashes there are, and by which rule.
fn count_phrase(number: usize, rule: u16) -> Phrase
    ensures { result ≡ count_phrase number rule }
{
    if number == 1 {
        return Phrase::Row(ONE_CLASH, rule as usize, 0, 0, 0);
    }
    Phrase::Row(CLASHES, number, rule as usize, 0, 0)
}

// How many clashes a site has.
pub fn put_clash_count(out: &mut [u8], at: usize, site: Site) -> usize
    requires { at + 700 ≤ length out.old }
    ensures { Put out.old at (clash_count_said site) 700 out.new result }
{
    let number = clash_count(site);
    put(out, at, count_phrase(number, site.rule))
}
