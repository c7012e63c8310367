// How many changes lead from one table to another, in words, written into a lent buffer at `at`. The answer is where the next byte goes.
#![tactic(auto)]

ghost use Rattle.std.specs.Prelude.{◌≡◌, ◌+◌, ◌*◌, ◌≤◌, ◌<◌, length, get_or};
ghost use Rattle.laws.specs.Sum.{bit, count};
ghost use Rattle.theory.specs.Greedy.{sends, reserved};
ghost use Rattle.mending.specs.Changes.{differ, changed, change_count};
ghost use Rattle.phrases.specs.Put.{Put};
ghost use Rattle.phrases.specs.Phrases.{phrase};
ghost use Rattle.say_diff.specs.Lines.{diff_lines};
ghost use Rattle.say_diff.specs.Said.{changes_phrase, diff_phrase, diff_said};

use phrases::{Phrase, put_phrase};
use site::Site;

const NO_CHANGE: usize = 0;

const CHANGES: usize = 1;

// Whether a table has a reservation at a place; none where it ended before.
fn sends_at(table: &[u8], x: usize) -> bool
    ensures { result ≡ sends (get_or table.now x 0) }
{
    if table.len() <= x {
        return false;
    }
    table[x] == 1
}

// 1 where one of the two is a reservation and the other silence, else 0.
fn one_change(is: bool, was: bool) -> usize
    ensures { result ≡ bit (differ is was) }
{
    if is {
        if was {
            return 0;
        }
        return 1;
    }
    if was {
        return 1;
    }
    0
}

// How many changes cell i has.
fn cell_changes(old: &[u8], new: &[u8], n: usize, i: usize) -> usize
    requires { (n ≤ 2048) × (i < 32) × (i * n ≤ 65536) }
    ensures { result ≡ count (changed (reserved n new.now) (reserved n old.now) i) n }
{
    let from = i * n;
    let mut all: usize = 0;
    for k in 0..n {
        all += one_change(sends_at(new, from + k), sends_at(old, from + k));
    }
    all
}

// How many changes there are.
fn change_count(old: &[u8], new: &[u8], n: usize, cells: usize) -> usize
    requires { (n ≤ 2048) × (cells ≤ 32) × (cells * n ≤ 65536) }
    ensures { result ≡ change_count (reserved n new.now) (reserved n old.now) n cells }
{
    let mut all: usize = 0;
    for i in 0..cells {
        all += cell_changes(old, new, n, i);
    }
    all
}

// How many changes there are, in words.
fn number_phrase(number: usize) -> Phrase
    ensures { result ≡ changes_phrase number }
{
    if number == 0 {
        return Phrase::Row(NO_CHANGE, 0, 0, 0, 0);
    }
    Phrase::Row(CHANGES, number, 0, 0, 0)
}

// The same for two tables of a site; nothing where the site has a fault.
fn diff_phrase(site: Site, old: &[u8], new: &[u8]) -> Phrase
    ensures { result ≡ diff_phrase site old.now new.now }
{
    let Ok(()) = site.accepted() else {
        return Phrase::Silent;
    };
    let cells = site.cells as usize;
    let n = (site.slots as usize) * (site.channels as usize);
    let number = change_count(old, new, n, cells);
    number_phrase(number)
}

// How many changes lead from one table of a site to another.
pub fn put_change_count(out: &mut [u8], at: usize, site: Site, old: &[u8], new: &[u8]) -> usize
    requires { at + 200 ≤ length out.old }
    ensures { Put out.old at (diff_said site old.now new.now) 200 out.new result }
{
    let what = diff_phrase(site, old, new);
    put_phrase(out, at, b"no change\n|@1 change@a\n|", what)
}
