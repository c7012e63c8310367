// What is said of a site's rule, and of the clashes that a third cell makes, written into a lent buffer at `at`. The answer is where the next byte goes.
// Cells are indexed from 0 here, and named from 1 in the text.
#![tactic(auto)]

ghost use Rattle.std.specs.Prelude.{◌≡◌, not, ◌&&◌, ◌+◌, ◌≤◌, ◌<◌, eqb, length};
ghost use Rattle.laws.specs.Bits.{bit_at};
ghost use Rattle.phrases.specs.Put.{Put};
ghost use Rattle.phrases.specs.Phrases.{phrase};
ghost use Rattle.say_rule.specs.Lines.{rule_lines};
ghost use Rattle.say_rule.specs.Said.{third_of, third_phrase, rule_phrase, seconds_said, rule_said, thirds_said};

use phrases::{Phrase, put_phrase};
use site::Site;

const RULE: usize = 0;

const THIRD: usize = 1;

// Puts a line: a row of the table with its values, or nothing.
fn put(out: &mut [u8], at: usize, what: Phrase) -> usize
    requires { at + 700 ≤ length out.old }
    ensures { Put out.old at (phrase rule_lines what) 700 out.new result }
{
    put_phrase(
        out,
        at,
        b"rule 2: two cells clash also when some third cell is reached by both\n|\
          \x20 @1 and @2 clash: both reach @3\n|",
        what,
    )
}

// Whether c is neither of the two cells, and both have it in their rows.
fn in_both(first: u32, second: u32, a: usize, b: usize, c: usize) -> bool
    requires { c < 32 }
    ensures { result ≡ (not (eqb c a) && (not (eqb c b) && (bit_at first c && bit_at second c))) }
{
    if c == a {
        return false;
    }
    if c == b {
        return false;
    }
    if (first >> c) % 2 != 1 {
        return false;
    }
    (second >> c) % 2 == 1
}

// The lowest third cell that both reach; 32 where there is none.
pub fn third_of(reach: [u32; 32], a: usize, b: usize) -> usize
    requires { (a < 32) × (b < 32) }
    ensures { result ≡ third_of reach a b }
{
    let first = reach[a];
    let second = reach[b];
    for c in 0..32 {
        if in_both(first, second, a, b, c) {
            return c;
        }
    }
    32
}

// Two cells, the lower first, and the third cell; nothing where one of the two reaches the other, or there is no third.
fn third_phrase(reach: [u32; 32], a: usize, b: usize) -> Phrase
    requires { (a < 32) × (b < 32) }
    ensures { result ≡ third_phrase reach a b }
{
    if b <= a {
        return Phrase::Silent;
    }
    if (reach[a] >> b) % 2 == 1 {
        return Phrase::Silent;
    }
    if (reach[b] >> a) % 2 == 1 {
        return Phrase::Silent;
    }
    let c = third_of(reach, a, b);
    if 32 <= c {
        return Phrase::Silent;
    }
    Phrase::Row(THIRD, a + 1, b + 1, c + 1, 0)
}

// The lines of one first cell, by second cell.
fn put_seconds(out: &mut [u8], at: usize, reach: [u32; 32], a: usize) -> usize
    requires { (a < 32) × (at + 22400 ≤ length out.old) }
    ensures { Put out.old at (seconds_said reach a 32) 22400 out.new result }
{
    let mut next = at;
    for b in 0..32 {
        next = put(out, next, third_phrase(reach, a, b));
    }
    next
}

// The rule's line: of rule 2 what it adds, of rule 1 nothing.
fn rule_phrase(rule: u16) -> Phrase
    ensures { result ≡ rule_phrase rule }
{
    if rule == 2 {
        return Phrase::Row(RULE, 0, 0, 0, 0);
    }
    Phrase::Silent
}

// The rule of a site.
pub fn put_rule(out: &mut [u8], at: usize, site: Site) -> usize
    requires { at + 700 ≤ length out.old }
    ensures { Put out.old at (rule_said site) 700 out.new result }
{
    put(out, at, rule_phrase(site.rule))
}

// The clashes of a site that a third cell makes, of the cell at index a with higher ones.
pub fn put_thirds(out: &mut [u8], at: usize, site: Site, a: usize) -> usize
    requires { (a < 32) × (at + 22400 ≤ length out.old) }
    ensures { Put out.old at (thirds_said site a) 22400 out.new result }
{
    let rule = site.rule;
    if rule != 2 {
        return at;
    }
    let reach = site.reach;
    put_seconds(out, at, reach, a)
}
