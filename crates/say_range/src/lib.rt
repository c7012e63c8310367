// The range map of a site, written into a lent buffer at `at`: the answer is where the next byte goes. Cells are counted from 0. The clash rows of the site
// are made once, by the caller, and so is the word of the heaviest clash.
#![tactic(auto)]

ghost use Rattle.std.specs.Prelude.{◌≡◌, ◌&&◌, not, ◌+◌, ◌*◌, ◌≤◌, ◌<◌, ltb, length};
ghost use Rattle.laws.specs.Bits.{bit_at, bit_in};
ghost use Rattle.site.specs.Means.{Sized};
ghost use Rattle.site.specs.Reach.{reaches, clash_of};
ghost use Rattle.phrases.specs.Put.{Put};
ghost use Rattle.phrases.specs.Phrases.{phrase};
ghost use Rattle.drawing.specs.Range.{reach_lines, circle_lines, cell_step, cell_at, bend_of, line_phrase, lines_of, circle_phrase, ring_phrase};

use phrases::{Phrase, put_phrase};
use site::Site;
use words::has;

const ARC: usize = 0;

const ARROW: usize = 1;

const THIRD: usize = 2;

const LOADED: usize = 0;

const SPARE: usize = 1;

const RING: usize = 2;

// Puts a line between two cells, or nothing.
fn put_line(out: &mut [u8], at: usize, what: Phrase) -> usize
    requires { at + 500 ≤ length out.old }
    ensures { Put out.old at (phrase reach_lines what) 500 out.new result }
{
    put_phrase(
        out,
        at,
        b"<path class=\"arc\" d=\"M@1 226Q@2 @3 @4 226\"/>\n|\
          <path class=\"arrow\" d=\"M@1 276Q@2 @3 @4 276\"/>\n|\
          <path class=\"third\" d=\"M@1 226Q@2 @3 @4 226\"/>\n|",
        what,
    )
}

// Puts a cell or a ring, or nothing.
fn put_circle(out: &mut [u8], at: usize, what: Phrase) -> usize
    requires { at + 1000 ≤ length out.old }
    ensures { Put out.old at (phrase circle_lines what) 1000 out.new result }
{
    put_phrase(
        out,
        at,
        b"<circle class=\"cell\" cx=\"@1\" cy=\"250\" r=\"21\"/>\n<text class=\"on\" x=\"@1\" y=\"259\">@2</text>\n|\
          <circle class=\"spare\" cx=\"@1\" cy=\"250\" r=\"21\"/>\n<text class=\"off\" x=\"@1\" y=\"259\">@2</text>\n|\
          <circle class=\"heavy\" cx=\"@1\" cy=\"250\" r=\"27\"/>\n|",
        what,
    )
}

// From a cell to the next.
pub fn cell_step(site: Site) -> usize
    requires { Sized site }
    ensures { result ≡ cell_step site }
{
    let cells = site.cells as usize;
    (1720 / cells).min(860)
}

// The middle of a cell.
pub fn cell_middle(site: Site, i: usize) -> usize
    requires { Sized site × (i < site.cells) }
    ensures { result ≡ cell_at site i }
{
    let step = cell_step(site);
    100 + (i * step + step / 2)
}

// How far up or down a line between two cells is drawn.
fn bend(site: Site, a: usize, b: usize) -> usize
    requires { Sized site × (a < site.cells) × (b < site.cells) }
    ensures { result ≡ bend_of site a b }
{
    let cells = site.cells as usize;
    let far = a.abs_diff(b);
    20 + 200 * far / (1 + (far + cells / 8))
}

// Whether each of two cells reaches the other, the lower first.
fn both_ways(reach: [u32; 32], a: usize, b: usize) -> bool
    requires { (a < 32) × (b < 32) }
    ensures { result ≡ (ltb a b && (reaches reach a b && reaches reach b a)) }
{
    if b <= a {
        return false;
    }
    if !has(reach[a], b) {
        return false;
    }
    has(reach[b], a)
}

// Whether a cell reaches another and is not reached by it.
fn one_way(reach: [u32; 32], a: usize, b: usize) -> bool
    requires { (a < 32) × (b < 32) }
    ensures { result ≡ (reaches reach a b && not (reaches reach b a)) }
{
    if !has(reach[a], b) {
        return false;
    }
    !has(reach[b], a)
}

// Whether two cells clash, the lower first, and the second does not reach the first. The row is the clash row of the first.
fn by_third(reach: [u32; 32], row: u32, a: usize, b: usize) -> bool
    requires { (a < 32) × (b < 32) }
    ensures { result ≡ (ltb a b && (not (reaches reach b a) && bit_at row b)) }
{
    if b <= a {
        return false;
    }
    if has(reach[b], a) {
        return false;
    }
    has(row, b)
}

// The line from a cell to another, or nothing.
fn line_phrase(site: Site, clash: [u32; 32], a: usize, b: usize) -> Phrase
    requires { Sized site × (bit_in clash ≡ clash_of site) × (a < site.cells) × (b < site.cells) }
    ensures { result ≡ line_phrase site a b }
{
    let reach = site.reach;
    let from = cell_middle(site, a);
    let to = cell_middle(site, b);
    let turn = bend(site, a, b);
    let middle = (from + to) / 2;
    if both_ways(reach, a, b) {
        return Phrase::Row(ARC, from, middle, 226 - turn, to);
    }
    if one_way(reach, a, b) {
        return Phrase::Row(ARROW, from, middle, 276 + turn, to);
    }
    if by_third(reach, clash[a], a, b) {
        return Phrase::Row(THIRD, from, middle, 226 - turn, to);
    }
    Phrase::Silent
}

// The lines from a cell to the others.
pub fn put_lines(out: &mut [u8], at: usize, site: Site, clash: [u32; 32], a: usize) -> usize
    requires { Sized site × (bit_in clash ≡ clash_of site) × (a < site.cells) × (at + 16000 ≤ length out.old) }
    ensures { Put out.old at (lines_of site a site.cells) 16000 out.new result }
{
    let cells = site.cells as usize;
    let mut next = at;
    for b in 0..cells {
        next = put_line(out, next, line_phrase(site, clash, a, b));
    }
    next
}

// A cell and its number.
pub fn put_node(out: &mut [u8], at: usize, site: Site, i: usize) -> usize
    requires { Sized site × (i < site.cells) × (at + 1000 ≤ length out.old) }
    ensures { Put out.old at (phrase circle_lines (circle_phrase site i)) 1000 out.new result }
{
    let middle = cell_middle(site, i);
    let loads = site.loads;
    if loads[i] == 0 {
        return put_circle(out, at, Phrase::Row(SPARE, middle, i + 1, 0, 0));
    }
    put_circle(out, at, Phrase::Row(LOADED, middle, i + 1, 0, 0))
}

// The ring of a cell that the word of the heaviest clash has, or nothing.
pub fn put_ring(out: &mut [u8], at: usize, site: Site, heavy: u32, i: usize) -> usize
    requires { Sized site × (i < site.cells) × (at + 1000 ≤ length out.old) }
    ensures { Put out.old at (phrase circle_lines (ring_phrase site heavy i)) 1000 out.new result }
{
    if !has(heavy, i) {
        return at;
    }
    let middle = cell_middle(site, i);
    put_circle(out, at, Phrase::Row(RING, middle, 0, 0, 0))
}
