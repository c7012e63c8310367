// What is said of a plan that was looked for by every proved way, written into a lent buffer at `at`. The answer is where the next byte goes.
#![tactic(auto)]

ghost use Rattle.std.specs.Prelude.{◌≡◌, ◌+◌, ◌*◌, ◌≤◌, ◌<◌, length, Ok, Err};
ghost use Rattle.laws.specs.Sum.{sum};
ghost use Rattle.theory.specs.Net.{room};
ghost use Rattle.site.specs.Record.{fault_of};
ghost use Rattle.site.specs.Reach.{net_of};
ghost use Rattle.search.specs.Search.{too_large};
ghost use Rattle.finder.specs.Find.{find_answer, find_table};
ghost use Rattle.finder.specs.declared.FindError.TheVariants.{Full};
ghost use Rattle.phrases.specs.Put.{Put};
ghost use Rattle.phrases.specs.Phrases.{phrase, text_of, part_in};
ghost use Rattle.finds.specs.Lines.{last_lines, find_lines};
ghost use Rattle.finds.specs.Last.{lowest_of, several_in, named_phrase, later_phrase, later_said, last_phrase, others_said, last_word};
ghost use Rattle.finds.specs.Find.{found_sizes, needs_row, needs_phrase, unknown_phrase, beside_phrase};
ghost use Rattle.finds.specs.Find.{find_refused, found_said, find_said, last_line, why_tries, status_of};

use finder::{FindError, Way};
use loads::loads_of_many;
use phrases::{Phrase, put_phrase};
use positions::open_count;
use say_search::tries_phrase;
use site::Site;
use text::put_text;
use words::{has, lowest};

const PLANNED: usize = 0;

const RENUMBERED: usize = 1;

const SEARCHED: usize = 2;

const EXHAUSTED: usize = 4;

const UNKNOWN: usize = 6;

const IN_CLASS: usize = 8;

const CELL: usize = 9;

const CELLS: usize = 10;

const LATER: usize = 11;

const CLOSE: usize = 12;

const SIZES: usize = 0;

const IT_NEEDS: usize = 1;

const THEY_NEED: usize = 3;

const NO_PLAN: usize = 5;

const STOPPED: usize = 6;

const TOO_LARGE: usize = 7;

// All 32 cells.
const ALL: u32 = 4294967295;

// The tries that `why` makes at most.
const WHY_TRIES: u64 = 1000000;

// Puts a part of the last word: a row of the table with its values, or nothing. It takes ten bytes at most for each of the row's.
fn put_part(out: &mut [u8], at: usize, what: Phrase) -> usize
    requires { at + 10 * length (part_in (text_of last_lines) what) ≤ length out.old }
    ensures { Put out.old at (phrase last_lines what) (10 * length (part_in (text_of last_lines) what)) out.new result }
{
    put_phrase(
        out,
        at,
        b"planned|\
          planned with the cells renumbered|\
          planned by search (@1 tries)|\
          planned by search (1 try)|\
          full (searched, @1 tries)|\
          full (searched, 1 try)|\
          not known (@1 tries)|\
          not known (1 try)|\
          full (renumbered)|\
          full (cell @1|\
          full (cells @1|\
          , @1|\
          )|",
        what,
    )
}

// Puts any part: no row has more than 40 bytes.
fn put(out: &mut [u8], at: usize, what: Phrase) -> usize
    requires { at + 400 ≤ length out.old }
    ensures { Put out.old at (phrase last_lines what) 400 out.new result }
{
    put_part(out, at, what)
}

// Whether a set has a cell above its lowest.
fn several(set: u32) -> bool
    ensures { result ≡ several_in set }
{
    let low = lowest(set, 0, 32);
    if low < 32 {
        return lowest(set, low + 1, 32) < 32;
    }
    false
}

// The lowest cell of a set, and what stands before it.
fn head_phrase(set: u32) -> Phrase
    ensures { result ≡ named_phrase set }
{
    let low = lowest(set, 0, 32);
    if several(set) {
        return Phrase::Row(CELLS, low + 1, 0, 0, 0);
    }
    Phrase::Row(CELL, low + 1, 0, 0, 0)
}

// A cell of the set above the lowest; nothing for any other.
#[tactic(auto, unfolding(finds::specs::Last::later_phrase))]
fn later_phrase(set: u32, low: usize, j: usize) -> Phrase
    requires { (j < 32) × (low ≡ lowest_of set) }
    ensures { result ≡ later_phrase set j }
{
    if j <= low {
        return Phrase::Silent;
    }
    if has(set, j) {
        return Phrase::Row(LATER, j + 1, 0, 0, 0);
    }
    Phrase::Silent
}

// Puts the cells of a set above its lowest.
fn put_later(out: &mut [u8], at: usize, set: u32) -> usize
    requires { at + 1280 ≤ length out.old }
    ensures { Put out.old at (later_said set 32) 1280 out.new result }
{
    let low = lowest(set, 0, 32);
    let mut next = at;
    for j in 0..32 {
        next = put_part(out, next, later_phrase(set, low, j));
    }
    next
}

// Puts those cells, and what stands after them.
fn put_set(out: &mut [u8], at: usize, set: u32) -> usize
    requires { at + 2000 ≤ length out.old }
    ensures { Put out.old at (others_said (Err (Full set))) 2000 out.new result }
{
    let next = put_later(out, at, set);
    put(out, next, Phrase::Row(CLOSE, 0, 0, 0, 0))
}

// The last word of an answer; of a set the lowest cell.
fn last_phrase(reply: Result<Way, FindError>) -> Phrase
    ensures { result ≡ last_phrase reply }
{
    match reply {
        Ok(Way::Greedy) => Phrase::Row(PLANNED, 0, 0, 0, 0),
        Ok(Way::Renumbered) => Phrase::Row(RENUMBERED, 0, 0, 0, 0),
        Ok(Way::Searched(tries)) => tries_phrase(SEARCHED, tries),
        Err(FindError::Full(set)) => head_phrase(set),
        Err(FindError::FullInClass) => Phrase::Row(IN_CLASS, 0, 0, 0, 0),
        Err(FindError::FullSearched(tries)) => tries_phrase(EXHAUSTED, tries),
        Err(FindError::NotKnown(tries)) => tries_phrase(UNKNOWN, tries),
        Err(FindError::TableShort) => Phrase::Silent,
        Err(FindError::Record(_)) => Phrase::Silent,
    }
}

// Puts the cells of a set above its lowest; of any other answer nothing.
fn put_others(out: &mut [u8], at: usize, reply: Result<Way, FindError>) -> usize
    requires { at + 2000 ≤ length out.old }
    ensures { Put out.old at (others_said reply) 2000 out.new result }
{
    match reply {
        Err(FindError::Full(set)) => put_set(out, at, set),
        _ => at,
    }
}

// The last word, without an end of line; nothing of a refusal.
pub fn put_last(out: &mut [u8], at: usize, reply: Result<Way, FindError>) -> usize
    requires { at + 2500 ≤ length out.old }
    ensures { Put out.old at (last_word reply) 2500 out.new result }
{
    let next = put(out, at, last_phrase(reply));
    put_others(out, next, reply)
}

// How many positions of a site are open.
#[tactic(auto, using(search::proofs::Answer::accepted_sizes))]
fn open_of(site: Site) -> usize
    requires { fault_of site ≡ Ok tt }
    ensures { result ≡ room (net_of site) }
{
    let n = (site.slots as usize) * (site.channels as usize);
    let blocked = site.blocked;
    open_count(&blocked, n)
}

// How many fragments a site has to send in a superframe.
fn fragments_of(site: Site) -> u32
    requires { fault_of site ≡ Ok tt }
    ensures { result ≡ sum (net_of site).load site.cells }
{
    let loads = site.loads;
    loads_of_many(&loads, ALL)
}

// Whether the search does not take so large a site.
fn too_large(site: Site) -> bool
    requires { fault_of site ≡ Ok tt }
    ensures { result ≡ too_large (net_of site) }
{
    if 24 < fragments_of(site) {
        return true;
    }
    64 < open_of(site)
}

// The row of a set that is over: of one cell or of more, and where fewer positions are open than there are.
fn needs_row(several: bool, few: usize, all: usize) -> usize
    ensures { result ≡ needs_row several few all }
{
    if several {
        if few < all {
            return THEY_NEED + 1;
        }
        return THEY_NEED;
    }
    if few < all {
        return IT_NEEDS + 1;
    }
    IT_NEEDS
}

// What the cells of a set need, and what the site has.
#[tactic(auto, using(search::proofs::Answer::accepted_sizes), unfolding(finds::specs::Find::needs_phrase))]
fn needs_phrase(site: Site, set: u32) -> Phrase
    requires { fault_of site ≡ Ok tt }
    ensures { result ≡ needs_phrase site set }
{
    let all = (site.slots as usize) * (site.channels as usize);
    let open = open_of(site);
    let loads = site.loads;
    let load = loads_of_many(&loads, set) as usize;
    Phrase::Row(needs_row(several(set), open, all), load, open, 0, 0)
}

// Why it is not known: the search does not take so large a site, or it stopped.
#[tactic(auto, unfolding(finds::specs::Find::unknown_phrase))]
fn unknown_phrase(site: Site) -> Phrase
    requires { fault_of site ≡ Ok tt }
    ensures { result ≡ unknown_phrase site }
{
    if too_large(site) {
        return Phrase::Row(TOO_LARGE, 0, 0, 0, 0);
    }
    Phrase::Row(STOPPED, 0, 0, 0, 0)
}

// The size of a site.
fn sizes_phrase(site: Site) -> Phrase
    ensures { result ≡ found_sizes site }
{
    Phrase::Row(
        SIZES,
        site.cells as usize,
        site.slots as usize,
        site.channels as usize,
        0,
    )
}

// What is said beside the last word.
fn beside_phrase(site: Site, reply: Result<Way, FindError>) -> Phrase
    requires { fault_of site ≡ Ok tt }
    ensures { result ≡ beside_phrase site reply }
{
    match reply {
        Ok(_) => sizes_phrase(site),
        Err(FindError::Full(set)) => needs_phrase(site, set),
        Err(FindError::FullInClass) => Phrase::Row(NO_PLAN, 0, 0, 0, 0),
        Err(FindError::FullSearched(_)) => Phrase::Row(NO_PLAN, 0, 0, 0, 0),
        Err(FindError::NotKnown(_)) => unknown_phrase(site),
        Err(FindError::TableShort) => Phrase::Silent,
        Err(FindError::Record(_)) => Phrase::Silent,
    }
}

// Puts a line of `find`: a row of the table with its values, or nothing.
fn put_line(out: &mut [u8], at: usize, what: Phrase) -> usize
    requires { at + 1000 ≤ length out.old }
    ensures { Put out.old at (phrase find_lines what) 1000 out.new result }
{
    put_phrase(
        out,
        at,
        b": @1 cell@a, @2 slot@b, @3 channel@c\n|\
          : it needs @1 channel-slot@a, and the site has @2\n|\
          : it needs @1 channel-slot@a, and the site has @2 open\n|\
          : they clash with one another and need @1 channel-slot@a, and the site has @2\n|\
          : they clash with one another and need @1 channel-slot@a, and the site has @2 open\n|\
          : no plan exists\n|\
          : the search stopped there\n|\
          : over 64 open positions or 24 fragments, which is too many to search\n|",
        what,
    )
}

// Puts a refusal; of any other answer nothing.
fn put_refusal(out: &mut [u8], at: usize, reply: Result<Way, FindError>) -> usize
    requires { at + 2000 ≤ length out.old }
    ensures { Put out.old at (find_refused reply) 2000 out.new result }
{
    match reply {
        Err(FindError::TableShort) => say_refusals::put_refused(out, at, 4, None),
        Err(FindError::Record(fault)) => say_verdicts::put_fault(out, at, Err(fault)),
        _ => at,
    }
}

// The line of an accepted site.
fn put_found(out: &mut [u8], at: usize, site: Site, reply: Result<Way, FindError>) -> usize
    requires at_in_bounds { at + 6000 ≤ length out.old }
    requires site_value { fault_of site ≡ Ok tt }
    ensures { Put out.old at (found_said site reply) 6000 out.new result }
{
    let second = put_last(out, at, reply);
    let third = put_line(out, second, beside_phrase(site, reply));
    put_refusal(out, third, reply)
}

// The line of `find`: the last word, and what there is to say beside it; or the refusal.
#[tactic(auto, unfolding(finds::specs::Find::find_said))]
pub fn put_find(out: &mut [u8], at: usize, site: Site, reply: Result<Way, FindError>) -> usize
    requires { at + 6000 ≤ length out.old }
    ensures { Put out.old at (find_said site reply) 6000 out.new result }
{
    if let Err(fault) = site.accepted() {
        return say_verdicts::put_fault(out, at, Err(fault));
    }
    put_found(out, at, site, reply)
}

// The last line of `why`.
pub fn put_last_line(out: &mut [u8], at: usize, reply: Result<Way, FindError>) -> usize
    requires { at + 3000 ≤ length out.old }
    ensures { Put out.old at (last_line reply) 3000 out.new result }
{
    let next = put_last(out, at, reply);
    put_text(out, next, b"\n")
}

// What `why` finds, with the tries that it makes.
pub fn find_why(site: Site, table: &mut [u8]) -> Result<Way, FindError>
    ensures answer { result ≡ find_answer site why_tries table.old }
    ensures table { table.new ≡ find_table site why_tries table.old }
{
    finder::find(site, WHY_TRIES, table)
}

// The exit status: 0 a plan, 1 full or refused, 3 not known.
pub fn status(reply: Result<Way, FindError>) -> u8
    ensures { result ≡ status_of reply }
{
    match reply {
        Ok(_) => 0,
        Err(FindError::NotKnown(_)) => 3,
        Err(_) => 1,
    }
}
