// What is said of a search, written into a lent buffer at `at`. The answer is where the next byte goes.
#![tactic(auto)]

ghost use Rattle.std.specs.Prelude.{◌≡◌, ◌+◌, ◌≤◌, length};
ghost use Rattle.phrases.specs.Put.{Put};
ghost use Rattle.phrases.specs.Phrases.{phrase};
ghost use Rattle.say_search.specs.Lines.{search_lines};
ghost use Rattle.say_search.specs.Said.{tries_phrase, search_said, on_said};

use phrases::{Phrase, put_phrase};
use search::SearchError;

const PLANNED: usize = 0;

const FULL: usize = 2;

const STOPPED: usize = 4;

const ON: usize = 6;

// Puts a line: a row of the table with its values, or nothing.
fn put(out: &mut [u8], at: usize, what: Phrase) -> usize
    requires { at + 1000 ≤ length out.old }
    ensures { Put out.old at (phrase search_lines what) 1000 out.new result }
{
    put_phrase(
        out,
        at,
        b"planned after @1 tries\n|\
          planned after 1 try\n|\
          full: no plan exists, and @1 tries show it\n|\
          full: no plan exists, and 1 try shows it\n|\
          not known: stopped at @1 tries\n|\
          not known: stopped at 1 try\n|\
          not decided after @1 tries; searching on\n|",
        what,
    )
}

// The row of a number of tries; the row after it is of one try.
pub fn tries_phrase(row: usize, tries: u64) -> Phrase
    requires { row ≤ 10 }
    ensures { result ≡ tries_phrase row tries }
{
    if tries == 1 {
        return Phrase::Row(row + 1, 0, 0, 0, 0);
    }
    Phrase::Row(row, tries as usize, 0, 0, 0)
}

// Puts the line of a number of tries.
fn put_tries(out: &mut [u8], at: usize, row: usize, tries: u64) -> usize
    requires { (row ≤ 10) × (at + 2000 ≤ length out.old) }
    ensures { Put out.old at (phrase search_lines (tries_phrase row tries)) 2000 out.new result }
{
    put(out, at, tries_phrase(row, tries))
}

// A search: planned, full or not known, with the tries made; or the refusal.
pub fn put_search(out: &mut [u8], at: usize, reply: Result<u64, SearchError>) -> usize
    requires { at + 2000 ≤ length out.old }
    ensures { Put out.old at (search_said reply) 2000 out.new result }
{
    match reply {
        Ok(tries) => put_tries(out, at, PLANNED, tries),
        Err(SearchError::Full(tries)) => put_tries(out, at, FULL, tries),
        Err(SearchError::Limit(tries)) => put_tries(out, at, STOPPED, tries),
        Err(SearchError::TooMany) => say_refusals::put_refused(out, at, 25, None),
        Err(SearchError::TableShort) => say_refusals::put_refused(out, at, 4, None),
        Err(SearchError::Record(f)) => say_verdicts::put_fault(out, at, Err(f)),
    }
}

// That a search goes on, past so many tries.
pub fn put_on(out: &mut [u8], at: usize, tries: u64) -> usize
    requires { at + 1000 ≤ length out.old }
    ensures { Put out.old at (on_said tries) 1000 out.new result }
{
    put(out, at, Phrase::Row(ON, tries as usize, 0, 0, 0))
}
