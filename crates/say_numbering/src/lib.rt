// What is said of a numbering of cells, of a plan carried back from one, and of a site by its numbering, written into a lent buffer at `at`. The answer is
// where the next byte goes.
#![tactic(auto)]

ghost use Rattle.std.specs.Prelude.{◌≡◌, ◌+◌, ◌≤◌, length};
ghost use Rattle.phrases.specs.Put.{Put};
ghost use Rattle.phrases.specs.Phrases.{phrase};
ghost use Rattle.numbering.specs.Renumber.{renumber_of};
ghost use Rattle.say_numbering.specs.Lines.{number_lines, anew_lines};
ghost use Rattle.say_numbering.specs.Said.{number_phrase, numbers_said, renumber_said, carry_said};
ghost use Rattle.say_numbering.specs.Anew.{anew_numbered, anew_phrase, anew_said};

use judges::ClassVerdict;
use numbering::{CarryError, RenumberError};
use phrases::{Phrase, put_phrase};
use site::Site;

const NUMBERED: usize = 0;

const NEVER: usize = 0;

// Puts a line: a row of the table with its values, or nothing.
fn put(out: &mut [u8], at: usize, what: Phrase) -> usize
    requires { at + 300 ≤ length out.old }
    ensures { Put out.old at (phrase number_lines what) 300 out.new result }
{
    put_phrase(out, at, b"cell @1 is now cell @2\n|", what)
}

// A cell and its new number; nothing where there is none.
fn number_phrase(cell: usize, number: u16) -> Phrase
    ensures { result ≡ number_phrase cell number }
{
    if number == 0 {
        return Phrase::Silent;
    }
    Phrase::Row(NUMBERED, cell, number as usize, 0, 0)
}

// A line for each cell that has a new number.
fn put_numbers(out: &mut [u8], at: usize, new: [u16; 32]) -> usize
    requires { at + 9600 ≤ length out.old }
    ensures { Put out.old at (numbers_said new 32) 9600 out.new result }
{
    let mut next = at;
    for (i, &number) in new.iter().enumerate() {
        next = put(out, next, number_phrase(i + 1, number));
    }
    next
}

// A numbering: a line for each cell; or the refusal.
pub fn put_renumber(
    out: &mut [u8],
    at: usize,
    new: [u16; 32],
    reply: Result<(), RenumberError>,
) -> usize
    requires { at + 9600 ≤ length out.old }
    ensures { Put out.old at (renumber_said new reply) 9600 out.new result }
{
    match reply {
        Ok(()) => put_numbers(out, at, new),
        Err(RenumberError::NoNumbering) => say_refusals::put_refused(out, at, 23, None),
        Err(RenumberError::Record(f)) => say_verdicts::put_fault(out, at, Err(f)),
    }
}

// A plan that was carried, of which there is nothing to say; or the refusal.
pub fn put_carry(out: &mut [u8], at: usize, reply: Result<(), CarryError>) -> usize
    requires { at + 2000 ≤ length out.old }
    ensures { Put out.old at (carry_said reply) 2000 out.new result }
{
    match reply {
        Ok(()) => at,
        Err(CarryError::NoNumbering) => say_refusals::put_refused(out, at, 23, None),
        Err(CarryError::TableShort) => say_refusals::put_refused(out, at, 4, None),
        Err(CarryError::Record(f)) => say_verdicts::put_fault(out, at, Err(f)),
    }
}

// Numbers the cells of a site that is not nested: where that can't be done, the line that says so.
fn number_anew(site: Site) -> Phrase
    ensures { result ≡ anew_numbered (renumber_of site).answer }
{
    let found = numbering::renumber(site);
    let answer = found.answer;
    match answer {
        Ok(()) => Phrase::Silent,
        Err(RenumberError::NoNumbering) => Phrase::Row(NEVER, 0, 0, 0, 0),
        Err(RenumberError::Record(_)) => Phrase::Silent,
    }
}

// What is said of the numbering of a site; nothing of a nested one.
fn anew(site: Site) -> Phrase
    ensures { result ≡ anew_phrase site }
{
    let class = judges::in_class(site);
    match class {
        Ok(ClassVerdict::InClass) => Phrase::Silent,
        Ok(ClassVerdict::Outside(_, _, _)) => number_anew(site),
        Err(_) => Phrase::Silent,
    }
}

// Of a site that is not nested, that no numbering makes it so; of any other, nothing.
pub fn put_anew(out: &mut [u8], at: usize, site: Site) -> usize
    requires { at + 1000 ≤ length out.old }
    ensures { Put out.old at (anew_said site) 1000 out.new result }
{
    let what = anew(site);
    put_phrase(
        out,
        at,
        b"no numbering of all its cells, idle ones too, is nested\n|",
        what,
    )
}
