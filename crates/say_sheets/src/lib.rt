// What is said of a range sheet: why a line is bad, what tidying changed, and the site that was made. Written into a lent buffer at `at`.
// The answer is where the next byte goes.
#![tactic(auto)]

ghost use Rattle.std.specs.Prelude.{◌≡◌, not, ◌+◌, ◌≤◌, eqb, length};
ghost use Rattle.cleaning.specs.Clean.{changes_of};
ghost use Rattle.phrases.specs.Put.{Put};
ghost use Rattle.phrases.specs.Phrases.{phrase};
ghost use Rattle.say_sheets.specs.Lines.{tidy_lines};
ghost use Rattle.say_sheets.specs.Said.{fault_row, line_fault_said, bad_line_said, sheet_refused_said, first_change, place_phrase, named_said};
ghost use Rattle.say_sheets.specs.Said.{tidy_changes_said, tidied_said, tidy_said, made_phrase, made_said};

use clashcount::clash_count;
use cleaning::Tidied;
use linefaults::{LineFault, fault_of_line};
use phrases::{Phrase, put_phrase};
use say_refusals::put_refused;
use say_verdicts::put_sheet_read;
use sheet::SheetError;
use site::Site;
use tidying::{TidyError, changes_made};

// How many kinds of changes there are.
const KINDS: u8 = 8;

const ONCE: usize = 9;

const OFTEN: usize = 10;

const TIDIED: usize = 11;

const LEFT: usize = 12;

const NOT_TIDIED: usize = 13;

// The row of a reason, and its character or column; 0 where it has none.
fn fault_row(fault: LineFault) -> (usize, usize)
    ensures { result ≡ fault_row fault }
{
    match fault {
        LineFault::Missing => (0, 0),
        LineFault::Extra => (1, 0),
        LineFault::OrderMark => (2, 0),
        LineFault::Semicolon(at) => (3, at),
        LineFault::Tab(at) => (4, at),
        LineFault::Quote(at) => (5, at),
        LineFault::Blank(at) => (6, at),
        LineFault::FeedAlone => (7, 0),
        LineFault::NoEnd => (8, 0),
        LineFault::LeadingZero(column) => (9, column),
        LineFault::OverLarge(column) => (10, column),
        LineFault::NoNumber(column) => (11, column),
        LineFault::NoMark(column) => (12, column),
        LineFault::FewFields(column) => (13, column),
        LineFault::ManyFields(column) => (14, column),
        LineFault::LoneCr(at) => (15, at),
    }
}

// Why a line is bad.
fn put_line_fault(out: &mut [u8], at: usize, line: usize, fault: LineFault) -> usize
    requires { at + 1000 ≤ length out.old }
    ensures { Put out.old at (line_fault_said line fault) 1000 out.new result }
{
    let (row, place) = fault_row(fault);
    put_phrase(
        out,
        at,
        b"refused 17, line @1: the sheet ends before this line\n|\
          refused 17, line @1: a line too many\n|\
          refused 17, line @1: it begins with a byte order mark\n|\
          refused 17, line @1: at character @2 stands a semicolon, and a comma belongs there\n|\
          refused 17, line @1: at character @2 stands a tab, and a comma belongs there\n|\
          refused 17, line @1: at character @2 stands a quote, and a sheet has none\n|\
          refused 17, line @1: at character @2 stands a blank, and a sheet has none\n|\
          refused 17, line @1: the line ends in LF alone, and CR LF belongs there\n|\
          refused 17, line @1: the line has no end, and CR LF belongs there\n|\
          refused 17, line @1: column @2: a number with a leading zero\n|\
          refused 17, line @1: column @2: a number above 65,535\n|\
          refused 17, line @1: column @2: a plain number belongs there\n|\
          refused 17, line @1: column @2: 0 or 1 belongs there\n|\
          refused 17, line @1: too few fields: it ends after column @2\n|\
          refused 17, line @1: too many fields: column @2 is one too many\n|\
          refused 17, line @1: before character @2 stands a CR without its LF\n|",
        Phrase::Row(row, line, place, 0, 0),
    )
}

// Why a line is bad, where it can be told; else what 17 means.
fn put_bad_line(out: &mut [u8], at: usize, sheet: &[u8], line: usize) -> usize
    requires { at + 2000 ≤ length out.old }
    ensures { Put out.old at (bad_line_said sheet.now line) 2000 out.new result }
{
    match fault_of_line(sheet, line) {
        None => put_sheet_read(out, at, Err(SheetError::BadLine(line))),
        Some(fault) => put_line_fault(out, at, line, fault),
    }
}

// A sheet that was read, or its refusal.
pub fn put_sheet_refused(
    out: &mut [u8],
    at: usize,
    sheet: &[u8],
    reply: Result<(), SheetError>,
) -> usize
    requires { at + 2000 ≤ length out.old }
    ensures { Put out.old at (sheet_refused_said sheet.now reply) 2000 out.new result }
{
    match reply {
        Err(SheetError::BadLine(line)) => put_bad_line(out, at, sheet, line),
        _ => put_sheet_read(out, at, reply),
    }
}

// Puts a row of the sentences of tidying: a change by its number, its place, and what is said of the sheet.
fn put(out: &mut [u8], at: usize, what: Phrase) -> usize
    requires { at + 500 ≤ length out.old }
    ensures { Put out.old at (phrase tidy_lines what) 500 out.new result }
{
    put_phrase(
        out,
        at,
        b"|the byte order mark dropped\n|\
          a comma put for a semicolon or a tab\n|\
          CR LF put for LF\n|\
          a quote dropped\n|\
          a blank dropped\n|\
          0 put for a blank mark\n|\
          1 put for an x\n|\
          the last line's end added\n|\
          line @1: |\
          from line @1 on, @2 times: |\
          tidied\n|\
          tidy as it is: nothing to change\n|\
          refused 17, line @1: this line can't be tidied\n|",
        what,
    )
}

// The line of a change, or the first of several.
fn place_phrase(c: Tidied) -> Phrase
    ensures { result ≡ place_phrase c }
{
    if c.times == 1 {
        return Phrase::Row(ONCE, c.line, 0, 0, 0);
    }
    Phrase::Row(OFTEN, c.line, c.times, 0, 0)
}

// A change that tidying made; nothing of one that it did not make.
fn put_named(out: &mut [u8], at: usize, kind: u8, c: Tidied) -> usize
    requires { at + 1000 ≤ length out.old }
    ensures { Put out.old at (named_said kind c) 1000 out.new result }
{
    if c.times == 0 {
        return at;
    }
    let next = put(out, at, place_phrase(c));
    put(out, next, Phrase::Row(kind as usize, 0, 0, 0, 0))
}

// The changes that tidying made, in the order of their numbers.
fn put_changes(out: &mut [u8], at: usize, sheet: &[u8]) -> usize
    requires { at + 8000 ≤ length out.old }
    ensures { Put out.old at (tidy_changes_said sheet.now 8) 8000 out.new result }
{
    let mut next = at;
    for done in 0..KINDS {
        let kind = done + 1;
        next = put_named(out, next, kind, changes_made(sheet, kind));
    }
    next
}

// Whether tidying makes a change, by its number less 1.
fn is_made(sheet: &[u8], done: u8) -> bool
    requires { done ≤ 8 }
    ensures { result ≡ not (eqb (changes_of sheet.now (done + 1)).times 0) }
{
    let c = changes_made(sheet, done + 1);
    c.times != 0
}

// The number, less 1, of the first change that tidying makes; 8 where it makes none.
fn first_change(sheet: &[u8]) -> u8
    ensures { result ≡ first_change sheet.now }
{
    for done in 0..KINDS {
        if is_made(sheet, done) {
            return done;
        }
    }
    KINDS
}

// What was tidied in a sheet, a line for each thing; or that there was nothing to change.
fn put_tidied(out: &mut [u8], at: usize, sheet: &[u8]) -> usize
    requires { at + 9000 ≤ length out.old }
    ensures { Put out.old at (tidied_said sheet.now) 9000 out.new result }
{
    if first_change(sheet) == KINDS {
        return put(out, at, Phrase::Row(LEFT, 0, 0, 0, 0));
    }
    let next = put(out, at, Phrase::Row(TIDIED, 0, 0, 0, 0));
    put_changes(out, next, sheet)
}

// What tidying answered: what was changed, or the line that can't be tidied.
pub fn put_tidy(out: &mut [u8], at: usize, sheet: &[u8], reply: Result<usize, TidyError>) -> usize
    requires { at + 9000 ≤ length out.old }
    ensures { Put out.old at (tidy_said sheet.now reply) 9000 out.new result }
{
    match reply {
        Ok(_) => put_tidied(out, at, sheet),
        Err(TidyError::OutShort(_)) => put_refused(out, at, 13, None),
        Err(TidyError::BadLine(line)) => put(out, at, Phrase::Row(NOT_TIDIED, line, 0, 0, 0)),
    }
}

// The sizes of a site and its clashes.
fn made_phrase(site: Site) -> Phrase
    ensures { result ≡ made_phrase site }
{
    let clashes = clash_count(site);
    let cells = site.cells as usize;
    let slots = site.slots as usize;
    let channels = site.channels as usize;
    if clashes == 1 {
        return Phrase::Row(1, cells, slots, channels, clashes);
    }
    Phrase::Row(0, cells, slots, channels, clashes)
}

// What a site is that was made of a sheet.
pub fn put_made(out: &mut [u8], at: usize, site: Site) -> usize
    requires { at + 700 ≤ length out.old }
    ensures { Put out.old at (made_said site) 700 out.new result }
{
    put_phrase(
        out,
        at,
        b"made: @1 cell@a, @2 slot@b, @3 channel@c, @4 clashes\n|\
          made: @1 cell@a, @2 slot@b, @3 channel@c, @4 clash\n|",
        made_phrase(site),
    )
}
