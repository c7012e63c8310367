// An audit as a comma-separated sheet: its first line, and the line of a site file, written into a lent buffer at `at`. The answer is where the next byte goes.
#![tactic(auto)]

ghost use Rattle.std.specs.Prelude.{◌≡◌, ◌+◌, ◌≤◌, ◌<◌, length};
ghost use Rattle.laws.specs.Sum.{bit};
ghost use Rattle.site.specs.Given.{fault_given};
ghost use Rattle.records.specs.Given.{read_given};
ghost use Rattle.checker.specs.Given.{check_given};
ghost use Rattle.phrases.specs.Put.{Put};
ghost use Rattle.phrases.specs.Phrases.{phrase};
ghost use Rattle.finds.specs.Last.{lowest_of};
ghost use Rattle.say_csv.specs.Lines.{csv_first, csv_lines};
ghost use Rattle.say_csv.specs.Fields.{found_fields, cell_field, cells_field, set_field, takes_fields, changes_fields, plan_fields};
ghost use Rattle.say_csv.specs.Fields.{first_line, refused_line_fields, unread_fields, site_fields, plan_field};

use auditing::{Extent, Form, form_phrase};
use checker::CheckError;
use finder::{FindError, Way};
use mender::MendError;
use phrases::{Phrase, put_phrase};
use records::Refusal;
use site::{Fault, Site};
use words::{has, lowest};

const REFUSED: usize = 0;

const UNREAD: usize = 1;

// The first of the rows of the four forms.
const FORMS: usize = 2;

const PLANNED: usize = 6;

const ANEW: usize = 7;

const SEARCHED: usize = 8;

const FULL: usize = 9;

const EXHAUSTED: usize = 10;

const UNKNOWN: usize = 11;

const NOT_FOUND: usize = 12;

const LOWEST: usize = 13;

const LATER: usize = 14;

const TAKES: usize = 15;

const NO_PLAN: usize = 16;

const PLAN_UNREAD: usize = 17;

const PLAN_SIZE: usize = 18;

const PLAN_REFUSED: usize = 19;

const CHECKED: usize = 20;

const NOT_MENDED: usize = 21;

// What the sheet says of the plan file beside a site, where there is one: it can't be read; it is refused; it is for another size; or the check's verdict,
// mend's answer, and whether it is valid if only two-way ranges clashed.
#[derive(Clone, Copy)]
pub enum PlanTold {
    Unread,
    Refused(Result<(), Refusal>),
    OtherSize,
    Checked(Result<(), CheckError>, Result<usize, MendError>, bool),
}

// The first line of the sheet.
pub fn put_first(out: &mut [u8], at: usize) -> usize
    requires { at + 1100 ≤ length out.old }
    ensures { Put out.old at first_line 1100 out.new result }
{
    put_phrase(
        out,
        at,
        b"file,refused,cells,slots,channels,rule,class,found,tries,set,needs,enough,open,plan,changes,oneway\r\n|",
        Phrase::Row(0, 0, 0, 0, 0),
    )
}

// Puts fields: a row of the table with its values, or nothing.
fn put(out: &mut [u8], at: usize, what: Phrase) -> usize
    requires { at + 400 ≤ length out.old }
    ensures { Put out.old at (phrase csv_lines what) 400 out.new result }
{
    put_phrase(
        out,
        at,
        b",@1,,,,,,,,,,,,,,\r\n|\
          ,unread,,,,,,,,,,,,,,\r\n|\
          ,,@1,@2,@3,@4,chained,|\
          ,,@1,@2,@3,@4,nested,|\
          ,,@1,@2,@3,@4,renumbered,|\
          ,,@1,@2,@3,@4,neither,|\
          planned,,|\
          renumbered,,|\
          searched,@1,|\
          full,,|\
          full,@1,|\
          not known,@1,|\
          ,,|\
          @1| @1|\
          ,@1,@2,@3|\
          ,,,\r\n|\
          ,unread,,\r\n|\
          ,size,,\r\n|\
          ,@1,,\r\n|\
          ,@1,@2,@3\r\n|\
          ,@1,,@3\r\n|",
        what,
    )
}

// The number of a reader's refusal.
fn read_number(answer: Result<(), Refusal>) -> usize
    ensures { result ≡ (read_given answer).number }
{
    match answer {
        Ok(()) => 0,
        Err(refusal) => refusal.number as usize,
    }
}

// The number of what is wrong with a record.
fn fault_number(fault: Fault) -> usize
    ensures { result ≡ (fault_given fault).number }
{
    match fault {
        Fault::Size => 1,
        Fault::Rule => 24,
        Fault::Load(_) => 2,
        Fault::Reach(_) => 3,
        Fault::Blocked(_) => 20,
    }
}

// The number of a check's answer.
fn check_number(verdict: Result<(), CheckError>) -> usize
    ensures { result ≡ (check_given verdict).number }
{
    match verdict {
        Ok(()) => 0,
        Err(CheckError::TableShort) => 4,
        Err(CheckError::Blocked(_, _)) => 22,
        Err(CheckError::Clash(_, _, _)) => 6,
        Err(CheckError::Count(_, _)) => 7,
        Err(CheckError::Record(fault)) => fault_number(fault),
    }
}

// After its name, the line of a site file that is refused: the number, and all else is empty.
pub fn put_refused_fields(out: &mut [u8], at: usize, reply: Result<(), Refusal>) -> usize
    requires { at + 400 ≤ length out.old }
    ensures { Put out.old at (refused_line_fields reply) 400 out.new result }
{
    put(out, at, Phrase::Row(REFUSED, read_number(reply), 0, 0, 0))
}

// After its name, the line of a site file that can't be read. No twin of those of `say_audit`: a row of another table.
pub fn put_unread_fields(out: &mut [u8], at: usize) -> usize
    requires { at + 400 ≤ length out.old }
    ensures { Put out.old at unread_fields 400 out.new result }
{
    put(out, at, Phrase::Row(UNREAD, 0, 0, 0, 0))
}

// What is found, and the tries of a search.
fn found_fields(found: Result<Way, FindError>) -> Phrase
    ensures { result ≡ found_fields found }
{
    match found {
        Ok(Way::Greedy) => Phrase::Row(PLANNED, 0, 0, 0, 0),
        Ok(Way::Renumbered) => Phrase::Row(ANEW, 0, 0, 0, 0),
        Ok(Way::Searched(tries)) => Phrase::Row(SEARCHED, tries as usize, 0, 0, 0),
        Err(FindError::Full(_)) => Phrase::Row(FULL, 0, 0, 0, 0),
        Err(FindError::FullInClass) => Phrase::Row(FULL, 0, 0, 0, 0),
        Err(FindError::FullSearched(tries)) => Phrase::Row(EXHAUSTED, tries as usize, 0, 0, 0),
        Err(FindError::NotKnown(tries)) => Phrase::Row(UNKNOWN, tries as usize, 0, 0, 0),
        Err(FindError::TableShort) => Phrase::Row(NOT_FOUND, 0, 0, 0, 0),
        Err(FindError::Record(_)) => Phrase::Row(NOT_FOUND, 0, 0, 0, 0),
    }
}

// A cell of a set, with a blank before all but the lowest; nothing for one that is not in it.
fn cell_field(set: u32, low: usize, j: usize) -> Phrase
    requires { (j < 32) × (low ≡ lowest_of set) }
    ensures { result ≡ cell_field set j }
{
    if !has(set, j) {
        return Phrase::Silent;
    }
    if low < j {
        return Phrase::Row(LATER, j + 1, 0, 0, 0);
    }
    Phrase::Row(LOWEST, j + 1, 0, 0, 0)
}

// The cells of a set.
// It only looks like `say_find::put_later`: each puts phrases of its own in its own table, with 400 bytes for a cell here and 40 there.
fn put_cells(out: &mut [u8], at: usize, set: u32) -> usize
    requires { at + 12800 ≤ length out.old }
    ensures { Put out.old at (cells_field set 32) 12800 out.new result }
{
    let low = lowest(set, 0, 32);
    let mut next = at;
    for j in 0..32 {
        next = put(out, next, cell_field(set, low, j));
    }
    next
}

// The cells of a set that is over; of any other answer nothing.
fn put_set(out: &mut [u8], at: usize, found: Result<Way, FindError>) -> usize
    requires { at + 12800 ≤ length out.old }
    ensures { Put out.old at (set_field found) 12800 out.new result }
{
    let Err(FindError::Full(set)) = found else {
        return at;
    };
    put_cells(out, at, set)
}

// After its name, the fields of a site before those of its plan.
pub fn put_site(
    out: &mut [u8],
    at: usize,
    site: Site,
    form: Form,
    found: Result<Way, FindError>,
    takes: Extent,
    room: usize,
) -> usize
    requires { at + 14000 ≤ length out.old }
    ensures { Put out.old at (site_fields site form found takes room) 14000 out.new result }
{
    let next = put(out, at, form_phrase(FORMS, site, form));
    let next = put(out, next, found_fields(found));
    let next = put_set(out, next, found);
    put(
        out,
        next,
        Phrase::Row(TAKES, takes.needs, takes.enough, room, 0),
    )
}

// 1 where it is so, and 0 where it is not.
fn one_if(so: bool) -> usize
    ensures { result ≡ bit so }
{
    if so {
        return 1;
    }
    0
}

// A plan that was checked: the verdict's number, the changes that mend it, and whether it is valid if only two-way ranges clashed.
fn changes_fields(
    verdict: Result<(), CheckError>,
    mended: Result<usize, MendError>,
    unseen: bool,
) -> Phrase
    ensures { result ≡ changes_fields verdict mended unseen }
{
    let number = check_number(verdict);
    let one = one_if(unseen);
    match mended {
        Ok(changes) => Phrase::Row(CHECKED, number, changes, one, 0),
        Err(_) => Phrase::Row(NOT_MENDED, number, 0, one, 0),
    }
}

// The fields of the plan file, where there is one.
fn plan_fields(plan: Option<PlanTold>) -> Phrase
    ensures { result ≡ plan_fields plan }
{
    match plan {
        None => Phrase::Row(NO_PLAN, 0, 0, 0, 0),
        Some(PlanTold::Unread) => Phrase::Row(PLAN_UNREAD, 0, 0, 0, 0),
        Some(PlanTold::Refused(answer)) => Phrase::Row(PLAN_REFUSED, read_number(answer), 0, 0, 0),
        Some(PlanTold::OtherSize) => Phrase::Row(PLAN_SIZE, 0, 0, 0, 0),
        Some(PlanTold::Checked(verdict, mended, unseen)) => changes_fields(verdict, mended, unseen),
    }
}

// The fields of the plan file, and the line's end.
pub fn put_plan_fields(out: &mut [u8], at: usize, plan: Option<PlanTold>) -> usize
    requires { at + 400 ≤ length out.old }
    ensures { Put out.old at (plan_field plan) 400 out.new result }
{
    put(out, at, plan_fields(plan))
}
