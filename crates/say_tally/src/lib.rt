// The tally of an audit: a byte for each site file, what was said of it and of the plan beside it; and the last lines, which count them.
#![tactic(auto)]

ghost use Rattle.std.specs.Prelude.{◌≡◌, ◌+◌, ◌≤◌, ◌<◌, length};
ghost use Rattle.phrases.specs.Put.{Put};
ghost use Rattle.phrases.specs.Phrases.{phrase};
ghost use Rattle.laws.specs.Sum.{bit};
ghost use Rattle.say_tally.specs.Marks.{found_mark, plan_mark, verdict_said, mark_of, refused_mark, marks_with};
ghost use Rattle.say_tally.specs.Said.{tally_lines, sites_phrase, plans_phrase, totals_said, all_well};

use checker::CheckError;
use finder::{FindError, Way};
use phrases::{Phrase, put_phrase};

const SITES: usize = 0;

const REFUSED: usize = 1;

const PLANS: usize = 2;

const UNSEEN: usize = 3;

// What is said of the plan beside a site, where there is one: valid; not valid; not valid, and valid if only two-way ranges clashed; refused.
#[derive(Clone, Copy)]
pub enum PlanSaid {
    Valid,
    Wrong,
    Unseen,
    Refused,
}

// The site's part of a mark: 0 a plan, 1 full, 2 not known, 3 refused.
fn found_mark(found: Result<Way, FindError>) -> u8
    ensures { (result ≡ found_mark found) × (result ≤ 3) }
{
    match found {
        Ok(_) => 0,
        Err(FindError::Full(_)) => 1,
        Err(FindError::FullInClass) => 1,
        Err(FindError::FullSearched(_)) => 1,
        Err(FindError::NotKnown(_)) => 2,
        Err(FindError::TableShort) => 3,
        Err(FindError::Record(_)) => 3,
    }
}

// The plan's part: 0 none, 4 valid, 8 not valid, 12 not valid but for one-way ranges, 16 refused.
fn plan_mark(plan: Option<PlanSaid>) -> u8
    ensures { (result ≡ plan_mark plan) × (result ≤ 16) }
{
    match plan {
        None => 0,
        Some(PlanSaid::Valid) => 4,
        Some(PlanSaid::Wrong) => 8,
        Some(PlanSaid::Unseen) => 12,
        Some(PlanSaid::Refused) => 16,
    }
}

// What a check says of a plan.
pub fn verdict_said(verdict: Result<(), CheckError>, unseen: bool) -> PlanSaid
    ensures { result ≡ verdict_said verdict unseen }
{
    if oneway::is_valid(verdict) {
        return PlanSaid::Valid;
    }
    if unseen {
        return PlanSaid::Unseen;
    }
    PlanSaid::Wrong
}

// The mark of a site and its plan.
pub fn mark_of(found: Result<Way, FindError>, plan: Option<PlanSaid>) -> u8
    ensures { result ≡ mark_of found plan }
{
    found_mark(found) + plan_mark(plan)
}

// The mark of a site file that was refused, or could not be read.
pub fn refused_mark() -> u8
    ensures { result ≡ refused_mark }
{
    3
}

// One more, where it counts.
fn one_more(n: usize, counts: bool) -> usize
    requires { n < 4294967296 }
    ensures { result ≡ n + bit counts }
{
    if counts {
        return n + 1;
    }
    n
}

// How many marks of a tally have this part: of the site with a 1 and b 4, of the plan with a 4 and b 8.
fn marks_with(tally: &[u8], a: u8, b: u8, part: u8) -> usize
    requires { (0 < a) × (0 < b) × (length tally.now ≤ 65536) }
    ensures { (result ≡ marks_with a b part tally.now) × (result ≤ 65536) }
{
    let mut n = 0;
    for &mark in tally {
        n = one_more(n, mark / a % b == part);
    }
    n
}

// Puts a part of the last lines: a row of the table with its values.
fn put(out: &mut [u8], at: usize, what: Phrase) -> usize
    requires { at + 700 ≤ length out.old }
    ensures { Put out.old at (phrase tally_lines what) 700 out.new result }
{
    put_phrase(
        out,
        at,
        b"@1 site@a: @2 with a plan, @3 full, @4 not known, |\
          @1 refused\n|\
          @1 plan@a: @2 valid, @3 not valid, @4 refused\n|\
          @1 plan@a with a clash that a one-way reading would not see\n|",
        what,
    )
}

// The counts of the sites, but of those refused.
fn sites_phrase(tally: &[u8]) -> Phrase
    requires { length tally.now ≤ 65536 }
    ensures { result ≡ sites_phrase tally.now }
{
    let planned = marks_with(tally, 1, 4, 0);
    let full = marks_with(tally, 1, 4, 1);
    let unknown = marks_with(tally, 1, 4, 2);
    Phrase::Row(SITES, tally.len(), planned, full, unknown)
}

// The counts of the plans.
fn plans_phrase(tally: &[u8]) -> Phrase
    requires { length tally.now ≤ 65536 }
    ensures { result ≡ plans_phrase tally.now }
{
    let valid = marks_with(tally, 4, 8, 1);
    let wrong = marks_with(tally, 4, 8, 2) + marks_with(tally, 4, 8, 3);
    let refused = marks_with(tally, 4, 8, 4);
    Phrase::Row(PLANS, valid + wrong + refused, valid, wrong, refused)
}

// The last lines of an audit: so many sites, so many plans, and so many with a clash that a one-way reading would not see.
pub fn put_totals(out: &mut [u8], at: usize, tally: &[u8]) -> usize
    requires { (at + 2800 ≤ length out.old) × (length tally.now ≤ 65536) }
    ensures { Put out.old at (totals_said tally.now) 2800 out.new result }
{
    let next = put(out, at, sites_phrase(tally));
    let next = put(
        out,
        next,
        Phrase::Row(REFUSED, marks_with(tally, 1, 4, 3), 0, 0, 0),
    );
    let next = put(out, next, plans_phrase(tally));
    put(
        out,
        next,
        Phrase::Row(UNSEEN, marks_with(tally, 4, 8, 3), 0, 0, 0),
    )
}

// Whether nothing is refused, and no plan is not valid.
pub fn all_well(tally: &[u8]) -> bool
    requires { length tally.now ≤ 65536 }
    ensures { result ≡ all_well tally.now }
{
    let sites = marks_with(tally, 1, 4, 3);
    let wrong = marks_with(tally, 4, 8, 2) + marks_with(tally, 4, 8, 3);
    let plans = marks_with(tally, 4, 8, 4);
    sites + wrong + plans == 0
}
