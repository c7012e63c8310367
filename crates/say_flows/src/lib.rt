// The text of an admission, written into a lent buffer. Each function puts its text at `at` and answers where the next byte goes.
#![tactic(auto)]

ghost use Rattle.std.specs.Prelude.{◌≡◌, ◌+◌, ◌*◌, ◌≤◌, ◌<◌, length, get_or, Ok};
ghost use Rattle.laws.specs.Bits.{bit_at};
ghost use Rattle.laws.specs.Choice.{pick};
ghost use Rattle.flowlist.specs.List.{zero_flow};
ghost use Rattle.admitting.specs.Best.{total};
ghost use Rattle.admission.specs.Admit.{share_in, amount};
ghost use Rattle.phrases.specs.Put.{Put};
ghost use Rattle.phrases.specs.Phrases.{phrase};
ghost use Rattle.say_flows.specs.Lines.{admit_lines};
ghost use Rattle.say_flows.specs.Said.{flow_phrase, list_said, split_line, nineteen_said, refusal_said, answer_said, admit_said, beside_said};

use admission::{AdmitError, BesideError, share_in};
use chainwords::{first_split, gap, split_of};
use flowlist::{Flow, FlowList};
use phrases::{Phrase, put_phrase};
use planner::PlanError;
use say_refusals::{Place, put_refused};
use site::Site;
use words::has;

const ASIDE: usize = 0;

const TAKEN: usize = 1;

const LEFT: usize = 2;

const WORTH: usize = 3;

const BESIDE: usize = 4;

const SPLIT: usize = 0;

// Puts a line: a row of the table with its values, or nothing.
fn put(out: &mut [u8], at: usize, what: Phrase) -> usize
    requires { at + 600 ≤ length out.old }
    ensures { Put out.old at (phrase admit_lines what) 600 out.new result }
{
    put_phrase(
        out,
        at,
        b"the loads of the site are set aside\n|\
          flow @1: cell @2, share @3, value @4, taken\n|\
          flow @1: cell @2, share @3, value @4, not taken\n|\
          worth @1\n|\
          on top of the loads of the site\n|",
        what,
    )
}

// A site that is not nested, and the three cells that show it.
fn put_split(out: &mut [u8], at: usize, a: usize, b: usize, i: usize) -> usize
    requires { at + 2000 ≤ length out.old }
    ensures { Put out.old at (split_line a b i) 2000 out.new result }
{
    put_phrase(
        out,
        at,
        b"refused 19: the site is not nested when all its cells count, the spare ones too: \
          cells @1 and @2 clash with cell @3, and not with one another\n|",
        Phrase::Row(SPLIT, a, b, i, 0),
    )
}

// The share of a flow; 0 where it has none.
fn share_at(slots: u16, f: Flow) -> usize
    ensures { result ≡ amount (share_in slots f) }
{
    match share_in(slots, f) {
        Ok((share, _, _)) => share.0 as usize,
        Err(_) => 0,
    }
}

// The flow at place k.
fn flow_phrase(slots: u16, set: u32, f: Flow, k: usize) -> Phrase
    requires { k < 16 }
    ensures { result ≡ flow_phrase slots set f k }
{
    let share = share_at(slots, f);
    if has(set, k) {
        return Phrase::Row(TAKEN, k + 1, f.cell as usize, share, f.value as usize);
    }
    Phrase::Row(LEFT, k + 1, f.cell as usize, share, f.value as usize)
}

// The lines of the flows.
fn put_flows(out: &mut [u8], at: usize, slots: u16, set: u32, l: FlowList, count: usize) -> usize
    requires { (count ≤ 16) × (at + 600 * count ≤ length out.old) }
    ensures { Put out.old at (list_said slots set (λ k. get_or l.list k zero_flow) count) (600 * count) out.new result }
{
    let mut next = at;
    for (k, &flow) in l.list[..count].iter().enumerate() {
        next = put(out, next, flow_phrase(slots, set, flow, k));
    }
    next
}

// The value of the flow at place k where it is in the set; else 0.
fn value_in(set: u32, f: Flow, k: usize) -> usize
    requires { k < 16 }
    ensures { (result ≡ pick (bit_at set k) f.value 0) × (result ≤ 65535) }
{
    if has(set, k) {
        return f.value as usize;
    }
    0
}

// What a set of flows is worth.
fn worth_of(set: u32, l: FlowList, count: usize) -> usize
    requires { count ≤ 16 }
    ensures { result ≡ total (λ k. (get_or l.list k zero_flow).value) count set }
{
    let mut w: usize = 0;
    for (k, &flow) in l.list[..count].iter().enumerate() {
        w += value_in(set, flow, k);
    }
    w
}

// Whether the loads count, by its row; the flows, and what those that are taken are worth.
fn put_taken(
    out: &mut [u8],
    at: usize,
    row: usize,
    site: Site,
    l: FlowList,
    count: usize,
    set: u32,
) -> usize
    requires { (count ≤ 16) × (at + 12000 ≤ length out.old) }
    ensures { Put out.old at (answer_said row site (λ k. get_or l.list k zero_flow) count (Ok set)) 12000 out.new result }
{
    let first = put(out, at, Phrase::Row(row, 0, 0, 0, 0));
    let middle = put_flows(out, first, site.slots, set, l, count);
    let w = worth_of(set, l, count);
    put(out, middle, Phrase::Row(WORTH, w, 0, 0, 0))
}

// The first three cells that show a site outside the class when all its cells count, sought anew.
fn put_nineteen(out: &mut [u8], at: usize, site: Site) -> usize
    requires { at + 2000 ≤ length out.old }
    ensures { Put out.old at (nineteen_said site) 2000 out.new result }
{
    let Ok(()) = site.accepted() else {
        return put_refused(out, at, 19, None);
    };
    let cells = site.cells as usize;
    let clash = site.clash_rows();
    let i = first_split(&clash, 4294967295, cells);
    if i < cells {
        let a = split_of(&clash, 4294967295, i);
        let b = gap(clash[a], 4294967295 & clash[i], a, i);
        return put_split(out, at, a + 1, b + 1, i + 1);
    }
    put_refused(out, at, 19, None)
}

// Why there is no answer.
fn put_refusal(out: &mut [u8], at: usize, site: Site, refused: AdmitError) -> usize
    requires { at + 12000 ≤ length out.old }
    ensures { Put out.old at (refusal_said site refused) 12000 out.new result }
{
    match refused {
        AdmitError::TooMany => put_refused(out, at, 18, None),
        AdmitError::NotNested => put_nineteen(out, at, site),
        AdmitError::BadCell(flow) => put_refused(out, at, 2, Some(Place::Flow(flow))),
        AdmitError::BadFlow(flow) => put_refused(out, at, 15, Some(Place::Flow(flow))),
        AdmitError::BigShare(flow) => put_refused(out, at, 16, Some(Place::Flow(flow))),
        AdmitError::Record(f) => say_verdicts::put_fault(out, at, Err(f)),
    }
}

// Which flows to take with the loads of the site set aside; or the refusal. The flows are the first `count` of the list.
pub fn put_admit(
    out: &mut [u8],
    at: usize,
    site: Site,
    l: FlowList,
    count: usize,
    reply: Result<u32, AdmitError>,
) -> usize
    requires { (count ≤ 16) × (at + 12000 ≤ length out.old) }
    ensures { Put out.old at (admit_said site (λ k. get_or l.list k zero_flow) count reply) 12000 out.new result }
{
    match reply {
        Ok(set) => put_taken(out, at, ASIDE, site, l, count, set),
        Err(refused) => put_refusal(out, at, site, refused),
    }
}

// The same on top of the loads of the site; 5 in the planner's words.
pub fn put_beside(
    out: &mut [u8],
    at: usize,
    site: Site,
    l: FlowList,
    count: usize,
    reply: Result<u32, BesideError>,
) -> usize
    requires { (count ≤ 16) × (at + 12000 ≤ length out.old) }
    ensures { Put out.old at (beside_said site (λ k. get_or l.list k zero_flow) count reply) 12000 out.new result }
{
    match reply {
        Ok(set) => put_taken(out, at, BESIDE, site, l, count, set),
        Err(BesideError::Admit(refused)) => put_refusal(out, at, site, refused),
        Err(BesideError::Over(cell, excess)) => {
            say_verdicts::put_plan(out, at, site, Err(PlanError::NoRoom(cell, excess)))
        }
    }
}
