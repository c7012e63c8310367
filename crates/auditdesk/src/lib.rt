// The desk's audit: a line for each site file that is named among the arguments, with what is said of the plan file beside it; the same as a line of a sheet,
// where one is asked for; and the lines that count. What is said is made by proved functions over slices; here files are read, and it is written.
#![tactic(auto)]

ghost use Rattle.std.specs.Prelude.{◌≤◌, length};

use arguments::{number, tries};
use auditing::{Extent, Form};
use finder::{FindError, Way};
use infiles::same_size;
use records::Refusal;
use reply::no;
use say_csv::PlanTold;
use say_tally::PlanSaid;
use site::Site;
use std::fs::File;
use std::io::ErrorKind;

// After the tries, 1 where a sheet is asked for; and then the first name.
const ASKED: usize = 5;

const NAMES: usize = 6;

// A path is text. What a file is called whose name is none, and the plan beside it: the script gives it alone, and a folder with links to the two.
const SITE_LINK: &str = "/dev/fd/9/site";

const PLAN_LINK: &str = "/dev/fd/9/plan";

// Where the sheet's line begins in the buffer; the line for people is before it. Where nothing is after this place, no sheet is asked for.
const SHEET: usize = 32768;

// Where the next byte of the line goes, and that of the sheet's line.
#[derive(Clone, Copy)]
struct Places {
    next: usize,
    to: usize,
}

// Where the next part of a line goes: a name has at most 4,096 bytes, and what is said of a site 3,900.
fn place(at: usize) -> usize
    ensures { result ≤ 8192 }
{
    at.min(8192)
}

// Where the next part of the sheet's line goes: a name in quotes has at most 8,194 bytes, and what is said of a site 14,000.
fn sheet_place(to: usize) -> usize
    ensures { result ≤ 49152 }
{
    to.min(49152)
}

// Reads a file, by its path: how many bytes it has, or why it can't be read.
fn read_path(rt: &HostRuntime, path: &str, buffer: &mut [u8]) -> Result<usize, ErrorKind> {
    match File::open(rt, path) {
        Ok(mut file) => Ok(reply::take(&mut file, buffer).size),
        Err(e) => Err(e.kind()),
    }
}

// Reads a file, by its name, or by a link where that is no text.
fn read_file(
    rt: &HostRuntime,
    name: &[u8],
    link: &str,
    buffer: &mut [u8],
) -> Result<usize, ErrorKind> {
    match str::from_utf8(name) {
        Ok(path) => read_path(rt, path, buffer),
        Err(_) => read_path(rt, link, buffer),
    }
}

// One letter of a name.
fn put_letter(name: &mut [u8], i: usize, letter: u8) {
    if name.len() <= i {
        return;
    }
    name[i] = letter;
}

// Whether a name of n bytes ends in .site, and so has a plan beside it.
fn has_plan_name(name: &[u8], n: usize) -> bool {
    if n < 5 {
        return false;
    }
    lines::eat_text(name, n - 5, b".site") == n
}

// Makes the name of a site file that of the plan file beside it, in its place.
fn make_plan_name(name: &mut [u8], n: usize) {
    if n < 5 {
        return;
    }
    put_letter(name, n - 4, b'p');
    put_letter(name, n - 3, b'l');
    put_letter(name, n - 2, b'a');
    put_letter(name, n - 1, b'n');
}

// The sheet's line, where there is one; whether it was written.
fn put_sheet(rt: &HostRuntime, text: &[u8], to: usize) -> bool {
    if to <= SHEET {
        return true;
    }
    if text.len() < to {
        return false;
    }
    reply::third_result(rt, &text[SHEET..to], to - SHEET)
}

// A line, that of the sheet, and the mark in the tally; whether all were written.
fn put_line(rt: &HostRuntime, text: &[u8], end: usize, to: usize, mark: u8) -> bool {
    if !reply::result(rt, text, end) {
        return false;
    }
    if !put_sheet(rt, text, to) {
        return false;
    }
    reply::second_result(rt, &[mark], 1)
}

// A line that ends with what is said of a plan: the sheet's line ends so too.
fn put_planned(
    rt: &HostRuntime,
    text: &mut [u8],
    end: usize,
    to: usize,
    plan: Option<PlanTold>,
    mark: u8,
) -> bool
    requires { 65536 ≤ length text.old }
{
    if to <= SHEET {
        return put_line(rt, text, end, to, mark);
    }
    let last = say_csv::put_plan_fields(text, sheet_place(to), plan);
    put_line(rt, text, end, last, mark)
}

// The plan file beside a site.
fn audit_plan(
    rt: &HostRuntime,
    site: Site,
    found: Result<Way, FindError>,
    second: &[u8],
    at: usize,
    to: usize,
    old: &mut [u8],
    text: &mut [u8],
) -> bool
    requires in_bounds { 65536 ≤ length text.old }
    requires at_bound { at ≤ 8192 }
{
    let plan = planfile::read_plan(second, old);
    let answer = plan.answer;
    let Ok(()) = answer else {
        let end = say_audit::put_plan_refused(text, at, answer);
        let mark = say_tally::mark_of(found, Some(PlanSaid::Refused));
        return put_planned(rt, text, end, to, Some(PlanTold::Refused(answer)), mark);
    };
    if !same_size(site, plan) {
        let end = say_audit::put_other_size(
            text,
            at,
            plan.cells as usize,
            plan.slots as usize,
            plan.channels as usize,
        );
        let mark = say_tally::mark_of(found, Some(PlanSaid::Refused));
        return put_planned(rt, text, end, to, Some(PlanTold::OtherSize), mark);
    }
    let verdict = checker::check(site, old);
    let unseen = oneway::unseen(site, old);
    let mended = mender::mend_only(site, old);
    let end = say_audit::put_checked(text, at, site, verdict, mended, unseen);
    let said = say_tally::verdict_said(verdict, unseen);
    let mark = say_tally::mark_of(found, Some(said));
    put_planned(
        rt,
        text,
        end,
        to,
        Some(PlanTold::Checked(verdict, mended, unseen)),
        mark,
    )
}

// The plan file beside a site, as much of it as was read.
fn audit_read(
    rt: &HostRuntime,
    site: Site,
    found: Result<Way, FindError>,
    size: usize,
    second: &[u8],
    at: usize,
    to: usize,
    old: &mut [u8],
    text: &mut [u8],
) -> bool
    requires { 65536 ≤ length text.old }
{
    let m = reply::within_buffer(size, second);
    audit_plan(rt, site, found, &second[..m], place(at), to, old, text)
}

// A site with no plan file beside it, or with one that can't be read.
fn audit_alone(
    rt: &HostRuntime,
    found: Result<Way, FindError>,
    absent: bool,
    at: usize,
    to: usize,
    text: &mut [u8],
) -> bool
    requires { 65536 ≤ length text.old }
{
    if absent {
        let end = say_audit::put_line_end(text, place(at));
        let mark = say_tally::mark_of(found, None);
        return put_planned(rt, text, end, to, None, mark);
    }
    let end = say_audit::put_unread_plan(text, place(at));
    let mark = say_tally::mark_of(found, Some(PlanSaid::Refused));
    put_planned(rt, text, end, to, Some(PlanTold::Unread), mark)
}

// What the sheet says of a site before its plan, where it is asked for; the place after it.
fn put_fields(
    site: Site,
    form: Form,
    found: Result<Way, FindError>,
    takes: Extent,
    open: usize,
    to: usize,
    text: &mut [u8],
) -> usize
    requires { 65536 ≤ length text.old }
{
    if to <= SHEET {
        return to;
    }
    say_csv::put_site(text, sheet_place(to), site, form, found, takes, open)
}

// What is said of a site before its plan, in both lines; the places after it.
fn put_site(
    site: Site,
    found: Result<Way, FindError>,
    at: usize,
    to: usize,
    text: &mut [u8],
) -> Places
    requires { 65536 ≤ length text.old }
{
    let form = auditing::form_of(site);
    let takes = auditing::takes_of(site, form, found);
    let open = auditing::open_here(site);
    let next = say_audit::put_audited(text, place(at), site, form, found, takes, open);
    let to = put_fields(site, form, found, takes, open, to, text);
    Places { next, to }
}

// A site that was read: its line, and the plan, where there is one.
fn audit_site(
    rt: &HostRuntime,
    site: Site,
    found: Result<Way, FindError>,
    name: &[u8],
    n: usize,
    at: usize,
    to: usize,
    text: &mut [u8],
) -> bool
    requires { 65536 ≤ length text.old }
{
    let places = put_site(site, found, at, to, text);
    let next = places.next;
    let to = places.to;
    let n = reply::within_buffer(n, name);
    let mut second = [0u8; 65536];
    let size = match read_file(rt, &name[..n], PLAN_LINK, &mut second) {
        Ok(size) => size,
        Err(why) => return audit_alone(rt, found, why == ErrorKind::NotFound, next, to, text),
    };
    let mut old = [0u8; 65536];
    audit_read(rt, site, found, size, &second, next, to, &mut old, text)
}

// A site, by the name of its file: what is found for it, and its line.
fn audit_found(
    rt: &HostRuntime,
    site: Site,
    tries: u64,
    name: &mut [u8],
    n: usize,
    at: usize,
    to: usize,
    text: &mut [u8],
) -> bool
    requires { 65536 ≤ length text.old }
{
    let mut table = [0u8; 65536];
    let found = finder::find(site, tries, &mut table);
    if !has_plan_name(name, n) {
        let places = put_site(site, found, at, to, text);
        return audit_alone(rt, found, true, places.next, places.to, text);
    }
    make_plan_name(name, n);
    audit_site(rt, site, found, name, n, at, to, text)
}

// The line of a site file that is refused: the sheet's line ends so too.
fn put_refusal(
    rt: &HostRuntime,
    text: &mut [u8],
    end: usize,
    to: usize,
    answer: Result<(), Refusal>,
) -> bool
    requires { 65536 ≤ length text.old }
{
    if to <= SHEET {
        return put_line(rt, text, end, to, say_tally::refused_mark());
    }
    let last = say_csv::put_refused_fields(text, sheet_place(to), answer);
    put_line(rt, text, end, last, say_tally::refused_mark())
}

// The line of a site file that can't be read.
fn put_unread(rt: &HostRuntime, text: &mut [u8], at: usize, to: usize) -> bool
    requires { 65536 ≤ length text.old }
{
    let end = say_audit::put_unread(text, place(at));
    if to <= SHEET {
        return put_line(rt, text, end, to, say_tally::refused_mark());
    }
    let last = say_csv::put_unread_fields(text, sheet_place(to));
    put_line(rt, text, end, last, say_tally::refused_mark())
}

// A site file as it was read: refused, or its line.
fn audit_bytes(
    rt: &HostRuntime,
    bytes: &[u8],
    size: usize,
    tries: u64,
    name: &mut [u8],
    n: usize,
    at: usize,
    to: usize,
    text: &mut [u8],
) -> bool
    requires { 65536 ≤ length text.old }
{
    let m = reply::within_buffer(size, bytes);
    let read = sitefile::read_site(&bytes[..m]);
    let answer = read.answer;
    let site = read.site;
    let Ok(()) = answer else {
        let end = say_audit::put_site_refused(text, place(at), answer);
        return put_refusal(rt, text, end, to, answer);
    };
    audit_found(rt, site, tries, name, n, at, to, text)
}

// A file by its name: its line, to the end. Whether it was written.
fn audit_named(
    rt: &HostRuntime,
    name: &mut [u8],
    n: usize,
    tries: u64,
    at: usize,
    to: usize,
    text: &mut [u8],
) -> bool
    requires { 65536 ≤ length text.old }
{
    let m = reply::within_buffer(n, name);
    let mut input = [0u8; 65536];
    let Ok(size) = read_file(rt, &name[..m], SITE_LINK, &mut input) else {
        return put_unread(rt, text, at, to);
    };
    audit_bytes(rt, &input, size, tries, name, n, at, to, text)
}

// The file that argument i names, without a sheet.
fn audit_file(rt: &HostRuntime, i: usize, tries: u64) -> bool {
    let mut name = [0u8; 4096];
    let n = arguments::put(rt, i, &mut name);
    let mut text = [0u8; 65536];
    let at = say_audit::put_shown(&mut text, 0, &name[..n]);
    audit_named(rt, &mut name, n, tries, at, SHEET, &mut text)
}

// The file that argument i names, with a line of the sheet.
fn audit_listed(rt: &HostRuntime, i: usize, tries: u64) -> bool {
    let mut name = [0u8; 4096];
    let n = arguments::put(rt, i, &mut name);
    let mut text = [0u8; 65536];
    let at = say_audit::put_shown(&mut text, 0, &name[..n]);
    let to = quoting::put_name(&mut text, SHEET, &name[..n]);
    audit_named(rt, &mut name, n, tries, at, to, &mut text)
}

// The file that argument i names; with a line of the sheet where it is asked for.
fn audit_one(rt: &HostRuntime, i: usize, tries: u64, asked: u16) -> bool {
    if asked == 1 {
        return audit_listed(rt, i, tries);
    }
    audit_file(rt, i, tries)
}

// Every file that is named. Where a line can't be written it stops: the tally is short then, and the script says so.
pub fn run_audit(rt: &HostRuntime) {
    let limit = tries(rt);
    let asked = number(rt, ASKED);
    let end = arguments::count(rt);
    for i in NAMES..end {
        if !audit_one(rt, i, limit, asked) {
            return;
        }
    }
}

// The last lines, by the tally of all files.
pub fn run_counts(rt: &HostRuntime, tally: &[u8], text: &mut [u8])
    requires in_bounds { 65536 ≤ length text.old }
    requires tally_len_bound { length tally.now ≤ 65536 }
{
    let end = say_tally::put_totals(text, 0, tally);
    if !reply::result(rt, text, end) {
        reply::unwritten(rt);
        return;
    }
    if say_tally::all_well(tally) {
        reply::fine(rt);
        return;
    }
    no(rt, text, 0);
}

// The first line of the sheet.
pub fn run_heading(rt: &HostRuntime, text: &mut [u8])
    requires { 65536 ≤ length text.old }
{
    let end = say_csv::put_first(text, 0);
    reply::yes(rt, text, end);
}
