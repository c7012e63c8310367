// The commands of the desk on a plan: make one, search for one, check, mend, change one load in it. What is said and written is made by proved
// functions over slices; here it is only written, by way of `reply`.
ghost use Rattle.std.specs.Prelude.{◌≤◌, length};

use arguments::{NUMBERS, number, tries};
use changelines::put_all_changes;
use infiles::{give_plan, read_pair, site_of};
use reply::{no, yes};
use search::SearchError;
use site::Site;

// After the tries of a search, whether to show how far it is.
const SHOWN: usize = 5;

// Plans a site: the plan file, and a line that says what was planned.
pub fn run_plan(rt: &HostRuntime, input: &[u8], table: &mut [u8], out: &mut [u8], text: &mut [u8])
    requires { 65536 ≤ length text.old }
{
    let Some(site) = site_of(rt, input, text) else {
        return;
    };
    let planned = planner::plan(site, table);
    let end = say_verdicts::put_plan(text, 0, site, planned);
    let Ok(()) = planned else {
        no(rt, text, end);
        return;
    };
    if !give_plan(rt, site, table, out) {
        reply::unwritten(rt);
        return;
    }
    reply::message(rt, text, end);
    reply::fine(rt);
}

// Checks a plan file: valid, or the first thing wrong.
pub fn run_check(rt: &HostRuntime, input: &[u8], second: &[u8], table: &mut [u8], text: &mut [u8])
    requires { 65536 ≤ length text.old }
{
    let Ok(site) = read_pair(rt, input, second, table, text) else {
        return;
    };
    let verdict = checker::check(site, table);
    let end = say_verdicts::put_check(text, 0, site, verdict);
    let Ok(()) = verdict else {
        no(rt, text, end);
        return;
    };
    yes(rt, text, end);
}

// A mended plan: the plan file, the text so far, and each change. The changes are a part of the result: where they can't be written it is none.
fn put_mended(
    rt: &HostRuntime,
    site: Site,
    old: &[u8],
    table: &[u8],
    out: &mut [u8],
    text: &mut [u8],
    end: usize,
)
    requires { 65536 ≤ length text.old }
{
    if !give_plan(rt, site, table, out) {
        reply::unwritten(rt);
        return;
    }
    if !reply::message(rt, text, end) {
        reply::unwritten(rt);
        return;
    }
    if !put_all_changes(rt, old, table, text, site, false) {
        reply::unwritten(rt);
        return;
    }
    reply::fine(rt);
}

// Mends a plan. It is read twice: one table is mended, and the other keeps what it was.
pub fn run_mend(
    rt: &HostRuntime,
    input: &[u8],
    second: &[u8],
    old: &mut [u8],
    table: &mut [u8],
    out: &mut [u8],
    text: &mut [u8],
)
    requires { 65536 ≤ length text.old }
{
    let Ok(site) = read_pair(rt, input, second, old, text) else {
        return;
    };
    planfile::read_plan(second, table);
    let mended = mender::mend_only(site, table);
    let end = say_verdicts::put_mend(text, 0, mended);
    let Ok(_) = mended else {
        no(rt, text, end);
        return;
    };
    put_mended(rt, site, old, table, out, text, end);
}

// Whether a plan file is the site's own plan. It has no forbidden marks, so the planner makes the table, with its marks, and the plan file of that has the same
// bytes.
fn own_plan(site: Site, second: &[u8], table: &mut [u8], out: &mut [u8]) -> bool {
    let Ok(()) = planner::plan(site, table) else {
        return false;
    };
    let Ok(size) = planfile::write_plan(site, table, out) else {
        return false;
    };
    if size != second.len() {
        return false;
    }
    lines::eat_text(out, 0, second) == size
}

// A site and its plan, each as a result of its own.
fn put_both(rt: &HostRuntime, site: Site, table: &[u8], out: &mut [u8]) -> bool {
    let Ok(size) = sitefile::write_site(site, out) else {
        return false;
    };
    if !reply::result(rt, out, size) {
        return false;
    }
    let Ok(length) = planfile::write_plan(site, table, out) else {
        return false;
    };
    reply::second_result(rt, out, length)
}

// The load of a cell changed in a site and in its table: both files, and a line that says what is planned now.
fn change(
    rt: &HostRuntime,
    site: Site,
    cell: u16,
    load: u16,
    table: &mut [u8],
    out: &mut [u8],
    text: &mut [u8],
)
    requires { 65536 ≤ length text.old }
{
    let changed = handheld::changed_load(site, cell as usize, load, table);
    let answer = changed.answer;
    let new = changed.site;
    let end = say_handheld::put_change(text, 0, cell as usize, load as usize, answer);
    let Ok(()) = answer else {
        no(rt, text, end);
        return;
    };
    if !put_both(rt, new, table, out) {
        reply::unwritten(rt);
        return;
    }
    reply::message(rt, text, end);
    reply::fine(rt);
}

// Changes one load of a site and of its plan. A plan that is not the site's own is taken as it was read, and is refused.
pub fn run_load(
    rt: &HostRuntime,
    input: &[u8],
    second: &[u8],
    read: &mut [u8],
    table: &mut [u8],
    out: &mut [u8],
    text: &mut [u8],
)
    requires { 65536 ≤ length text.old }
{
    let Ok(site) = read_pair(rt, input, second, read, text) else {
        return;
    };
    let cell = number(rt, NUMBERS);
    let load = number(rt, NUMBERS + 1);
    if own_plan(site, second, table, out) {
        change(rt, site, cell, load, table, out, text);
        return;
    }
    change(rt, site, cell, load, read, out, text);
}

// A search, which is shown while it runs, or not.
fn sought(
    rt: &HostRuntime,
    site: Site,
    table: &mut [u8],
    text: &mut [u8],
) -> Result<u64, SearchError>
    requires { 65536 ≤ length text.old }
{
    let limit = tries(rt);
    if number(rt, SHOWN) == 1 {
        return crate::searching::search_shown(rt, site, limit, table, text);
    }
    search::search(site, limit, table)
}

// Searches for a plan of a site: the plan file, and a line that says how the search ended.
pub fn run_search(rt: &HostRuntime, input: &[u8], table: &mut [u8], out: &mut [u8], text: &mut [u8])
    requires { 65536 ≤ length text.old }
{
    let Some(site) = site_of(rt, input, text) else {
        return;
    };
    let found = sought(rt, site, table, text);
    let end = say_search::put_search(text, 0, found);
    let Ok(_) = found else {
        no(rt, text, end);
        return;
    };
    if !give_plan(rt, site, table, out) {
        reply::unwritten(rt);
        return;
    }
    reply::message(rt, text, end);
    reply::fine(rt);
}
