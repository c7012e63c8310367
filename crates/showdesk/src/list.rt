// The desk's commands that list: every clash of a site, every fault of a plan, the changes from one plan to another. What is said is made by proved functions,
// piece by piece; here it is only written, by way of `reply`.
ghost use Rattle.std.specs.Prelude.{◌≡◌, true, ◌≤◌, ◌<◌, length};
ghost use Rattle.laws.specs.Bits.{bit_in};
ghost use Rattle.site.specs.Record.{positions};
ghost use Rattle.site.specs.Reach.{clash_of};
ghost use Rattle.say_faults.specs.Said.{judgeable};

use arguments::THIRD_NAME;
use changelines::put_all_changes;
use infiles::{read_pair, read_plan_of, site_of};
use reply::{no, result, yes};
use say_faults::Piece;
use site::Site;

// The lines of the clashes of a site, by first cell; whether they were written.
fn put_all_clashes(rt: &HostRuntime, site: Site, text: &mut [u8]) -> bool
    requires { 65536 ≤ length text.old }
{
    for a in 0..32 {
        let end = say_clashes::put_clashes(text, 0, site, a);
        if !result(rt, text, end) {
            return false;
        }
    }
    true
}

// Every clash of a site, and how many they are.
pub fn run_clashes(rt: &HostRuntime, input: &[u8], text: &mut [u8])
    requires { 65536 ≤ length text.old }
{
    let Some(site) = site_of(rt, input, text) else {
        return;
    };
    if !put_all_clashes(rt, site, text) {
        reply::unwritten(rt);
        return;
    }
    let end = say_clashes::put_clash_count(text, 0, site);
    yes(rt, text, end);
}

// The faults of blocked positions, by position; whether they were written.
fn put_blocked_faults(
    rt: &HostRuntime,
    site: Site,
    table: &[u8],
    clash: [u32; 32],
    text: &mut [u8],
) -> bool
    requires { (65536 ≤ length text.old) × (judgeable site table.now ≡ true) × (bit_in clash ≡ clash_of site) }
{
    let n = (site.slots as usize) * (site.channels as usize);
    for k in 0..n {
        let end = say_faults::put_piece(text, 0, site, table, clash, Piece::AtBlocked(k));
        if !result(rt, text, end) {
            return false;
        }
    }
    true
}

// The clashes at one position, by first cell; whether they were written.
fn put_clashes_at(
    rt: &HostRuntime,
    site: Site,
    table: &[u8],
    clash: [u32; 32],
    k: usize,
    text: &mut [u8],
) -> bool
    requires { (65536 ≤ length text.old) × (judgeable site table.now ≡ true) × (bit_in clash ≡ clash_of site) × (k < positions site) }
{
    let cells = site.cells as usize;
    for a in 0..cells {
        let end = say_faults::put_piece(text, 0, site, table, clash, Piece::Clashing(k, a));
        if !result(rt, text, end) {
            return false;
        }
    }
    true
}

// The clashes, by position; whether they were written.
fn put_clash_faults(
    rt: &HostRuntime,
    site: Site,
    table: &[u8],
    clash: [u32; 32],
    text: &mut [u8],
) -> bool
    requires { (65536 ≤ length text.old) × (judgeable site table.now ≡ true) × (bit_in clash ≡ clash_of site) }
{
    let n = (site.slots as usize) * (site.channels as usize);
    for k in 0..n {
        if !put_clashes_at(rt, site, table, clash, k, text) {
            return false;
        }
    }
    true
}

// The wrong counts, and how many faults there are; whether they were written.
fn put_last(rt: &HostRuntime, site: Site, table: &[u8], clash: [u32; 32], text: &mut [u8]) -> bool
    requires { (65536 ≤ length text.old) × (judgeable site table.now ≡ true) × (bit_in clash ≡ clash_of site) }
{
    let end = say_faults::put_piece(text, 0, site, table, clash, Piece::Miscounts);
    if !result(rt, text, end) {
        return false;
    }
    let end = say_faults::put_things(text, 0, site, table, clash);
    result(rt, text, end)
}

// Every fault of a table, and how many they are; whether they were written.
fn put_faults(rt: &HostRuntime, site: Site, table: &[u8], text: &mut [u8]) -> bool
    requires { 65536 ≤ length text.old }
{
    if !say_faults::can_judge(site, table) {
        return false;
    }
    let clash = site.clash_rows();
    if !put_blocked_faults(rt, site, table, clash, text) {
        return false;
    }
    if !put_clash_faults(rt, site, table, clash, text) {
        return false;
    }
    put_last(rt, site, table, clash, text)
}

// Checks a plan file: valid, or everything that is wrong.
pub fn run_check_all(
    rt: &HostRuntime,
    input: &[u8],
    second: &[u8],
    table: &mut [u8],
    text: &mut [u8],
)
    requires { 65536 ≤ length text.old }
{
    let Ok(site) = read_pair(rt, input, second, table, text) else {
        return;
    };
    let verdict = checker::check(site, table);
    let end = say_verdicts::put_check(text, 0, site, verdict);
    if verdict.is_ok() {
        yes(rt, text, end);
        return;
    }
    if !put_faults(rt, site, table, text) {
        reply::unwritten(rt);
        return;
    }
    no(rt, text, 0);
}

// How many changes lead from one table to another, and each of them; whether they were written.
fn put_diff(rt: &HostRuntime, site: Site, old: &[u8], new: &[u8], text: &mut [u8]) -> bool
    requires { 65536 ≤ length text.old }
{
    let end = say_diff::put_change_count(text, 0, site, old, new);
    if !result(rt, text, end) {
        return false;
    }
    put_all_changes(rt, old, new, text, site, true)
}

// The changes from one plan to another.
pub fn run_diff(
    rt: &HostRuntime,
    input: &[u8],
    second: &[u8],
    third: &[u8],
    old: &mut [u8],
    new: &mut [u8],
    text: &mut [u8],
)
    requires { 65536 ≤ length text.old }
{
    let Ok(site) = read_pair(rt, input, second, old, text) else {
        return;
    };
    if !read_plan_of(rt, site, THIRD_NAME, third, new, text) {
        return;
    }
    if !put_diff(rt, site, old, new, text) {
        reply::unwritten(rt);
        return;
    }
    reply::fine(rt);
}
