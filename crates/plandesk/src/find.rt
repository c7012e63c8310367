// The commands of the desk that look for a plan by every proved way: find, and why, whose last word is what find says.
ghost use Rattle.std.specs.Prelude.{◌≤◌, length};

use arguments::{NUMBERS, tries};
use finder::{FindError, Way};
use infiles::{give_plan, site_of};
use site::Site;

// The status of an answer, after its words.
fn put_status(rt: &HostRuntime, status: u8) {
    if status == 0 {
        reply::fine(rt);
        return;
    }
    if status == 3 {
        reply::unknown(rt);
        return;
    }
    reply::no(rt, b"", 0);
}

// The rule of a site, and each clash that a third cell makes, by first cell; whether all of it was written.
fn put_air(rt: &HostRuntime, site: Site, text: &mut [u8]) -> bool
    requires { 65536 ≤ length text.old }
{
    let end = say_rule::put_rule(text, 0, site);
    if !reply::result(rt, text, end) {
        return false;
    }
    for a in 0..32 {
        let end = say_rule::put_thirds(text, 0, site, a);
        if !reply::result(rt, text, end) {
            return false;
        }
    }
    true
}

// What is found for a site: with the tries that are asked for, or with those of `why`.
pub fn found(rt: &HostRuntime, site: Site, table: &mut [u8]) -> Result<Way, FindError> {
    if arguments::count(rt) <= NUMBERS {
        return say_find::find_why(site, table);
    }
    finder::find(site, tries(rt), table)
}

// A plan of a site by any proved way, and a line that says by which; or why there is none, or that it is not known.
pub fn run_find(rt: &HostRuntime, input: &[u8], table: &mut [u8], out: &mut [u8], text: &mut [u8])
    requires { 65536 ≤ length text.old }
{
    let Some(site) = site_of(rt, input, text) else {
        return;
    };
    let reply = found(rt, site, table);
    let end = say_find::put_find(text, 0, site, reply);
    let status = say_find::status(reply);
    if status != 0 {
        reply::message(rt, text, end);
        put_status(rt, status);
        return;
    }
    if !give_plan(rt, site, table, out) {
        reply::unwritten(rt);
        return;
    }
    reply::message(rt, text, end);
    reply::fine(rt);
}

// The verdicts on a site, in English, that it has no numbering where it has none, its rule, and the last word.
pub fn run_why(rt: &HostRuntime, input: &[u8], table: &mut [u8], text: &mut [u8])
    requires in_bounds { 65536 ≤ length table.old }
    requires in_bounds_2 { 65536 ≤ length text.old }
{
    let Some(site) = site_of(rt, input, text) else {
        return;
    };
    let end = say_why::put_why(site, table, text);
    let end = say_numbering::put_anew(text, end, site);
    if !reply::result(rt, text, end) {
        reply::unwritten(rt);
        return;
    }
    if !put_air(rt, site, text) {
        reply::unwritten(rt);
        return;
    }
    let found = say_find::find_why(site, table);
    let end = say_find::put_last_line(text, 0, found);
    if !reply::result(rt, text, end) {
        reply::unwritten(rt);
        return;
    }
    put_status(rt, say_find::status(found));
}
