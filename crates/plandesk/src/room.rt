// The command of the desk that says how much more each cell could carry, and how many slots would do.
ghost use Rattle.std.specs.Prelude.{◌≤◌, length};

use crate::find::found;
use finder::{FindError, Way};
use infiles::site_of;
use site::Site;

// The first line, where no plan is found; whether all of it was written.
fn put_word(rt: &HostRuntime, reply: Result<Way, FindError>, text: &mut [u8]) -> bool
    requires { 65536 ≤ length text.old }
{
    if say_find::status(reply) == 0 {
        return true;
    }
    let word = say_find::put_last(text, 0, reply);
    let end = say_room::put_word_end(text, word, reply);
    reply::result(rt, text, end)
}

// The line of each cell, where a plan is found; whether all of it was written.
fn put_rooms(rt: &HostRuntime, site: Site, reply: Result<Way, FindError>, text: &mut [u8]) -> bool
    requires { 65536 ≤ length text.old }
{
    for i in 0..32 {
        let end = say_room::put_room(text, 0, site, i, reply);
        if !reply::result(rt, text, end) {
            return false;
        }
    }
    true
}

// How much more each cell of a site could carry, with all else as it is; and how many slots would do.
pub fn run_room(rt: &HostRuntime, input: &[u8], table: &mut [u8], text: &mut [u8])
    requires { 65536 ≤ length text.old }
{
    let Some(site) = site_of(rt, input, text) else {
        return;
    };
    let reply = found(rt, site, table);
    if !put_word(rt, reply, text) {
        reply::unwritten(rt);
        return;
    }
    if !put_rooms(rt, site, reply, text) {
        reply::unwritten(rt);
        return;
    }
    let end = say_room::put_size(text, 0, site, reply);
    if !reply::result(rt, text, end) {
        reply::unwritten(rt);
        return;
    }
    reply::fine(rt);
}
