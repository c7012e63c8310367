// The commands of the desk that number the cells of a site anew, and carry a plan of that site back.
ghost use Rattle.std.specs.Prelude.{◌≤◌, length};

use infiles::{give_plan, read_pair, site_of};
use reply::no;
use site::Site;

// A site in new numbers: the site file, and the text, a line for each cell. The lines are a part of the result: where they can't be written it is none.
fn put_renumbered(rt: &HostRuntime, site: Site, out: &mut [u8], text: &[u8], end: usize) {
    let Ok(size) = sitefile::write_site(site, out) else {
        reply::unwritten(rt);
        return;
    };
    if !reply::result(rt, out, size) {
        reply::unwritten(rt);
        return;
    }
    if !reply::message(rt, text, end) {
        reply::unwritten(rt);
        return;
    }
    reply::fine(rt);
}

// Numbers the cells of a site anew.
pub fn run_renumber(rt: &HostRuntime, input: &[u8], out: &mut [u8], text: &mut [u8])
    requires { 65536 ≤ length text.old }
{
    let Some(site) = site_of(rt, input, text) else {
        return;
    };
    let renumbered = numbering::renumber(site);
    let found = renumbered.answer;
    let new = renumbered.new;
    let moved = renumbered.site;
    let end = say_numbering::put_renumber(text, 0, new, found);
    let Ok(()) = found else {
        no(rt, text, end);
        return;
    };
    put_renumbered(rt, moved, out, text, end);
}

// Carries a plan of the renumbered site back into the old numbers.
pub fn run_carry(
    rt: &HostRuntime,
    input: &[u8],
    second: &[u8],
    from: &mut [u8],
    table: &mut [u8],
    out: &mut [u8],
    text: &mut [u8],
)
    requires { 65536 ≤ length text.old }
{
    let Ok(site) = read_pair(rt, input, second, from, text) else {
        return;
    };
    let carried = numbering::carry(site, from, table);
    let end = say_numbering::put_carry(text, 0, carried);
    let Ok(()) = carried else {
        no(rt, text, end);
        return;
    };
    if !give_plan(rt, site, table, out) {
        reply::unwritten(rt);
        return;
    }
    reply::fine(rt);
}
