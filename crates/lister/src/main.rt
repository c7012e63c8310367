// The lister: reads a site file on standard input, the first 4,096 bytes, and prints document 01's listing. `listed_head` makes the first lines and plans
// the site, and `row_line` the line of a planned cell; what stands here only reads and writes. A file that is refused is listed as refused, and then
// said in English, after its name, which is argument 1.
#![tactic(auto)]

ghost use Rattle.std.specs.Prelude.{◌*◌, ◌≤◌, ◌<◌, length};

use inputs::Input;
use listhead::listed_head;
use listing::row_line;
use say_refusals::Place;

// Prints the cell lines, one after the other; whether all of them were written.
fn print_rows(
    rt: &HostRuntime,
    out: &mut [u8],
    table: &[u8],
    rows: usize,
    width: usize,
    channels: usize,
) -> bool
    requires rows_bound { (rows ≤ 32) × (width ≤ 2048) × (rows * width ≤ length table.now) × (0 < rows → 0 < channels) }
    requires in_bounds { 24576 ≤ length out.old }
{
    for i in 0..rows {
        let end = row_line(out, table, width, channels, i);
        if !reply::result(rt, out, end) {
            return false;
        }
    }
    true
}

// The status of a listing that is written: a file that is refused is a no, with its text.
fn tell(rt: &HostRuntime, out: &mut [u8], file: &[u8])
    requires { 65536 ≤ length out.old }
{
    let read = sitefile::read_site(file);
    let Err(refusal) = read.answer else {
        reply::fine(rt);
        return;
    };
    reply::named(rt, 1, file, Input::SiteFile);
    let end = say_refusals::put_refused(
        out,
        0,
        refusal.number as usize,
        Some(Place::Byte(refusal.place)),
    );
    reply::no(rt, out, end);
}

// Reads at most 4,096 bytes from standard input, and prints their listing.
fn main(rt: HostRuntime) {
    let mut input = [0u8; 4096];
    let n = reply::take_standard(&rt, &mut input).size;
    let mut table = [0u8; 65536];
    let mut out = [0u8; 65536];
    let rest = listed_head(&mut out, &input[..n], &mut table);
    let first = reply::result(&rt, &out, rest.end);
    let all = print_rows(&rt, &mut out, &table, rest.rows, rest.width, rest.channels);
    if first & all {
        tell(&rt, &mut out, &input[..n]);
        return;
    }
    reply::unwritten(&rt);
}
