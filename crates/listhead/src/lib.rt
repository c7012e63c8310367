// The head of a site file's listing, written into a lent buffer, and the plan of an accepted site, in a lent table: the lines of the cells are read from it.
#![tactic(auto)]

ghost use Rattle.std.specs.Prelude.{◌≡◌, ◌≤◌, length, Ok};
ghost use Rattle.std.proofs.lemmas.List.Edits.{sets};
ghost use Rattle.site.specs.Record.{fault_of};
ghost use Rattle.planner.specs.Plan.{plan_table};
ghost use Rattle.listhead.specs.Listing.{head_lines};
ghost use Rattle.listhead.specs.Parts.{file_head, file_table, site_rest, file_rest, RestFits};

use listing::{put_answers, row_count};
use phrases::Phrase;
use say_listing::{REFUSED, put_line};
use site::Site;

// What follows the head: where the head ends, how many cell lines there are, and the positions and channels of a row.
#[derive(Clone, Copy)]
pub struct Rest {
    pub end: usize,
    pub rows: usize,
    pub width: usize,
    pub channels: usize,
}

// The head of a site that was read, and its plan in the lent table.
fn site_head(out: &mut [u8], site: Site, table: &mut [u8]) -> Rest
    requires site_value { fault_of site ≡ Ok tt }
    requires in_bounds { (800 ≤ length out.old) × (65536 ≤ length table.old) }
    ensures stored { out.new ≡ sets out.old 0 (head_lines site) }
    ensures table { table.new ≡ plan_table site table.old }
    ensures rest { result ≡ site_rest site }
    ensures fits { RestFits result }
{
    let cells = site.cells as usize;
    let slots = site.slots as usize;
    let channels = site.channels as usize;
    let width = slots * channels;
    let answer = planner::plan(site, table);
    let end = put_answers(out, site, answer);
    let rows = row_count(answer, cells);
    Rest {
        end,
        rows,
        width,
        channels,
    }
}

// The head of a file's listing. An accepted site is planned in the lent table.
pub fn listed_head(out: &mut [u8], file: &[u8], table: &mut [u8]) -> Rest
    requires { (800 ≤ length out.old) × (65536 ≤ length table.old) }
    ensures stored { out.new ≡ sets out.old 0 (file_head file.now) }
    ensures table { table.new ≡ file_table file.now table.old }
    ensures rest { result ≡ file_rest file.now }
    ensures fits { RestFits result }
{
    let read = sitefile::read_site(file);
    let answer = read.answer;
    let site = read.site;
    match answer {
        Err(refusal) => {
            let end = put_line(
                out,
                0,
                Phrase::Row(REFUSED, refusal.number as usize, refusal.place, 0, 0),
            );
            Rest {
                end,
                rows: 0,
                width: 0,
                channels: 0,
            }
        }
        Ok(()) => site_head(out, site, table),
    }
}
