// The files that a command is given: a site file and a plan file that goes with it, and what is said where one is refused; and the plan file that it writes.
#![tactic(auto)]

ghost use Rattle.std.specs.Prelude.{◌≡◌, ◌≤◌, length};
ghost use Rattle.planfile.specs.Read.{plan_table_read};
ghost use Rattle.sitefile.specs.Read.{read_site};
ghost use Rattle.infiles.specs.Pair.{same_size, goes_with, site_given, pair_table, pair_site};

use arguments::{FIRST_NAME, SECOND_NAME};
use inputs::Input;
use planfile::PlanRead;
use records::Refusal;
use reply::no;
use site::Site;
use std::fs::File;
use verdicts::File as Kind;

// The descriptors of the inputs, by their names. The first is standard input where its own is not open; where it is, another may be standard input.
pub const FIRST: &str = "/dev/fd/8";

pub const SECOND: &str = "/dev/fd/4";

pub const THIRD: &str = "/dev/fd/6";

// How many bytes of an input were read, whether it ended there, and whether it has a descriptor of its own.
#[derive(Clone, Copy)]
pub struct InputRead {
    pub size: usize,
    pub ended: bool,
    pub own: bool,
}

// Reads an input by the name of its descriptor. One that is not open is standard input, if that is no other input's, and else none.
pub fn read_input(rt: &HostRuntime, name: &str, standard: bool, buffer: &mut [u8]) -> InputRead
    ensures { result.size ≤ length buffer.new }
{
    match File::open(rt, name) {
        Ok(mut file) => {
            let taken = reply::take(&mut file, buffer);
            InputRead {
                size: taken.size,
                ended: taken.ended,
                own: true,
            }
        }
        Err(_) => {
            if !standard {
                return InputRead {
                    size: 0,
                    ended: false,
                    own: false,
                };
            }
            let taken = reply::take_standard(rt, buffer);
            InputRead {
                size: taken.size,
                ended: taken.ended,
                own: false,
            }
        }
    }
}

// A site file that was refused.
pub fn refuse(rt: &HostRuntime, text: &mut [u8], input: &[u8], answer: Result<(), Refusal>)
    requires { 65536 ≤ length text.old }
{
    reply::named(rt, FIRST_NAME, input, Input::SiteFile);
    let end = say_verdicts::put_read(text, 0, Kind::SiteFile, answer);
    no(rt, text, end);
}

// The site of a site file. Where it is refused there is none, and the text is said.
pub fn site_of(rt: &HostRuntime, input: &[u8], text: &mut [u8]) -> Option<Site>
    requires { 65536 ≤ length text.old }
    ensures { result ≡ site_given input.now }
{
    let read = sitefile::read_site(input);
    let Ok(()) = read.answer else {
        refuse(rt, text, input, read.answer);
        return None;
    };
    Some(read.site)
}

// A table as a plan file; whether it was written.
pub fn give_plan(rt: &HostRuntime, site: Site, table: &[u8], out: &mut [u8]) -> bool {
    let written = planfile::write_plan(site, table, out);
    let Ok(size) = written else {
        return false;
    };
    reply::result(rt, out, size)
}

// Whether a plan is of the site's size.
pub fn same_size(site: Site, plan: PlanRead) -> bool
    ensures { result ≡ same_size site plan }
{
    site.cells == plan.cells && site.slots == plan.slots && site.channels == plan.channels
}

// Reads a plan file, whose name is an argument, into a table; whether it is one and of the site's size. Where it is not, the text is said.
pub fn read_plan_of(
    rt: &HostRuntime,
    site: Site,
    name: usize,
    input: &[u8],
    table: &mut [u8],
    text: &mut [u8],
) -> bool
    requires { 65536 ≤ length text.old }
    ensures answer { result ≡ goes_with site input.now table.old }
    ensures table { table.new ≡ plan_table_read input.now table.old }
{
    let plan = planfile::read_plan(input, table);
    if let Err(refusal) = plan.answer {
        reply::named(rt, name, input, Input::PlanFile);
        let end = say_verdicts::put_read(text, 0, Kind::PlanFile, Err(refusal));
        no(rt, text, end);
        return false;
    }
    if same_size(site, plan) {
        return true;
    }
    reply::named(rt, name, input, Input::PlanFile);
    let end = say_verdicts::put_other_plan(
        text,
        0,
        plan.cells as usize,
        plan.slots as usize,
        plan.channels as usize,
    );
    no(rt, text, end);
    false
}

// The site of a site file: `Ok` where the plan file is one that goes with it, and the plan goes into the table. Where it does not, or one of the two is
// refused, the text is said.
pub fn read_pair(
    rt: &HostRuntime,
    input: &[u8],
    second: &[u8],
    table: &mut [u8],
    text: &mut [u8],
) -> Result<Site, Site>
    requires { 65536 ≤ length text.old }
    ensures site { result ≡ pair_site input.now second.now table.old }
    ensures table { table.new ≡ pair_table input.now second.now table.old }
{
    let read = sitefile::read_site(input);
    let site = read.site;
    let Ok(()) = read.answer else {
        refuse(rt, text, input, read.answer);
        return Err(site);
    };
    if read_plan_of(rt, site, SECOND_NAME, second, table, text) {
        return Ok(site);
    }
    Err(site)
}
