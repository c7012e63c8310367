// The commands of the desk on range sheets: a site as a sheet, the site of a sheet, and a sheet tidied.
ghost use Rattle.std.specs.Prelude.{◌≤◌, length};

use crate::set::from_one;
use arguments::{FIRST_NAME, NUMBERS, number};
use blocklist::{BadList, ListRead};
use infiles::site_of;
use inputs::Input;
use reply::{no, yes};
use sheet::SheetError;
use site::Fault;

// After the slots, the channels and the rule, the list of blocked positions.
const LIST: usize = 7;

// A site as a range sheet.
pub fn run_sheet(rt: &HostRuntime, input: &[u8], out: &mut [u8], text: &mut [u8])
    requires { 65536 ≤ length text.old }
{
    let Some(site) = site_of(rt, input, text) else {
        return;
    };
    let Ok(size) = sheet::write_sheet(site, out) else {
        reply::unwritten(rt);
        return;
    };
    yes(rt, out, size);
}

// The name of a range sheet that is refused. Of a size or a rule the sheet has no part: slots, channels and rule stand beside it, and its cells are 1 to 32.
fn name_sheet(rt: &HostRuntime, input: &[u8], refused: SheetError) {
    if matches!(refused, SheetError::Record(Fault::Size | Fault::Rule)) {
        return;
    }
    reply::named(rt, FIRST_NAME, input, Input::RangeSheet);
}

// The list of blocked positions; where none is given nothing is blocked. One of more than 65,536 bytes is read as empty, which is bad.
fn listed(rt: &HostRuntime, slots: u16, channels: u16) -> ListRead {
    if arguments::count(rt) <= LIST {
        return ListRead {
            blocked: [0u64; 32],
            answer: Ok(()),
        };
    }
    let mut list = [0u8; 65536];
    let n = arguments::put(rt, LIST, &mut list);
    blocklist::read_list(&list[..n], slots, channels)
}

// A range sheet as a site file, with slots, channels, blocked positions and rule.
fn sheet_site(
    rt: &HostRuntime,
    input: &[u8],
    slots: u16,
    channels: u16,
    blocked: [u64; 32],
    rule: u16,
    out: &mut [u8],
    text: &mut [u8],
)
    requires { 65536 ≤ length text.old }
{
    let read = sheet::read_sheet(input, slots, channels, blocked, rule);
    let site = read.site;
    if let Err(refused) = read.answer {
        name_sheet(rt, input, refused);
        let end = say_sheets::put_sheet_refused(text, 0, input, read.answer);
        no(rt, text, end);
        return;
    }
    let Ok(size) = sitefile::write_site(site, out) else {
        reply::unwritten(rt);
        return;
    };
    if !reply::result(rt, out, size) {
        reply::unwritten(rt);
        return;
    }
    let end = say_sheets::put_made(text, 0, site);
    reply::message(rt, text, end);
    reply::fine(rt);
}

// A range sheet as a site file, where the list beside it is one.
pub fn run_site(rt: &HostRuntime, input: &[u8], out: &mut [u8], text: &mut [u8])
    requires { 65536 ≤ length text.old }
{
    let slots = number(rt, NUMBERS);
    let channels = number(rt, NUMBERS + 1);
    let rule = number(rt, NUMBERS + 2);
    let list = listed(rt, slots, channels);
    let blocked = list.blocked;
    if let Err(BadList(at)) = list.answer {
        let end = say_verdicts::put_bad_list(text, 0, from_one(at));
        reply::wrong(rt, text, end);
        return;
    }
    sheet_site(rt, input, slots, channels, blocked, rule, out, text);
}

// A sheet as a spreadsheet writes it, tidied, and what was changed. The changes are a part of the result: where they can't be written it is none.
pub fn run_tidy(rt: &HostRuntime, input: &[u8], out: &mut [u8], text: &mut [u8])
    requires { 65536 ≤ length text.old }
{
    let answer = tidying::tidy(input, out);
    let end = say_sheets::put_tidy(text, 0, input, answer);
    let Ok(size) = answer else {
        reply::named(rt, FIRST_NAME, input, Input::RangeSheet);
        no(rt, text, end);
        return;
    };
    if 65536 <= input.len() {
        reply::named(rt, FIRST_NAME, input, Input::RangeSheet);
        no(
            rt,
            b"refused 17: this has 65,536 bytes or more, and no range sheet has so many\n",
            74,
        );
        return;
    }
    if !reply::result(rt, out, size) {
        reply::unwritten(rt);
        return;
    }
    if !reply::message(rt, text, end) {
        reply::unwritten(rt);
        return;
    }
    reply::fine(rt);
}
