// The desk's commands that show a plan: by channels and slots, by cells, for a spreadsheet, or as a picture. What is said is made by proved functions, a line
// at a time; here it is only written, by way of `reply`.
ghost use Rattle.std.specs.Prelude.{◌≤◌, length};

use crate::picture::put_picture;
use arguments::{NUMBERS, number};
use infiles::{read_pair, site_of};
use reply::{no, result};
use say_cells::SentAs;
use site::Site;

// After the width, how the plan is to be shown: 1 by cells, 2 for a spreadsheet, else by channels and slots; and 1 where a plan is given.
const FORM: usize = 5;

const GIVEN: usize = 6;

// The forms in which a plan is shown: by channels and slots, in pieces of a width, by cells, for a spreadsheet, or as a picture.
#[derive(Clone, Copy)]
enum ShownAs {
    Grid(usize),
    Cells,
    Sheet,
    Picture,
}

// The lines of a piece, which has so many slots from a slot on; whether they were written.
fn put_piece(
    rt: &HostRuntime,
    site: Site,
    table: &[u8],
    from: usize,
    many: usize,
    text: &mut [u8],
) -> bool
    requires { 65536 ≤ length text.old }
{
    let end = say_grid::put_gap(text);
    if !result(rt, text, end) {
        return false;
    }
    let lines = site.channels as usize + 1;
    for line in 0..lines {
        let end = say_grid::put_grid_line(text, site, table, line, from, many);
        if !result(rt, text, end) {
            return false;
        }
    }
    true
}

// A plan by channels and slots, in pieces that fit a width; whether it was written.
fn put_grid(rt: &HostRuntime, site: Site, table: &[u8], width: usize, text: &mut [u8]) -> bool
    requires { 65536 ≤ length text.old }
{
    let end = say_grid::put_legend(text);
    if !result(rt, text, end) {
        return false;
    }
    let slots = site.slots as usize;
    let mut from = 0;
    // How many slots fit differs from piece to piece.
    while from < slots {
        let many = say_grid::piece_slots(site, table, width, from);
        if many == 0 {
            return false;
        }
        if slots - from < many {
            return false;
        }
        if !put_piece(rt, site, table, from, many, text) {
            return false;
        }
        from += many;
    }
    true
}

// The lines of a cell; whether they were written.
fn put_cell(rt: &HostRuntime, site: Site, table: &[u8], i: usize, text: &mut [u8]) -> bool
    requires { 65536 ≤ length text.old }
{
    let end = say_cells::put_sender(text, site, table, SentAs::Sends, i);
    if !result(rt, text, end) {
        return false;
    }
    let end = say_cells::put_sender(text, site, table, SentAs::Clashing, i);
    if !result(rt, text, end) {
        return false;
    }
    let end = say_cells::put_sender(text, site, table, SentAs::Barred, i);
    result(rt, text, end)
}

// A plan by cells; whether it was written.
fn put_cells(rt: &HostRuntime, site: Site, table: &[u8], text: &mut [u8]) -> bool
    requires { 65536 ≤ length text.old }
{
    let cells = site.cells as usize;
    for i in 0..cells {
        if !put_cell(rt, site, table, i, text) {
            return false;
        }
    }
    true
}

// A plan for a spreadsheet, a line for each slot and channel; whether it was written. A site has at most 2,048 positions, and past its own nothing is said.
fn put_sheet(rt: &HostRuntime, site: Site, table: &[u8], text: &mut [u8]) -> bool
    requires { 65536 ≤ length text.old }
{
    let end = places::put_spread_head(text);
    if !result(rt, text, end) {
        return false;
    }
    for k in 0..2048 {
        let end = places::put_spread(text, site, table, k);
        if !result(rt, text, end) {
            return false;
        }
    }
    true
}

// The form that is asked for of `show`.
fn form_asked(rt: &HostRuntime) -> ShownAs {
    match number(rt, FORM) {
        1 => ShownAs::Cells,
        2 => ShownAs::Sheet,
        _ => ShownAs::Grid(number(rt, NUMBERS) as usize),
    }
}

// A plan in a form; whether it was written.
fn put_shown(rt: &HostRuntime, form: ShownAs, site: Site, table: &[u8], text: &mut [u8]) -> bool
    requires { 65536 ≤ length text.old }
{
    match form {
        ShownAs::Grid(width) => put_grid(rt, site, table, width, text),
        ShownAs::Cells => put_cells(rt, site, table, text),
        ShownAs::Sheet => put_sheet(rt, site, table, text),
        ShownAs::Picture => put_picture(rt, site, table, text),
    }
}

// A plan that was given, valid or not. Where it is not, the first thing that is wrong is said besides.
fn show_given(
    rt: &HostRuntime,
    form: ShownAs,
    input: &[u8],
    second: &[u8],
    table: &mut [u8],
    text: &mut [u8],
)
    requires { 65536 ≤ length text.old }
{
    let Ok(site) = read_pair(rt, input, second, table, text) else {
        return;
    };
    if !put_shown(rt, form, site, table, text) {
        reply::unwritten(rt);
        return;
    }
    let verdict = checker::check(site, table);
    let end = say_verdicts::put_check(text, 0, site, verdict);
    if verdict.is_err() {
        reply::message(rt, text, end);
    }
    reply::fine(rt);
}

// The plan of a site, as the command plan makes it.
fn show_plan(rt: &HostRuntime, form: ShownAs, input: &[u8], table: &mut [u8], text: &mut [u8])
    requires { 65536 ≤ length text.old }
{
    let Some(site) = site_of(rt, input, text) else {
        return;
    };
    let planned = planner::plan(site, table);
    let end = say_verdicts::put_plan(text, 0, site, planned);
    let Ok(()) = planned else {
        no(rt, text, end);
        return;
    };
    if !put_shown(rt, form, site, table, text) {
        reply::unwritten(rt);
        return;
    }
    reply::fine(rt);
}

// Shows a plan: the one that is given, or that of the site.
pub fn run_show(rt: &HostRuntime, input: &[u8], second: &[u8], table: &mut [u8], text: &mut [u8])
    requires { 65536 ≤ length text.old }
{
    let form = form_asked(rt);
    if number(rt, GIVEN) == 1 {
        show_given(rt, form, input, second, table, text);
        return;
    }
    show_plan(rt, form, input, table, text);
}

// A site and the plan that the command plan makes of it. Where it finds no room the table is idle, and its words are said besides: the range map shows why.
fn picture_plan(rt: &HostRuntime, input: &[u8], table: &mut [u8], text: &mut [u8])
    requires { 65536 ≤ length text.old }
{
    let Some(site) = site_of(rt, input, text) else {
        return;
    };
    let planned = planner::plan(site, table);
    if !put_picture(rt, site, table, text) {
        reply::unwritten(rt);
        return;
    }
    let end = say_verdicts::put_plan(text, 0, site, planned);
    if planned.is_err() {
        reply::message(rt, text, end);
    }
    reply::fine(rt);
}

// Draws a site and a plan: the one that is given, where argument 4 is 1, or that of the site.
pub fn run_picture(rt: &HostRuntime, input: &[u8], second: &[u8], table: &mut [u8], text: &mut [u8])
    requires { 65536 ≤ length text.old }
{
    if number(rt, NUMBERS) == 1 {
        show_given(rt, ShownAs::Picture, input, second, table, text);
        return;
    }
    picture_plan(rt, input, table, text);
}
