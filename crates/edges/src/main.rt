// The planner at its edges. P1 and P2 on a table of 24 bytes, of which the last six are not the site's and hold 7; then the largest site on a table of
// 65,536 bytes and of one byte less, and sites of 33 cells, 129 slots and 17 channels.
#![tactic(auto)]

use planner::PlanError;
use site::{Fault, Site};
use std::io::Print;

// A part of the output.
fn put(rt: &HostRuntime, text: &[u8]) {
    let _ = rt.write_all(text);
}

// A fault's number.
fn refused(rt: &HostRuntime, f: Fault) {
    match f {
        Fault::Size => put(rt, b"1"),
        Fault::Rule => put(rt, b"24"),
        Fault::Load(_) => put(rt, b"2"),
        Fault::Reach(_) => put(rt, b"3"),
        Fault::Blocked(_) => put(rt, b"20"),
    }
}

// The cell that no room was found for, and how many fragments it is short.
fn short(rt: &HostRuntime, cell: usize, fragments: usize) {
    let _ = print!(rt; "5 {cell} {fragments}");
}

// The answer's number and values, and a line feed.
fn say(rt: &HostRuntime, a: Result<(), PlanError>) {
    match a {
        Ok(()) => put(rt, b"0"),
        Err(PlanError::TableShort) => put(rt, b"4"),
        Err(PlanError::NoRoom(cell, fragments)) => short(rt, cell, fragments),
        Err(PlanError::Record(f)) => refused(rt, f),
    }
    put(rt, b"\n");
}

// The first 24 bytes of a table, a digit each.
fn show(rt: &HostRuntime, table: &[u8]) {
    let mut text = [0u8; 25];
    for i in 0..24 {
        if i < table.len() {
            text[i] = table[i] % 8 + 48;
        }
    }
    text[24] = 10;
    put(rt, &text);
}

// P1, with another load in cell 2.
fn desk(load: u16) -> Site {
    let mut s = Site::zeros();
    s.cells = 3;
    s.slots = 3;
    s.channels = 2;
    s.loads[0] = 5;
    s.loads[1] = load;
    s.loads[2] = 4;
    s.reach[1] = 5;
    s.rule = 1;
    s
}

// A site whose cell 1 has a load of 1.
fn sized(cells: u16, slots: u16, channels: u16) -> Site {
    let mut s = Site::zeros();
    s.cells = cells;
    s.slots = slots;
    s.channels = channels;
    s.loads[0] = 1;
    s.rule = 1;
    s
}

// P1 and P2, one after the other on one table.
fn desk_runs(rt: &HostRuntime) {
    let mut table = [7u8; 24];
    say(rt, planner::plan(desk(1), &mut table));
    show(rt, &table);
    say(rt, planner::plan(desk(2), &mut table));
    show(rt, &table);
}

// The largest site on all but the last byte of a table.
fn one_less(rt: &HostRuntime, table: &mut [u8]) {
    if table.len() == 0 {
        return;
    }
    let end = table.len() - 1;
    say(rt, planner::plan(sized(32, 128, 16), &mut table[..end]));
}

// A site of this size on the whole table.
fn whole(rt: &HostRuntime, table: &mut [u8], cells: u16, slots: u16, channels: u16) {
    say(rt, planner::plan(sized(cells, slots, channels), table));
}

// Every run, one line for each answer.
fn main(rt: HostRuntime) {
    desk_runs(&rt);
    let mut table = [0u8; 65536];
    whole(&rt, &mut table, 32, 128, 16);
    one_less(&rt, &mut table);
    whole(&rt, &mut table, 33, 128, 16);
    whole(&rt, &mut table, 32, 129, 16);
    whole(&rt, &mut table, 32, 128, 17);
}
