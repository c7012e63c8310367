// Each change between two tables in English, a slot at a time, written as words or as the result.
#![tactic(auto)]

ghost use Rattle.std.specs.Prelude.{◌≡◌, true, ◌+◌, ◌≤◌, length};

use site::Site;

// Whether a table has so many bytes at a place.
fn holds(table: &[u8], at: usize, many: usize) -> bool
    ensures { result ≡ true → at + many ≤ length table.now }
{
    if table.len() < at {
        return false;
    }
    many <= table.len() - at
}

// A part of the result, or words; whether it was written.
fn put_text(rt: &HostRuntime, text: &[u8], end: usize, res: bool) -> bool {
    if res {
        return reply::result(rt, text, end);
    }
    reply::message(rt, text, end)
}

// The changes of a cell in English, a slot at a time, where its bytes begin at `from` in both tables. Where a table ended before, or the text can't be
// written, it stops there and gives none; else it gives where the bytes of the next cell begin.
fn put_row(
    rt: &HostRuntime,
    old: &[u8],
    new: &[u8],
    text: &mut [u8],
    from: usize,
    slots: usize,
    channels: usize,
    cell: usize,
    res: bool,
) -> Option<usize>
    requires { (65536 ≤ length text.old) × (channels ≤ 16) }
{
    let mut at = from;
    for slot in 0..slots {
        if !holds(old, at, channels) {
            return None;
        }
        if !holds(new, at, channels) {
            return None;
        }
        let end = say_changes::put_changes(text, 0, old, new, at, channels, cell, slot + 1);
        if !put_text(rt, text, end, res) {
            return None;
        }
        at += channels;
    }
    Some(at)
}

// Each change in English, cell by cell, as a part of the result or as words; whether all of them were written. A site that was read has at most 16 channels,
// and both tables have its size.
pub fn put_all_changes(
    rt: &HostRuntime,
    old: &[u8],
    new: &[u8],
    text: &mut [u8],
    site: Site,
    res: bool,
) -> bool
    requires { 65536 ≤ length text.old }
{
    let cells = site.cells as usize;
    let slots = site.slots as usize;
    let channels = site.channels as usize;
    if 16 < channels {
        return false;
    }
    let mut at: usize = 0;
    for i in 0..cells {
        match put_row(rt, old, new, text, at, slots, channels, i + 1, res) {
            Some(next) => at = next,
            None => return false,
        }
    }
    true
}
