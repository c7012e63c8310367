// The loads of the range map, written into a lent buffer at `at`: the answer is where the next byte goes. Cells are counted from 0. The clash rows of the
// site, its room and what the whole height stands for are made once, by the caller.
#![tactic(auto)]

ghost use Rattle.std.specs.Prelude.{◌≡◌, ◌+◌, ◌≤◌, ◌<◌, length};
ghost use Rattle.laws.specs.Bits.{bit_in};
ghost use Rattle.theory.specs.Net.{room};
ghost use Rattle.site.specs.Means.{Sized};
ghost use Rattle.site.specs.Reach.{net_of, clash_of};
ghost use Rattle.phrases.specs.Put.{Put};
ghost use Rattle.phrases.specs.Phrases.{phrase};
ghost use Rattle.drawing.specs.Loads.{load_lines, bar_high, before_bar, load_bar, over_mark, bar_by, bar_scale, bar_said, room_line};
ghost use Rattle.say_loads.specs.Code.{BarReady};

use demands::{demand, most_demand};
use loads::{greater, loaded, wide};
use phrases::{Phrase, put_phrase};
use positions::open_count;
use say_range::{cell_middle, cell_step};
use site::Site;

const BEFORE: usize = 0;

const LOAD: usize = 1;

const OVER: usize = 2;

const AMOUNT: usize = 3;

const ROOM: usize = 4;

// Puts a part of a bar, or nothing.
fn put_bar_part(out: &mut [u8], at: usize, what: Phrase) -> usize
    requires { at + 1000 ≤ length out.old }
    ensures { Put out.old at (phrase load_lines what) 1000 out.new result }
{
    put_phrase(
        out,
        at,
        b"<path class=\"before\" d=\"M@1 620h30v-@2h-30z\"/>\n|\
          <path class=\"load\" d=\"M@1 @2h30v-@3h-30z\"/>\n|\
          <text class=\"over\" x=\"@1\" y=\"@2\">!</text>\n|\
          <text class=\"tiny\" x=\"@1\" y=\"644\">@2</text>\n|\
          <path class=\"room\" d=\"M100 @1h@2\"/>\n<text class=\"small end\" x=\"92\" y=\"@3\">@4</text>\n|",
        what,
    )
}

// How many channel-slots of a site are open.
pub fn open_slots(site: Site) -> usize
    requires { Sized site }
    ensures { result ≡ room (net_of site) }
{
    let n = (site.slots as usize) * (site.channels as usize);
    let blocked = site.blocked;
    open_count(&blocked, n)
}

// What the whole height stands for: the greatest of the room and the demands, and not 0.
pub fn bar_scale(site: Site, clash: [u32; 32], free: usize) -> usize
    requires { Sized site × (bit_in clash ≡ clash_of site) × (free ≡ room (net_of site)) }
    ensures { (result ≡ bar_scale site) × (result ≤ 4294967295) }
{
    let cells = site.cells as usize;
    let loads = site.loads;
    let who = loaded(&loads);
    let most = most_demand(&loads, &clash, who, cells);
    greater(1, greater(free as u32, most)) as usize
}

// How high so many channel-slots are.
fn bar_high(scale: usize, x: usize) -> usize
    requires { (0 < scale) × (x ≤ 4294967295) }
    ensures { result ≡ bar_high scale x }
{
    x * 150 / scale
}

// What the earlier clashing cells send, or nothing.
fn before_bar(x: usize, load: usize, before: usize, scale: usize) -> Phrase
    requires { BarReady x load before scale }
    ensures { result ≡ before_bar x load before scale }
{
    if load == 0 {
        return Phrase::Silent;
    }
    if before == 0 {
        return Phrase::Silent;
    }
    Phrase::Row(BEFORE, x - 15, bar_high(scale, before), 0, 0)
}

// The load of a cell on top of that, or nothing.
fn load_bar(x: usize, load: usize, before: usize, scale: usize) -> Phrase
    requires { BarReady x load before scale }
    ensures { result ≡ load_bar x load before scale }
{
    if load == 0 {
        return Phrase::Silent;
    }
    let low = bar_high(scale, before);
    let top = bar_high(scale, load + before);
    Phrase::Row(LOAD, x - 15, 620 - low, top - low, 0)
}

// The mark of a bar that is over the room, or nothing.
fn over_mark(x: usize, load: usize, before: usize, free: usize, scale: usize) -> Phrase
    requires { BarReady x load before scale }
    ensures { result ≡ over_mark x load before free scale }
{
    if load == 0 {
        return Phrase::Silent;
    }
    if load + before <= free {
        return Phrase::Silent;
    }
    Phrase::Row(OVER, x, 612 - bar_high(scale, load + before), 0, 0)
}

// The parts of a bar, and the load as a number.
fn put_parts(
    out: &mut [u8],
    at: usize,
    x: usize,
    load: usize,
    before: usize,
    free: usize,
    scale: usize,
) -> usize
    requires { BarReady x load before scale × (at + 4000 ≤ length out.old) }
    ensures { Put out.old at (bar_by x load before free scale) 4000 out.new result }
{
    let first = put_bar_part(out, at, before_bar(x, load, before, scale));
    let second = put_bar_part(out, first, load_bar(x, load, before, scale));
    let third = put_bar_part(out, second, over_mark(x, load, before, free, scale));
    put_bar_part(out, third, Phrase::Row(AMOUNT, x, load, 0, 0))
}

// The bar of a cell.
pub fn put_bar(
    out: &mut [u8],
    at: usize,
    site: Site,
    clash: [u32; 32],
    free: usize,
    scale: usize,
    i: usize,
) -> usize
    requires sized { Sized site × (bit_in clash ≡ clash_of site) × (free ≡ room (net_of site)) × (scale ≡ bar_scale site) × (scale ≤ 4294967295) }
    requires i_lt_cells { (i < site.cells) × (at + 4000 ≤ length out.old) }
    ensures { Put out.old at (bar_said site i) 4000 out.new result }
{
    let x = cell_middle(site, i);
    let loads = site.loads;
    let load = wide(loads[i]) as usize;
    let all = demand(&loads, clash[i], i) as usize;
    put_parts(out, at, x, load, all - load, free, scale)
}

// The line of the room, and its number.
pub fn put_room_line(out: &mut [u8], at: usize, site: Site, free: usize, scale: usize) -> usize
    requires { Sized site × (free ≡ room (net_of site)) × (scale ≡ bar_scale site) × (at + 1000 ≤ length out.old) }
    ensures { Put out.old at (phrase load_lines (room_line site)) 1000 out.new result }
{
    let cells = site.cells as usize;
    let long = cells * cell_step(site);
    let high = bar_high(scale, free);
    put_bar_part(
        out,
        at,
        Phrase::Row(ROOM, 620 - high, long, 627 - high, free),
    )
}
