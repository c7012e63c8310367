// A site and its plan, drawn. What is drawn is made by proved functions, piece by piece; here it is only written, by way of `reply`.
ghost use Rattle.std.specs.Prelude.{◌≡◌, ◌≤◌, ◌<◌, length};
ghost use Rattle.laws.specs.Bits.{bit_in};
ghost use Rattle.site.specs.Means.{Sized};
ghost use Rattle.theory.specs.Net.{room};
ghost use Rattle.site.specs.Reach.{clash_of, net_of};
ghost use Rattle.drawing.specs.Loads.{bar_scale};
ghost use Rattle.say_slots.specs.Code.{Drawn};

use reply::result;
use site::Site;

// The lines of the range map, by cell; whether they were written.
fn put_reach(rt: &HostRuntime, site: Site, clash: [u32; 32], text: &mut [u8]) -> bool
    requires { (65536 ≤ length text.old) × Sized site × (bit_in clash ≡ clash_of site) }
{
    let cells = site.cells as usize;
    for a in 0..cells {
        let end = say_range::put_lines(text, 0, site, clash, a);
        if !result(rt, text, end) {
            return false;
        }
    }
    true
}

// A cell of the range map, and its ring; whether they were written.
fn put_cell_ring(rt: &HostRuntime, site: Site, heavy: u32, i: usize, text: &mut [u8]) -> bool
    requires { (65536 ≤ length text.old) × Sized site × (i < site.cells) }
{
    let end = say_range::put_node(text, 0, site, i);
    if !result(rt, text, end) {
        return false;
    }
    let end = say_range::put_ring(text, 0, site, heavy, i);
    result(rt, text, end)
}

// The cells of the range map; whether they were written.
fn put_cells(rt: &HostRuntime, site: Site, heavy: u32, text: &mut [u8]) -> bool
    requires { (65536 ≤ length text.old) × Sized site }
{
    let cells = site.cells as usize;
    for i in 0..cells {
        if !put_cell_ring(rt, site, heavy, i, text) {
            return false;
        }
    }
    true
}

// The marks of a channel in the band of a cell, one kind after the other; whether they were written.
fn put_marks(
    rt: &HostRuntime,
    site: Site,
    table: &[u8],
    clash: [u32; 32],
    i: usize,
    channel: usize,
    text: &mut [u8],
) -> bool
    requires { (65536 ≤ length text.old) × Drawn site table.now clash × Sized site × (i < site.cells) × (channel < site.channels) }
{
    for mark in 0..4 {
        let end = say_slots::put_marks(text, 0, site, table, clash, mark, i, channel);
        if !result(rt, text, end) {
            return false;
        }
    }
    true
}

// A channel in the band of a cell; whether it was written.
fn put_channel(
    rt: &HostRuntime,
    site: Site,
    table: &[u8],
    clash: [u32; 32],
    i: usize,
    channel: usize,
    text: &mut [u8],
) -> bool
    requires { (65536 ≤ length text.old) × Drawn site table.now clash × Sized site × (i < site.cells) × (channel < site.channels) }
{
    if !put_marks(rt, site, table, clash, i, channel, text) {
        return false;
    }
    let end = say_slots::put_edge(text, 0, site, i, channel);
    result(rt, text, end)
}

// The channels of the band of a cell; whether they were written.
fn put_channels(
    rt: &HostRuntime,
    site: Site,
    table: &[u8],
    clash: [u32; 32],
    i: usize,
    text: &mut [u8],
) -> bool
    requires { (65536 ≤ length text.old) × Drawn site table.now clash × Sized site × (i < site.cells) }
{
    let channels = site.channels as usize;
    for channel in 0..channels {
        if !put_channel(rt, site, table, clash, i, channel, text) {
            return false;
        }
    }
    true
}

// The band of a cell; whether it was written.
fn put_whole_band(
    rt: &HostRuntime,
    site: Site,
    table: &[u8],
    clash: [u32; 32],
    i: usize,
    text: &mut [u8],
) -> bool
    requires { (65536 ≤ length text.old) × Drawn site table.now clash × Sized site × (i < site.cells) }
{
    if !put_channels(rt, site, table, clash, i, text) {
        return false;
    }
    let end = say_slots::put_band(text, 0, site, i);
    if !result(rt, text, end) {
        return false;
    }
    let end = say_slots::put_band_name(text, 0, site, i);
    result(rt, text, end)
}

// The bands of the slot map; whether they were written.
fn put_bands(rt: &HostRuntime, site: Site, table: &[u8], clash: [u32; 32], text: &mut [u8]) -> bool
    requires { (65536 ≤ length text.old) × Drawn site table.now clash × Sized site }
{
    let cells = site.cells as usize;
    for i in 0..cells {
        if !put_whole_band(rt, site, table, clash, i, text) {
            return false;
        }
    }
    true
}

// The bars of the loads; whether they were written.
fn put_bars(
    rt: &HostRuntime,
    site: Site,
    clash: [u32; 32],
    free: usize,
    scale: usize,
    text: &mut [u8],
) -> bool
    requires in_bounds { (65536 ≤ length text.old) × Sized site × (bit_in clash ≡ clash_of site) }
    requires free_value { (free ≡ room (net_of site)) × (scale ≡ bar_scale site) × (scale ≤ 4294967295) }
{
    let cells = site.cells as usize;
    for i in 0..cells {
        let end = say_loads::put_bar(text, 0, site, clash, free, scale, i);
        if !result(rt, text, end) {
            return false;
        }
    }
    true
}

// The loads, against the room; whether they were written.
fn put_loads(rt: &HostRuntime, site: Site, clash: [u32; 32], free: usize, text: &mut [u8]) -> bool
    requires { (65536 ≤ length text.old) × Sized site × (bit_in clash ≡ clash_of site) × (free ≡ room (net_of site)) }
{
    let scale = say_loads::bar_scale(site, clash, free);
    if !put_bars(rt, site, clash, free, scale, text) {
        return false;
    }
    let end = say_loads::put_room_line(text, 0, site, free, scale);
    result(rt, text, end)
}

// The head of the picture, and how the site is; whether they were written.
fn put_top(rt: &HostRuntime, site: Site, free: usize, text: &mut [u8]) -> bool
    requires { (65536 ≤ length text.old) × Sized site × (free ≡ room (net_of site)) }
{
    let end = say_picture::put_picture_head(text, 0, site);
    if !result(rt, text, end) {
        return false;
    }
    let end = say_picture::put_facts(text, 0, site, free);
    result(rt, text, end)
}

// The lines and cells of the range map; whether they were written.
fn put_range(rt: &HostRuntime, site: Site, clash: [u32; 32], heavy: u32, text: &mut [u8]) -> bool
    requires { (65536 ≤ length text.old) × Sized site × (bit_in clash ≡ clash_of site) }
{
    if !put_reach(rt, site, clash, text) {
        return false;
    }
    put_cells(rt, site, heavy, text)
}

// The head of the picture, the range map and the loads; whether they were written.
fn put_upper(rt: &HostRuntime, site: Site, clash: [u32; 32], heavy: u32, text: &mut [u8]) -> bool
    requires { (65536 ≤ length text.old) × Sized site × (bit_in clash ≡ clash_of site) }
{
    let free = say_loads::open_slots(site);
    if !put_top(rt, site, free, text) {
        return false;
    }
    if !put_range(rt, site, clash, heavy, text) {
        return false;
    }
    put_loads(rt, site, clash, free, text)
}

// The slot map and the end of the picture; whether they were written.
fn put_lower(rt: &HostRuntime, site: Site, table: &[u8], clash: [u32; 32], text: &mut [u8]) -> bool
    requires { (65536 ≤ length text.old) × Drawn site table.now clash × Sized site }
{
    let end = say_slots::put_numbers(text, 0, site);
    if !result(rt, text, end) {
        return false;
    }
    if !put_bands(rt, site, table, clash, text) {
        return false;
    }
    let end = say_picture::put_picture_tail(text, 0, site);
    result(rt, text, end)
}

// The whole picture; whether it was written.
pub fn draw(rt: &HostRuntime, site: Site, table: &[u8], heavy: u32, text: &mut [u8]) -> bool
    requires { 65536 ≤ length text.old }
{
    if !say_faults::can_judge(site, table) {
        return false;
    }
    let clash = site.clash_rows();
    if !put_upper(rt, site, clash, heavy, text) {
        return false;
    }
    put_lower(rt, site, table, clash, text)
}

// The word of the heaviest clash; none of a site at fault.
fn heaviest_word(site: Site) -> u32 {
    let Ok((_, cells)) = heaviest::heaviest(site) else {
        return 0;
    };
    cells
}

// Draws a site and the plan in the table; whether it was written.
pub fn put_picture(rt: &HostRuntime, site: Site, table: &[u8], text: &mut [u8]) -> bool
    requires { 65536 ≤ length text.old }
{
    let heavy = heaviest_word(site);
    draw(rt, site, table, heavy, text)
}
