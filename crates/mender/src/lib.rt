// Mends a table from another planner where it stands, and lists the changes.
//
// What it costs, for I cells and N positions: the cells' turns, a word of 64 positions at a time (crate `standing`), and where something changes some steps for
// each change (crate `changelist`). Nothing lent is written before the outcome is known. The local room is two bits for each cell and position, 16 kilobytes:
// no second table. Without a list there are 16 kilobytes more, for the changes of one row. For up to 128 positions it is 1 kilobyte, and 1 more, and for
// up to 64 half of that.
#![tactic(auto)]

ghost use Rattle.std.specs.Prelude.{◌≡◌, ◌*◌, ◌≤◌, length};
ghost use Rattle.site.specs.Record.{positions};
ghost use Rattle.changelist.specs.Sets.{table_with, AllWithin};
ghost use Rattle.mender.specs.declared.MendError.TheVariants.{NoRoom, Record};
ghost use Rattle.mender.specs.Mend.{SetRoom, RowRoom, MendStands, list_room, mend_answer, mend_table, mend_list};

use changelist::{list_all, list_cell};
use site::{Fault, Site};
use standing::Short;

// Why the mender does not mend: 4, the table is short; 5, a cell's number and how many of its fragments found no room; 13, the list is too short for so many
// changes; or what is wrong with the record.
#[derive(Clone, Copy)]
pub enum MendError {
    TableShort,
    NoRoom(usize, usize),
    ListShort(usize),
    Record(Fault),
}

impl From<Fault> for MendError {
    ghost from_gives = { λ f e. e ≡ Record f };

    fn from(fault: Fault) -> MendError {
        MendError::Record(fault)
    }
}

impl From<Short> for MendError {
    ghost from_gives = { λ s e. e ≡ NoRoom s.0 s.1 };

    fn from(short: Short) -> MendError {
        MendError::NoRoom(short.0, short.1)
    }
}

// Stores the changes of every cell, and lists none of them: the list is room to work in, and holds a row's changes at a time.
fn store_all(
    table: &mut [u8],
    list: &mut [u16],
    stands: &[u64],
    old: &[u64],
    w: usize,
    n: usize,
    cells: usize,
)
    requires cells_bound { (cells ≤ 32) × (n ≤ 2048) × (w ≤ 32) × (cells * n ≤ length table.old) × (cells * w ≤ length stands.now)
        × (cells * w ≤ length old.now) }
    requires all_within { AllWithin w cells n stands.now old.now × (4 * (64 * w) ≤ length list.old) }
    ensures { table.new ≡ table_with w cells n stands.now old.now table.old }
{
    for j in 0..cells {
        list_cell(table, list, stands, old, w, n, j, 0);
    }
}

// Every cell's turn, for a site and its table: the number of changes where the list has room. Where it is done, the sets come back with who stands where, and
// who stood.
// The table is not written.
#[tactic(auto, using(crate::proofs::Written::turns_end))]
fn stand_site(
    site: Site,
    table: &[u8],
    stands: &mut [u64],
    old: &mut [u64],
) -> Result<usize, MendError>
    requires { SetRoom site (length stands.old) × SetRoom site (length old.old) }
    ensures { MendStands result site table.now stands.new old.new }
{
    site.accepted()?;
    let cells = site.cells as usize;
    let n = (site.slots as usize) * (site.channels as usize);
    if table.len() < cells * n {
        return Err(MendError::TableShort);
    }
    let loads = site.loads;
    let blocked = site.blocked;
    let clash = site.clash_rows();
    let w = (n + 63) / 64;
    let number = standing::stand_all(stands, old, table, w, n, cells, &loads, &clash, &blocked)?;
    Ok(number)
}

// Mends the table and lists the changes, in lent room: two sets for each cell.
fn mend_in(
    site: Site,
    table: &mut [u8],
    changes: &mut [u16],
    stands: &mut [u64],
    old: &mut [u64],
) -> Result<usize, MendError>
    requires { SetRoom site (length stands.old) × SetRoom site (length old.old) }
    ensures answer { result ≡ mend_answer site table.old changes.old }
    ensures table { table.new ≡ mend_table site table.old changes.old }
    ensures changes { changes.new ≡ mend_list site table.old changes.old }
{
    let number = stand_site(site, table, stands, old)?;
    if number == 0 {
        return Ok(number);
    }
    if changes.len() / 4 < number {
        return Err(MendError::ListShort(number));
    }
    let cells = site.cells as usize;
    let n = (site.slots as usize) * (site.channels as usize);
    let w = (n + 63) / 64;
    list_all(table, changes, stands, old, w, n, cells);
    Ok(number)
}

// The same for at most 128 positions: the room is cleared for so many alone.
fn mend_small(site: Site, table: &mut [u8], changes: &mut [u16]) -> Result<usize, MendError>
    requires { positions site ≤ 128 }
    ensures answer { result ≡ mend_answer site table.old changes.old }
    ensures table { table.new ≡ mend_table site table.old changes.old }
    ensures changes { changes.new ≡ mend_list site table.old changes.old }
{
    let mut stands = [0u64; 64];
    let mut old = [0u64; 64];
    mend_in(site, table, changes, &mut stands, &mut old)
}

// The same for at most 64 positions.
fn mend_short(site: Site, table: &mut [u8], changes: &mut [u16]) -> Result<usize, MendError>
    requires { positions site ≤ 64 }
    ensures answer { result ≡ mend_answer site table.old changes.old }
    ensures table { table.new ≡ mend_table site table.old changes.old }
    ensures changes { changes.new ≡ mend_list site table.old changes.old }
{
    let mut stands = [0u64; 32];
    let mut old = [0u64; 32];
    mend_in(site, table, changes, &mut stands, &mut old)
}

// Mends the table for the site, and lists the changes, four numbers each: cell, position, was, is. A refusal leaves table and list as they were: the record's
// faults, then a table that is too short, then a cell that finds no room, then a list that is too short.
pub fn mend(site: Site, table: &mut [u8], changes: &mut [u16]) -> Result<usize, MendError>
    ensures answer { result ≡ mend_answer site table.old changes.old }
    ensures table { table.new ≡ mend_table site table.old changes.old }
    ensures changes { changes.new ≡ mend_list site table.old changes.old }
{
    let n = (site.slots as usize) * (site.channels as usize);
    if n <= 64 {
        return mend_short(site, table, changes);
    }
    if n <= 128 {
        return mend_small(site, table, changes);
    }
    let mut stands = [0u64; 1024];
    let mut old = [0u64; 1024];
    mend_in(site, table, changes, &mut stands, &mut old)
}

// Mends the table and lists nothing, in lent room: two sets for each cell, and the changes of one row.
fn mend_only_in(
    site: Site,
    table: &mut [u8],
    row: &mut [u16],
    stands: &mut [u64],
    old: &mut [u64],
) -> Result<usize, MendError>
    requires { RowRoom site (length row.old) × SetRoom site (length stands.old) × SetRoom site (length old.old) }
    ensures answer { result ≡ mend_answer site table.old (list_room site) }
    ensures table { table.new ≡ mend_table site table.old (list_room site) }
{
    let changes = stand_site(site, table, stands, old)?;
    let cells = site.cells as usize;
    let n = (site.slots as usize) * (site.channels as usize);
    let w = (n + 63) / 64;
    store_all(table, row, stands, old, w, n, cells);
    Ok(changes)
}

// The same for at most 128 positions.
fn mend_only_small(site: Site, table: &mut [u8]) -> Result<usize, MendError>
    requires { positions site ≤ 128 }
    ensures answer { result ≡ mend_answer site table.old (list_room site) }
    ensures table { table.new ≡ mend_table site table.old (list_room site) }
{
    let mut row = [0u16; 512];
    let mut stands = [0u64; 64];
    let mut old = [0u64; 64];
    mend_only_in(site, table, &mut row, &mut stands, &mut old)
}

// The same for at most 64 positions.
fn mend_only_short(site: Site, table: &mut [u8]) -> Result<usize, MendError>
    requires { positions site ≤ 64 }
    ensures answer { result ≡ mend_answer site table.old (list_room site) }
    ensures table { table.new ≡ mend_table site table.old (list_room site) }
{
    let mut row = [0u16; 256];
    let mut stands = [0u64; 32];
    let mut old = [0u64; 32];
    mend_only_in(site, table, &mut row, &mut stands, &mut old)
}

// Mends the table as `mend` does where the list has room for every change, and lists nothing.
pub fn mend_only(site: Site, table: &mut [u8]) -> Result<usize, MendError>
    ensures answer { result ≡ mend_answer site table.old (list_room site) }
    ensures table { table.new ≡ mend_table site table.old (list_room site) }
{
    let n = (site.slots as usize) * (site.channels as usize);
    if n <= 64 {
        return mend_only_short(site, table);
    }
    if n <= 128 {
        return mend_only_small(site, table);
    }
    let mut row = [0u16; 8192];
    let mut stands = [0u64; 1024];
    let mut old = [0u64; 1024];
    mend_only_in(site, table, &mut row, &mut stands, &mut old)
}
