// How much more a cell of a site could carry, with all else as it is: by the demands that have its load in them, in one pass.
#![tactic(auto)]

ghost use Rattle.std.specs.Prelude.{◌≡◌, ◌-◌, ◌<◌, ltb, Ok};
ghost use Rattle.laws.specs.Choice.{pick};
ghost use Rattle.site.specs.Record.{fault_of};
ghost use Rattle.site.specs.Reach.{net_of};
ghost use Rattle.rooms.specs.Room.{room_in, room_answer, touched_word};

use chainwords::first_split;
use demands::most_demand;
use loads::loaded;
use positions::open_count;
use reachrows::with_bit;
use site::{Fault, Site, within};
use words::apart;

// So much more and no more, or at least so much more.
#[derive(Clone, Copy)]
pub enum Room {
    Exactly(usize),
    AtLeast(usize),
}

// Cell k, and the cells of two words that stand above it.
fn touched_cells(who: u32, row: u32, k: usize) -> u32
    requires { k < 32 }
    ensures { result ≡ touched_word who row k }
{
    let above = apart(who & row, (1 << k) - 1);
    with_bit(above, k)
}

// What the room leaves: nothing where it is below the greatest demand of all, and else what is free above the greatest demand of the cells that are touched.
fn left(room: u32, most: u32, touched: u32) -> usize
    ensures { result ≡ pick (ltb room most) 0 (room - touched) }
{
    if room < most {
        return 0;
    }
    if room < touched {
        return 0;
    }
    (room - touched) as usize
}

// The room of the cell at index k of an accepted site.
#[tactic(auto, using(judges::proofs::Laws::accepted_cells, judges::proofs::Laws::accepted_positions, judges::proofs::Laws::accepted_open))]
fn room_in(site: Site, k: usize) -> Room
    requires site_value { fault_of site ≡ Ok tt }
    requires k_lt_cells { k < site.cells }
    ensures { result ≡ room_in (net_of site) k }
{
    let cells = site.cells as usize;
    let n = site.slots as usize * site.channels as usize;
    let blocked = site.blocked;
    let room = open_count(&blocked, n) as u32;
    let loads = site.loads;
    let clash = site.clash_rows();
    let who = loaded(&loads);
    let most = most_demand(&loads, &clash, who, cells);
    let near = touched_cells(who, clash[k], k);
    let touched = most_demand(&loads, &clash, near, cells);
    let more = left(room, most, touched);
    let with = with_bit(who, k);
    if first_split(&clash, with, cells) < cells {
        return Room::AtLeast(more);
    }
    Room::Exactly(more)
}

// How much more a cell could carry, with all else as it is; else what is wrong with the record, or with the cell that is asked for.
#[tactic(auto, using(crate::proofs::Words::cell_within), unfolding(crate::specs::Room::room_answer, site::specs::Edit::load_edit_fault))]
pub fn room_of(site: Site, cell: usize) -> Result<Room, Fault>
    ensures { result ≡ room_answer site cell }
{
    site.accepted()?;
    if !within(cell, site.cells as usize) {
        return Err(Fault::Load(cell));
    }
    Ok(room_in(site, cell - 1))
}
