// The plan file, read and written: a head, and one bit for each cell and position, which crate planbits packs and unpacks.
#![tactic(auto)]

ghost use Rattle.std.specs.Prelude.{◌≡◌, length};
ghost use Rattle.site.specs.Record.{entries};
ghost use Rattle.records.specs.Bits.{bytes_for};
ghost use Rattle.planfile.specs.Read.{refused_plan, read_plan, plan_table_read};
ghost use Rattle.planfile.specs.Loop.{HeadRead};
ghost use Rattle.planfile.specs.declared.PlanWriteError.TheVariants.{Record};
ghost use Rattle.planfile.specs.Write.{plan_written, plan_out};

use planbits::{put_bits, unpack};
use records::{
    AFTER_HEAD, Length, Refusal, head_answer, left_over, open, opened_answer, put_head, put_start,
    refuse, two_bytes,
};
use site::{Fault, Site};

// What a plan read gives: I, T and F, or three zeros beside a refusal.
#[derive(Clone, Copy)]
pub struct PlanRead {
    pub cells: u16,
    pub slots: u16,
    pub channels: u16,
    pub answer: Result<(), Refusal>,
}

// Why the writer refuses: the table is too short; the output is too short, with the bytes needed; or what is wrong with the record.
#[derive(Clone, Copy)]
pub enum PlanWriteError {
    TableShort,
    OutShort(usize),
    Record(Fault),
}

impl From<Fault> for PlanWriteError {
    ghost from_gives = { λ f e. e ≡ Record f };

    fn from(f: Fault) -> PlanWriteError {
        PlanWriteError::Record(f)
    }
}

// How many table bytes a plan speaks of.
fn entries(cells: u16, slots: u16, channels: u16) -> usize
    ensures { result ≡ entries cells slots channels }
{
    cells as usize * (slots as usize * channels as usize)
}

// A refused read: the refusal, and no site.
fn refused(answer: Result<(), Refusal>) -> PlanRead
    ensures { result ≡ refused_plan answer }
{
    PlanRead {
        cells: 0,
        slots: 0,
        channels: 0,
        answer,
    }
}

// The plan record of a file whose head is read.
fn read_body(bytes: &[u8], table: &mut [u8], cells: u16, slots: u16, channels: u16) -> PlanRead
    requires { HeadRead bytes.now cells slots channels }
    ensures value { result ≡ read_plan bytes.now table.old }
    ensures table_after { table.new ≡ plan_table_read bytes.now table.old }
{
    let n = entries(cells, slots, channels);
    let m = (n + 7) / 8;
    let o = open(bytes, AFTER_HEAD, 4, Length::Exact((2 + m) as u16));
    let Ok((start, len)) = o else {
        return refused(opened_answer(o));
    };
    let end = start + len;
    if left_over(&bytes[start..end], n) {
        return refused(Err(refuse(14, AFTER_HEAD)));
    }
    if end < bytes.len() {
        return refused(Err(refuse(12, end)));
    }
    if table.len() < n {
        return refused(Err(refuse(4, 0)));
    }
    unpack(&bytes[start..end], table, n);
    PlanRead {
        cells,
        slots,
        channels,
        answer: Ok(()),
    }
}

// Reads a plan file into the lent table: the first IN bytes become 1 where the file reserves, 0 elsewhere.
pub fn read_plan(bytes: &[u8], table: &mut [u8]) -> PlanRead
    ensures value { result ≡ read_plan bytes.now table.old }
    ensures table_after { table.new ≡ plan_table_read bytes.now table.old }
{
    let head = head_answer(bytes);
    let Ok(()) = head else {
        return refused(head);
    };
    let cells = two_bytes(bytes, 4);
    let slots = two_bytes(bytes, 6);
    let channels = two_bytes(bytes, 8);
    read_body(bytes, table, cells, slots, channels)
}

// Writes the plan file of a site and its table into the lent output.
#[tactic(auto, unfolding(crate::specs::Write::plan_written, crate::specs::Write::plan_out))]
pub fn write_plan(site: Site, table: &[u8], out: &mut [u8]) -> Result<usize, PlanWriteError>
    ensures value { result ≡ plan_written site table.now out.old }
    ensures out_after { out.new ≡ plan_out site table.now out.old }
{
    site.accepted()?;
    let cells = site.cells;
    let slots = site.slots;
    let channels = site.channels;
    let n = entries(cells, slots, channels);
    if table.len() < n {
        return Err(PlanWriteError::TableShort);
    }
    let m = (n + 7) / 8;
    let at = AFTER_HEAD + 4;
    let need = at + m;
    if out.len() < need {
        return Err(PlanWriteError::OutShort(need));
    }
    put_head(out, cells, slots, channels);
    put_start(out, AFTER_HEAD, (2 + m) as u16, 4);
    put_bits(&table[..n], out, at);
    Ok(need)
}
