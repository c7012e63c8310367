// The site file: kinds 1, 2 and 3 of house files, 5 in place of 1 for rule 2, and 6 where something is blocked, read into a site and written from one.
#![tactic(auto)]

ghost use Rattle.std.specs.Prelude.{◌≡◌, ◌+◌, ◌*◌, ◌≤◌, length, take};
ghost use Rattle.std.proofs.lemmas.List.Edits.{sets};
ghost use Rattle.positions.specs.Blocked.{most_positions};
ghost use Rattle.site.specs.Record.{positions};
ghost use Rattle.records.specs.Bytes.{two_bytes_each};
ghost use Rattle.records.specs.Write.{written, laid_over};
ghost use Rattle.sitefile.specs.Read.{loads_of_body, refused_site, read_site};
ghost use Rattle.sitefile.specs.Loop.{LoadsRead};
ghost use Rattle.sitefile.specs.Write.{site_bytes, site_written, site_out};

use blockbits::{blocks_len, put_blocks, read_blocks};
use reachpairs::{pairs_len, put_pairs, read_reach};
use records::{
    Length, Refusal, WriteError, open, opened_answer, put_start, put_two_bytes, two_bytes,
};
use site::Site;
use sitehead::{head_len, put_site_head, rule_of, site_head};

// What a site read gives: the site, or a site of zeros beside the refusal.
#[derive(Clone, Copy)]
pub struct SiteRead {
    pub site: Site,
    pub answer: Result<(), Refusal>,
}

// The loads of a kind 2 body.
fn loads_of(body: &[u8]) -> [u16; 32]
    requires { length body.now ≤ 64 }
    ensures { result ≡ loads_of_body body.now }
{
    let mut loads = [0u16; 32];
    for i in 0..body.len() / 2 {
        loads[i] = two_bytes(body, 2 * i);
    }
    loads
}

// A refused read: a site of zeros beside the refusal.
fn refused(answer: Result<(), Refusal>) -> SiteRead
    ensures { result ≡ refused_site answer }
{
    SiteRead {
        site: Site::zeros(),
        answer,
    }
}

// Kind 3, and kind 6 where a byte makes it due, of a file whose head and loads are read.
fn read_rest(bytes: &[u8], at: usize, cells: u16, loads: [u16; 32]) -> SiteRead
    requires { LoadsRead bytes.now at cells loads }
    ensures { result ≡ read_site bytes.now }
{
    let mut reach = [0u32; 32];
    let first = read_reach(bytes, at, cells, &mut reach);
    let Ok(()) = first else {
        return refused(first);
    };
    let slots = two_bytes(bytes, 6);
    let channels = two_bytes(bytes, 8);
    let end = at + 2 + two_bytes(bytes, at) as usize;
    let last = read_blocks(bytes, end, slots as usize * channels as usize);
    let blocked = last.blocked;
    let answer = last.answer;
    let Ok(()) = answer else {
        return refused(answer);
    };
    let rule = rule_of(bytes);
    let mut site = Site::zeros();
    site.cells = cells;
    site.slots = slots;
    site.channels = channels;
    site.loads = loads;
    site.reach = reach;
    site.blocked = blocked;
    site.rule = rule;
    SiteRead { site, answer }
}

// Reads a site file: kinds 1, 2, 3, with 5 in place of 1 for rule 2, and 6 where something is blocked.
pub fn read_site(bytes: &[u8]) -> SiteRead
    ensures { result ≡ read_site bytes.now }
{
    let head = site_head(bytes);
    let Ok(()) = head else {
        return refused(head);
    };
    let cells = two_bytes(bytes, 4);
    let at = 2 + two_bytes(bytes, 0) as usize;
    let length = 2 + 2 * cells;
    let o = open(bytes, at, 2, Length::Exact(length));
    let Ok((start, len)) = o else {
        return refused(opened_answer(o));
    };
    let end = start + len;
    let loads = loads_of(&bytes[start..end]);
    read_rest(bytes, end, cells, loads)
}

// Stores the first n loads, two bytes each.
fn put_loads(out: &mut [u8], at: usize, loads: [u16; 32], n: usize)
    requires { (n ≤ 32) × (at + 2 * n ≤ length out.old) }
    ensures { out.new ≡ sets out.old at (two_bytes_each (take n loads)) }
{
    for i in 0..n {
        put_two_bytes(out, at + 2 * i, loads[i]);
    }
}

// The site file of a site whose record is in order.
fn put_site(s: Site, out: &mut [u8]) -> Result<usize, WriteError>
    requires { (s.cells ≤ 32) × (positions s ≤ most_positions) }
    ensures value { result ≡ written (site_bytes s) out.old }
    ensures out_after { out.new ≡ laid_over (site_bytes s) out.old }
{
    let loads = s.loads;
    let reach = s.reach;
    let blocked = s.blocked;
    let cells = s.cells;
    let rule = s.rule;
    let n = cells as usize;
    let all = s.slots as usize * s.channels as usize;
    let m = pairs_len(reach);
    let last = blocks_len(&blocked, all);
    let first = head_len(rule);
    let from = first + 4;
    let at = from + 2 * n;
    let end = at + 4 + m;
    let need = end + last;
    if out.len() < need {
        return Err(WriteError::OutShort(need));
    }
    put_site_head(out, cells, s.slots, s.channels, rule);
    put_start(out, first, 2 + 2 * cells, 2);
    put_loads(out, from, loads, n);
    put_start(out, at, (2 + m) as u16, 3);
    put_pairs(out, at + 4, &reach, end);
    put_blocks(out, end, &blocked, all, last);
    Ok(need)
}

// Writes the site file of a site: 1, 24, 2, 3, 20, then 13.
// `sheet::write_sheet` and `whytext::why_text` only look like this: each asks the record first, and then writes a text of its own.
#[tactic(auto, unfolding(crate::specs::Write::site_written, crate::specs::Write::site_out))]
pub fn write_site(site: Site, out: &mut [u8]) -> Result<usize, WriteError>
    ensures value { result ≡ site_written site out.old }
    ensures out_after { out.new ≡ site_out site out.old }
{
    site.accepted()?;
    put_site(site, out)
}
