// The range sheet of the fitters, read into a site and written from one. Slots, channels, the blocked positions and the rule come beside it.
#![tactic(auto)]

ghost use Rattle.std.specs.Prelude.{◌≡◌, ◌+◌, ◌*◌, ◌≤◌, ◌<◌, length, drop, ltb};
ghost use Rattle.std.proofs.lemmas.List.Edits.{sets};
ghost use Rattle.laws.specs.Sum.{bit};
ghost use Rattle.text.specs.Decimal.{decimal};
ghost use Rattle.lines.specs.Format.{header};
ghost use Rattle.records.specs.Write.{written, laid_over};
ghost use Rattle.sheet.specs.Sheet.{lines_from, sheet_bytes};
ghost use Rattle.sheet.specs.Write.{sheet_written, sheet_out};
ghost use Rattle.sheet.specs.Read.{bad_sheet, judged, cells_read, read_sheet};

use lines::{Head, Line, NOWHERE, read_head, read_line};
use putlines::{put_cell, put_header};
use records::WriteError;
use site::{Fault, Site};

// Why a sheet is refused: its first bad line, from 1; or what is wrong with the record.
#[derive(Clone, Copy)]
pub enum SheetError {
    BadLine(usize),
    Record(Fault),
}

// The site, or a site of zeros beside the refusal.
#[derive(Clone, Copy)]
pub struct SheetRead {
    pub site: Site,
    pub answer: Result<(), SheetError>,
}

// A malformed sheet.
fn bad_at(line: usize) -> SheetRead
    ensures { result ≡ bad_sheet line }
{
    SheetRead {
        site: Site::zeros(),
        answer: Err(SheetError::BadLine(line)),
    }
}

// The site of a well formed sheet, unless its record is at fault.
#[tactic(auto, unfolding(crate::specs::Read::judged))]
fn judge(site: Site) -> SheetRead
    ensures { result ≡ judged site }
{
    match site.accepted() {
        Ok(()) => SheetRead {
            site,
            answer: Ok(()),
        },
        Err(f) => SheetRead {
            site: Site::zeros(),
            answer: Err(SheetError::Record(f)),
        },
    }
}

// The lines of n cells at `at`, and nothing after them.
fn read_cells(
    s: &[u8],
    at: usize,
    n: usize,
    slots: u16,
    channels: u16,
    blocked: [u64; 32],
    rule: u16,
) -> SheetRead
    requires { (0 < n) × (n ≤ 32) }
    ensures { result ≡ cells_read n (drop at s.now) slots channels blocked rule }
{
    let mut loads = [0u16; 32];
    let mut reach = [0u32; 32];
    let mut p = at;
    for k in 0..n {
        let Some(line) = read_line(s, p, n, k) else {
            return bad_at(k + 2);
        };
        loads[k] = line.load;
        reach[k] = line.row;
        p = line.next;
    }
    if p < s.len() {
        return bad_at(n + 2);
    }
    judge(Site {
        cells: n as u16,
        slots,
        channels,
        loads,
        reach,
        blocked,
        rule,
    })
}

// Reads a sheet, of a site with these slots, channels, blocked positions and this rule: 17, 1, 24, 3, then 20.
pub fn read_sheet(
    bytes: &[u8],
    slots: u16,
    channels: u16,
    blocked: [u64; 32],
    rule: u16,
) -> SheetRead
    ensures { result ≡ read_sheet bytes.now slots channels blocked rule }
{
    let h = read_head(bytes);
    let at = h.next;
    let n = h.cells;
    if at == NOWHERE {
        return bad_at(1);
    }
    read_cells(bytes, at, n, slots, channels, blocked, rule)
}

// One more, where the number is above the bound.
fn over(x: u16, most: u16) -> usize
    ensures value { result ≡ bit (ltb most x) }
    ensures upper_bound { result ≤ 1 }
{
    if most < x {
        return 1;
    }
    0
}

// How many digits a number has.
fn digits(x: u16) -> usize
    ensures value { result ≡ length (decimal x) }
    ensures upper_bound { result ≤ 5 }
{
    1 + over(x, 9) + over(x, 99) + over(x, 999) + over(x, 9999)
}

// The bytes of the first line.
fn header_len(n: usize) -> usize
    requires { n ≤ 32 }
    ensures value { result ≡ length (header n) }
    ensures upper_bound { result ≤ 300 }
{
    let mut need: usize = 11;
    for k in 0..n {
        need += 1 + digits((k + 1) as u16);
    }
    need
}

// The bytes of the line of the cell at index k, on a site with n cells.
fn line_len(n: usize, k: usize, load: u16) -> usize
    requires { (n ≤ 32) × (k < 32) }
    ensures value { result ≡ length (decimal (k + 1)) + length (decimal load) + 2 * n + 3 }
    ensures upper_bound { result ≤ 100 }
{
    let number = digits((k + 1) as u16);
    let more = digits(load);
    number + more + 2 * n + 3
}

// The bytes of the sheet.
fn sheet_len(s: Site) -> usize
    requires { s.cells ≤ 32 }
    ensures { result ≡ length (sheet_bytes s) }
{
    let n = s.cells as usize;
    let loads = s.loads;
    let mut need = header_len(n);
    for k in 0..n {
        need += line_len(n, k, loads[k]);
    }
    need
}

// The lines of the cells.
fn put_lines(out: &mut [u8], at: usize, s: Site)
    requires { (s.cells ≤ 32) × (at + length (lines_from s 0 s.cells) ≤ length out.old) }
    ensures { out.new ≡ sets out.old at (lines_from s 0 s.cells) }
{
    let n = s.cells as usize;
    let loads = s.loads;
    let reach = s.reach;
    let mut p = at;
    for k in 0..n {
        p = put_cell(out, p, n, k, loads[k] as usize, reach[k]);
    }
}

// The sheet of a site whose record is in order.
fn put_sheet(s: Site, out: &mut [u8]) -> Result<usize, WriteError>
    requires { s.cells ≤ 32 }
    ensures value { result ≡ written (sheet_bytes s) out.old }
    ensures out_after { out.new ≡ laid_over (sheet_bytes s) out.old }
{
    let need = sheet_len(s);
    if out.len() < need {
        return Err(WriteError::OutShort(need));
    }
    let at = put_header(out, s.cells as usize);
    put_lines(out, at, s);
    Ok(need)
}

// Writes the sheet of a site: 1, 24, 2, 3, 20, then 13.
#[tactic(auto, using(crate::proofs::WriteLaws::few_cells), unfolding(crate::specs::Write::sheet_written, crate::specs::Write::sheet_out))]
pub fn write_sheet(site: Site, out: &mut [u8]) -> Result<usize, WriteError>
    ensures value { result ≡ sheet_written site out.old }
    ensures out_after { out.new ≡ sheet_out site out.old }
{
    site.accepted()?;
    put_sheet(site, out)
}
