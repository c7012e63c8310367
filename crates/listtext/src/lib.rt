// The listing of a site file as text, laid into a lent output: the text, or the bytes that it needs. It may be far longer than a local buffer, so its
// cell lines are made twice, one after the other: first they are measured, then laid.
#![tactic(auto)]

ghost use Rattle.std.specs.Prelude.{◌≡◌, ◌+◌, ◌*◌, ◌≤◌, ◌<◌, ◌++◌, length};
ghost use Rattle.std.proofs.lemmas.List.Edits.{sets};
ghost use Rattle.records.specs.Write.{written, laid_over};
ghost use Rattle.listhead.specs.Listing.{listing, cell_lines};

use listhead::listed_head;
use listing::row_line;
use records::WriteError;
use text::put_text;

// How many bytes the cell lines have; `line` is room for one of them.
fn rows_len(line: &mut [u8], table: &[u8], rows: usize, width: usize, channels: usize) -> usize
    requires rows_bound { (rows ≤ 32) × (width ≤ 2048) × (rows * width ≤ length table.now) × (0 < rows → 0 < channels) }
    requires in_bounds { 24576 ≤ length line.old }
    ensures { (result ≡ length (cell_lines channels width table.now 0 rows)) × (result ≤ 24576 * rows) }
{
    let mut n = 0;
    for i in 0..rows {
        n += row_line(line, table, width, channels, i);
    }
    n
}

// Lays the cell lines from `at` on.
fn put_rows(
    out: &mut [u8],
    at: usize,
    line: &mut [u8],
    table: &[u8],
    rows: usize,
    width: usize,
    channels: usize,
)
    requires rows_bound { (rows ≤ 32) × (width ≤ 2048) × (rows * width ≤ length table.now) × (0 < rows → 0 < channels) }
    requires in_bounds { 24576 ≤ length line.old }
    requires rows_in_bounds { at + length (cell_lines channels width table.now 0 rows) ≤ length out.old }
    ensures { out.new ≡ sets out.old at (cell_lines channels width table.now 0 rows) }
{
    let mut next = at;
    for i in 0..rows {
        let n = row_line(line, table, width, channels, i);
        next = put_text(out, next, &line[..n]);
    }
}

// The head and the cell lines, where there is room for them.
fn lay_listing(
    head: &[u8],
    table: &[u8],
    rows: usize,
    width: usize,
    channels: usize,
    out: &mut [u8],
) -> Result<usize, WriteError>
    requires rows_bound { (rows ≤ 32) × (width ≤ 2048) × (rows * width ≤ length table.now) × (0 < rows → 0 < channels) }
    requires head_len_bound { length head.now ≤ 800 }
    ensures answer { result ≡ written (head.now ++ cell_lines channels width table.now 0 rows) out.old }
    ensures out { out.new ≡ laid_over (head.now ++ cell_lines channels width table.now 0 rows) out.old }
{
    let mut line = [0u8; 24576];
    let more = rows_len(&mut line, table, rows, width, channels);
    let need = head.len() + more;
    if out.len() < need {
        return Err(WriteError::OutShort(need));
    }
    let at = put_text(out, 0, head);
    put_rows(out, at, &mut line, table, rows, width, channels);
    Ok(need)
}

// The listing of a site file.
pub fn list_text(bytes: &[u8], out: &mut [u8]) -> Result<usize, WriteError>
    ensures answer { result ≡ written (listing bytes.now) out.old }
    ensures out { out.new ≡ laid_over (listing bytes.now) out.old }
{
    let mut table = [0u8; 65536];
    let mut head = [0u8; 1024];
    let rest = listed_head(&mut head, bytes, &mut table);
    let end = rest.end;
    lay_listing(
        &head[..end],
        &table,
        rest.rows,
        rest.width,
        rest.channels,
        out,
    )
}
