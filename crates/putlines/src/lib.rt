// The lines of a range sheet, written into a lent buffer: each function puts its text at `at` and answers where the next byte goes.
#![tactic(auto)]

ghost use Rattle.std.specs.Prelude.{◌≡◌, ◌+◌, ◌≤◌, ◌<◌, length};
ghost use Rattle.std.proofs.lemmas.List.Edits.{sets};
ghost use Rattle.lines.specs.Format.{bits_of, columns, header, marks, cell_line};

use text::{put_few, put_number, put_text};

// The n marks of a row.
fn put_marks(out: &mut [u8], at: usize, n: usize, row: u32) -> usize
    requires { (n ≤ 32) × (at + length (marks (bits_of row) 0 n) ≤ length out.old) }
    ensures stored { out.new ≡ sets out.old at (marks (bits_of row) 0 n) }
    ensures next { result ≡ at + length (marks (bits_of row) 0 n) }
{
    let mut p = at;
    for b in 0..n {
        out[p] = 44;
        out[p + 1] = 48 + ((row >> b) % 2) as u8;
        p += 2;
    }
    p
}

// The line of the cell at index k, on a site with n cells.
pub fn put_cell(out: &mut [u8], at: usize, n: usize, k: usize, load: usize, row: u32) -> usize
    requires { (n ≤ 32) × (k < 32) × (at + length (cell_line n k load (bits_of row)) ≤ length out.old) }
    ensures stored { out.new ≡ sets out.old at (cell_line n k load (bits_of row)) }
    ensures next { result ≡ at + length (cell_line n k load (bits_of row)) }
{
    let a = put_few(out, at, k + 1);
    out[a] = 44;
    let b = put_number(out, a + 1, load);
    let c = put_marks(out, b, n, row);
    out[c] = 13;
    out[c + 1] = 10;
    c + 2
}

// The columns 1 to n, each after a comma.
fn put_columns(out: &mut [u8], at: usize, n: usize) -> usize
    requires { (n ≤ 32) × (at + length (columns 0 n) ≤ length out.old) }
    ensures stored { out.new ≡ sets out.old at (columns 0 n) }
    ensures next { result ≡ at + length (columns 0 n) }
{
    let mut p = at;
    for k in 0..n {
        out[p] = 44;
        p = put_few(out, p + 1, k + 1);
    }
    p
}

// The first line, at the start of `out`.
pub fn put_header(out: &mut [u8], n: usize) -> usize
    requires { (n ≤ 32) × (length (header n) ≤ length out.old) }
    ensures stored { out.new ≡ sets out.old 0 (header n) }
    ensures next { result ≡ length (header n) }
{
    let a = put_text(out, 0, b"cell,load");
    let b = put_columns(out, a, n);
    out[b] = 13;
    out[b + 1] = 10;
    b + 2
}
