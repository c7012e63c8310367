// A table of sentences is one byte string, each row ended by a bar. One of its rows is written into a lent buffer.
#![tactic(auto)]

ghost use Rattle.std.specs.Prelude.{◌≡◌, ◌+◌, ◌*◌, ◌≤◌, [], ◌∷◌, length, take, drop};
ghost use Rattle.phrases.specs.Phrases.{skip, up_to_bar, row_in, part_in, phrase_in};
ghost use Rattle.phrases.specs.Put.{Put, PutRow};

use speech::say;

// What is to be said: nothing, or a row of a table, counted from 0, with four values.
#[derive(Clone, Copy)]
pub enum Phrase {
    Silent,
    Row(usize, usize, usize, usize, usize),
}

// Where a row starts.
fn row_start(table: &[u8], row: usize) -> usize
    ensures inside { result ≤ length table.now }
    ensures start { drop result table.now ≡ skip row table.now }
{
    let mut left = row;
    for (i, &byte) in table.iter().enumerate() {
        if left == 0 {
            return i;
        }
        if byte == b'|' {
            left -= 1;
        }
    }
    table.len()
}

// Where the first row ends.
fn row_end(table: &[u8]) -> usize
    ensures inside { result ≤ length table.now }
    ensures end { take result table.now ≡ up_to_bar table.now }
{
    for (i, &byte) in table.iter().enumerate() {
        if byte == b'|' {
            return i;
        }
    }
    table.len()
}

// Puts a row of the table at `at`, with its values, and answers where the next byte goes.
fn put_row(
    out: &mut [u8],
    at: usize,
    table: &[u8],
    row: usize,
    a: usize,
    b: usize,
    c: usize,
    d: usize,
) -> usize
    requires { at + 10 * length (row_in table.now row) ≤ length out.old }
    ensures { PutRow out.old at table.now row a b c d out.new result }
{
    let from = row_start(table, row);
    let rest = &table[from..];
    let to = row_end(rest);
    say(out, at, &rest[..to], a, b, c, d)
}

// Puts a phrase of the table.
pub fn put_phrase(out: &mut [u8], at: usize, table: &[u8], phrase: Phrase) -> usize
    requires { at + 10 * length (part_in table.now phrase) ≤ length out.old }
    ensures { Put out.old at (phrase_in table.now phrase) (10 * length (part_in table.now phrase)) out.new result }
{
    match phrase {
        Phrase::Silent => at,
        Phrase::Row(row, a, b, c, d) => put_row(out, at, table, row, a, b, c, d),
    }
}

// Puts one byte.
pub fn put_byte(out: &mut [u8], at: usize, byte: u8) -> usize
    requires { at + 1 ≤ length out.old }
    ensures { Put out.old at (byte ∷ []) 1 out.new result }
{
    out[at] = byte;
    at + 1
}
