// The reservations of a cell, counted where its row stands in the table, and the lowest cell whose count is not its load.
#![tactic(auto)]

ghost use Rattle.std.specs.Prelude.{◌≡◌, ◌+◌, ◌*◌, ◌≤◌, length};
ghost use Rattle.laws.specs.Sum.{bit, count};
ghost use Rattle.theory.specs.Greedy.{sends, reserved, held};
ghost use Rattle.theory.specs.Verdict.{lowest_wrong};
ghost use Rattle.rowcounts.specs.Counts.{load_net};

// 1 for a reservation, else 0.
fn one(byte: u8) -> u8
    ensures { result ≡ bit (sends byte) }
{
    (byte == 1) as u8
}

// How many bytes of a stretch are reservations. The count is as narrow as the bytes, so that many are counted at once.
// It only looks like `rows::count_idle`, which counts the other byte: one function for both would take the byte, and each caller restate the count.
fn count_stretch(stretch: &[u8]) -> usize
    requires { length stretch.now ≤ 128 }
    ensures { result ≡ held (length stretch.now) stretch.now }
{
    let mut count: u8 = 0;
    for p in 0..stretch.len() {
        count += one(stretch[p]);
    }
    count as usize
}

// How many bytes of a row are reservations.
fn count_row(row: &[u8]) -> usize
    requires { length row.now ≤ 2048 }
    ensures { result ≡ held (length row.now) row.now }
{
    let n = row.len();
    let whole = n / 128;
    let mut count: usize = 0;
    for k in 0..whole {
        let from = 128 * k;
        let to = from + 128;
        count += count_stretch(&row[from..to]);
    }
    let rest = 128 * whole;
    count + count_stretch(&row[rest..n])
}

// How often cell i is reserved. Its row is counted where it stands, in the table.
pub fn cell_count(table: &[u8], n: usize, i: usize) -> usize
    requires { (n ≤ 2048) × (i * n + n ≤ length table.now) }
    ensures { result ≡ count (reserved n table.now i) n }
{
    let from = i * n;
    let to = from + n;
    count_row(&table[from..to])
}

// The lowest cell that is not reserved as often as its load says; the number of cells where there is none.
pub fn lowest_wrong(table: &[u8], n: usize, loads: [u16; 32], cells: usize) -> usize
    requires { (cells ≤ 32) × (n ≤ 2048) × (cells * n ≤ length table.now) }
    ensures { result ≡ lowest_wrong (load_net cells n loads) (reserved n table.now) }
{
    for i in 0..cells {
        let load = loads[i] as usize;
        let count = cell_count(table, n, i);
        if count != load {
            return i;
        }
    }
    cells
}
