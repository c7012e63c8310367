// The changes of a mended table, by the sets that say who stands where and who stood: stored in the table, and listed, four numbers each.
//
// What it costs: a look at each word of 64 positions, and some steps for each change, which is the lowest bit that is left of those in which the words differ.
#![tactic(auto)]

ghost use Rattle.std.specs.Prelude.{◌≡◌, not, [], ◌∷◌, ◌+◌, ◌*◌, ◌≤◌, ◌<◌, length};
ghost use Rattle.std.proofs.lemmas.List.Edits.{sets};
ghost use Rattle.laws.specs.Bits.{bit_at};
ghost use Rattle.mending.specs.Changes.{change_entry, cell_changes, follow};
ghost use Rattle.standing.specs.Sets.{stands_in};
ghost use Rattle.changelist.specs.Sets.{word_changes, word_count, cell_count, all_count, table_with, list_with, WordInside, RowWithin, AllWithin};

// Writes one change.
fn note(list: &mut [u16], at: usize, cell: u16, position: u16, was: u16, is: u16)
    requires { at + 4 ≤ length list.old }
    ensures { list.new ≡ sets list.old at (cell ∷ position ∷ was ∷ is ∷ []) }
{
    list[at] = cell;
    list[at + 1] = position;
    list[at + 2] = was;
    list[at + 3] = is;
}

// Stores and lists a change at cell i and position k: what stands there now stood not.
fn list_change(
    table: &mut [u8],
    list: &mut [u16],
    n: usize,
    i: usize,
    k: usize,
    is: bool,
    at: usize,
)
    requires { (i < 32) × (n ≤ 2048) × (k < n) × (i * n + n ≤ length table.old) × (at + 4 ≤ length list.old) }
    ensures table { table.new ≡ follow n (change_entry is (not is) i k) table.old }
    ensures list { list.new ≡ sets list.old at (change_entry is (not is) i k) }
{
    let was = !is;
    table[i * n + k] = is as u8;
    note(list, at, (i + 1) as u16, k as u16, was as u16, is as u16);
}

// Stores and lists the changes of cell i at the 64 positions from `from` on, by the word of those where it stands and the word of those where it stood; answers
// where the next change goes.
fn list_word(
    table: &mut [u8],
    list: &mut [u16],
    n: usize,
    i: usize,
    from: usize,
    is: u64,
    was: u64,
    at: usize,
) -> usize
    requires { (i < 32) × (n ≤ 2048) × (i * n + n ≤ length table.old) × WordInside (bit_at is) (bit_at was) from n
        × (at + 4 * word_count (bit_at is) (bit_at was) 64 ≤ length list.old) }
    ensures table { table.new ≡ follow n (word_changes (bit_at is) (bit_at was) i from 64) table.old }
    ensures list { list.new ≡ sets list.old at (word_changes (bit_at is) (bit_at was) i from 64) }
    ensures next { result ≡ at + 4 * word_count (bit_at is) (bit_at was) 64 }
{
    let mut rest = is ^ was;
    let mut next = at;
    // From change to change of a word: no index is counted.
    while rest != 0 {
        let b = u64::trailing_zeros(rest) as usize;
        let stands = (is >> b) % 2 == 1;
        list_change(table, list, n, i, from + b, stands, next);
        next += 4;
        rest = rest & (rest - 1);
    }
    next
}

// Stores and lists the changes of cell i; answers where the next one goes.
pub fn list_cell(
    table: &mut [u8],
    list: &mut [u16],
    stands: &[u64],
    old: &[u64],
    w: usize,
    n: usize,
    i: usize,
    at: usize,
) -> usize
    requires i_bound { (i < 32) × (n ≤ 2048) × (w ≤ 32) × (i * n + n ≤ length table.old) × (i * w + w ≤ length stands.now) × (i * w + w ≤ length old.now) }
    requires row_within { RowWithin w i n stands.now old.now × (at + 4 * cell_count w i stands.now old.now ≤ length list.old) }
    ensures table { table.new
        ≡ follow n (cell_changes (stands_in w stands.now) (stands_in w old.now) i (64 * w)) table.old }
    ensures list { list.new
        ≡ sets list.old at (cell_changes (stands_in w stands.now) (stands_in w old.now) i (64 * w)) }
    ensures next { result ≡ at + 4 * cell_count w i stands.now old.now }
{
    let mut next = at;
    for j in 0..w {
        let x = i * w + j;
        next = list_word(table, list, n, i, 64 * j, stands[x], old[x], next);
    }
    next
}

// Stores and lists the changes of every cell.
pub fn list_all(
    table: &mut [u8],
    list: &mut [u16],
    stands: &[u64],
    old: &[u64],
    w: usize,
    n: usize,
    cells: usize,
)
    requires cells_bound { (cells ≤ 32) × (n ≤ 2048) × (w ≤ 32) × (cells * n ≤ length table.old) × (cells * w ≤ length stands.now)
        × (cells * w ≤ length old.now) }
    requires all_within { AllWithin w cells n stands.now old.now × (4 * all_count w cells stands.now old.now ≤ length list.old) }
    ensures table { table.new ≡ table_with w cells n stands.now old.now table.old }
    ensures list { list.new ≡ list_with w cells stands.now old.now list.old }
{
    let mut at: usize = 0;
    for i in 0..cells {
        at = list_cell(table, list, stands, old, w, n, i, at);
    }
}
