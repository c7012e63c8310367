// A table's bytes as words, one for each position, and words as bytes: over neighbouring places, without a branch. Eight rows at a time, by the byte
// that a word has of eight cells; row by row where there are few positions, or few cells.
#![tactic(auto)]

ghost use Rattle.std.specs.Prelude.{◌≡◌, ◌++◌, ◌+◌, ◌*◌, ◌/◌, ◌%◌, ◌^◌, ◌≤◌, ◌<◌, min, length, get_or, drop};
ghost use Rattle.std.proofs.lemmas.List.Edits.{sets};
ghost use Rattle.laws.specs.Bits.{bit_at, word_of};
ghost use Rattle.laws.specs.Part.{list_of, Zeros};
ghost use Rattle.laws.specs.Sum.{bit};
ghost use Rattle.theory.specs.Greedy.{sends, reserved};
ghost use Rattle.words.specs.Words.{words_of};
ghost use Rattle.wordforms.specs.Words.{sends_at, bytes_of};
ghost use Rattle.wordforms.specs.Eights.{eight_of, eight_joined, byte_joined};

use blocks::bits_if;

// The word of four rows of n bytes at one position: the byte of the first row is k.
fn four_at(table: &[u8], k: usize, n: usize) -> u8
    requires { k + 3 * n < length table.now }
    ensures { result ≡ word_of (λ b. sends (get_or table.now (k + b * n) 0)) 4 }
{
    let a = bits_if(table[k], 1);
    let b = bits_if(table[k + n], 2);
    let c = bits_if(table[k + 2 * n], 4);
    let d = bits_if(table[k + 3 * n], 8);
    a + b + c + d
}

// The byte that the word of position k has of the eight cells from i on.
fn eight_at(table: &[u8], n: usize, i: usize, k: usize) -> u8
    requires { (k < n) × (i * n + 8 * n ≤ length table.now) }
    ensures { result ≡ eight_of n table.now i k }
{
    let at = i * n + k;
    let low = four_at(table, at, n);
    let high = four_at(table, at + 4 * n, n);
    low + 16 * high
}

// The bytes of m positions from `at` on.
fn take_eight(bytes: &mut [u8], table: &[u8], n: usize, i: usize, at: usize, m: usize)
    requires { (m ≤ length bytes.old) × (at + m ≤ n) × (i * n + 8 * n ≤ length table.now) }
    ensures { bytes.new ≡ sets bytes.old 0 (list_of (λ k. eight_of n table.now i (at + k)) m) }
{
    for k in 0..m {
        bytes[k] = eight_at(table, n, i, at + k);
    }
}

// A byte as the bits of the eight cells from i on.
fn lifted(byte: u8, i: usize) -> u32
    requires { i ≤ 24 }
    ensures { result ≡ byte * 2 ^ i }
{
    (byte as u32) << i
}

// Joins m bytes to the words from `at` on, as the bits of the eight cells from i on.
fn join_eight(words: &mut [u32], at: usize, bytes: &[u8], m: usize, i: usize)
    requires { (i ≤ 24) × (m ≤ length bytes.now) × (at + m ≤ length words.old) }
    ensures { words.new ≡ sets words.old at (list_of (byte_joined words.old at bytes.now i) m) }
{
    for k in 0..m {
        words[at + k] = words[at + k] | lifted(bytes[k], i);
    }
}

// Joins the rows of the eight cells from i on to the words of m positions from `at` on.
fn add_piece(words: &mut [u32], table: &[u8], n: usize, i: usize, at: usize, m: usize)
    requires { (i ≤ 24) × (m ≤ 64) × (at + m ≤ n) × (n ≤ length words.old) × (i * n + 8 * n ≤ length table.now) }
    ensures { words.new ≡ sets words.old at (list_of (λ k. eight_joined n table.now i words.old (at + k)) m) }
{
    let mut bytes = [0u8; 64];
    take_eight(&mut bytes, table, n, i, at, m);
    join_eight(words, at, &bytes, m, i);
}

// Joins the rows of the eight cells from i on to the first n words: by 64 positions, and what is left of them.
fn add_eight(words: &mut [u32], table: &[u8], n: usize, i: usize)
    requires { (i ≤ 24) × (n ≤ length words.old) × (i * n + 8 * n ≤ length table.now) }
    ensures { words.new ≡ sets words.old 0 (list_of (eight_joined n table.now i words.old) n) }
{
    let whole = n / 64;
    for q in 0..whole {
        add_piece(words, table, n, i, 64 * q, 64);
    }
    let at = 64 * whole;
    add_piece(words, table, n, i, at, n - at);
}

// Joins the rows of all the cells to words that are 0, eight rows at a time. The last eight may begin with rows that are joined already.
fn add_eights(words: &mut [u32], table: &[u8], n: usize, cells: usize)
    requires { (8 ≤ cells) × (cells ≤ 32) × (n ≤ length words.old) × (cells * n ≤ length table.now) × Zeros n words.old }
    ensures { words.new ≡ sets words.old 0 (words_of cells n (reserved n table.now)) }
{
    for i in (0..cells).step_by(8) {
        let from = i.min(cells - 8);
        add_eight(words, table, n, from);
    }
}

// The same, row by row.
fn add_rows(words: &mut [u32], table: &[u8], n: usize, cells: usize)
    requires { (cells ≤ 32) × (n ≤ length words.old) × (cells * n ≤ length table.now) × Zeros n words.old }
    ensures { words.new ≡ sets words.old 0 (words_of cells n (reserved n table.now)) }
{
    for i in 0..cells {
        words::add_row(words, table, i * n, n, 1 << i);
    }
}

// Gathers the words of a table of n positions in the first n places: they are cleared, and then the cells' rows are joined to them.
pub fn gather_words(words: &mut [u32], table: &[u8], n: usize, cells: usize)
    requires { (cells ≤ 32) × (n ≤ length words.old) × (cells * n ≤ length table.now) }
    ensures { words.new ≡ sets words.old 0 (words_of cells n (reserved n table.now)) }
{
    words::lay(words, 0, n, 0);
    if (n / 8).min(cells) < 8 {
        add_rows(words, table, n, cells);
        return;
    }
    add_eights(words, table, n, cells);
}

// 1 where a word has cell i, else 0.
fn bit_of(word: u32, i: usize) -> u8
    requires { i < 32 }
    ensures { result ≡ bit (bit_at word i) }
{
    ((word >> i) % 2) as u8
}

// Writes the row of cell i: a byte for each word.
pub fn lay_row(row: &mut [u8], words: &[u32], i: usize)
    requires { (i < 32) × (length row.old ≤ length words.now) }
    ensures { row.new ≡ list_of (λ k. bit (sends_at words.now i k)) (length row.old) }
{
    for k in 0..row.len() {
        row[k] = bit_of(words[k], i);
    }
}

// Writes the rows of all the cells, one after the other.
fn lay_rows(table: &mut [u8], words: &[u32], n: usize, cells: usize)
    requires { (cells ≤ 32) × (n ≤ length words.now) × (cells * n ≤ length table.old) }
    ensures { table.new ≡ bytes_of cells n (sends_at words.now) ++ drop (cells * n) table.old }
{
    for i in 0..cells {
        let from = i * n;
        let to = from + n;
        lay_row(&mut table[from..to], words, i);
    }
}

// The byte that a word has of the eight cells from i on.
fn byte_of(word: u32, i: usize) -> u8
    requires { i < 32 }
    ensures { result ≡ word / 2 ^ i % 256 }
{
    ((word >> i) % 256) as u8
}

// Writes these bytes, one for each word.
// It only looks like `lay_row`, which lays one bit: with the width as an argument of both the shift would be followed by a division.
fn lay_bytes(row: &mut [u8], words: &[u32], i: usize)
    requires { (i < 32) × (length row.old ≤ length words.now) }
    ensures { row.new ≡ list_of (λ k. get_or words.now k 0 / 2 ^ i % 256) (length row.old) }
{
    for k in 0..row.len() {
        row[k] = byte_of(words[k], i);
    }
}

// Bit b of a byte.
fn bit_in(byte: u8, b: usize) -> u8
    requires { b < 8 }
    ensures { result ≡ bit (bit_at byte b) }
{
    (byte >> b) % 2
}

// Writes n bytes from `to` on: bit b of each of the bytes from `at` on, which are past them.
fn lay_bits(rows: &mut [u8], to: usize, at: usize, n: usize, b: usize)
    requires { (b < 8) × (to + n ≤ at) × (at + n ≤ length rows.old) }
    ensures { rows.new ≡ sets rows.old to (list_of (λ k. bit (bit_at (get_or rows.old (at + k) 0) b)) n) }
{
    for k in 0..n {
        rows[to + k] = bit_in(rows[at + k], b);
    }
}

// Leaves bit b of each byte.
fn keep_bits(row: &mut [u8], b: usize)
    requires { b < 8 }
    ensures { row.new ≡ list_of (λ k. bit (sends_at row.old b k)) (length row.old) }
{
    for k in 0..row.len() {
        row[k] = bit_in(row[k], b);
    }
}

// Writes the rows of the cells from i on, at most eight; row `last` is the last. It takes the bytes first, and each row its bit of them.
fn lay_eight(rows: &mut [u8], words: &[u32], n: usize, i: usize, last: usize)
    requires { (last < 8) × (i + last < 32) × (n ≤ length words.now) × (length rows.old ≡ last * n + n) }
    ensures { rows.new ≡ bytes_of (last + 1) n (λ b. sends_at words.now (i + b)) }
{
    let at = last * n;
    let to = at + n;
    lay_bytes(&mut rows[at..to], words, i);
    for b in 0..last {
        lay_bits(rows, b * n, at, n, b);
    }
    keep_bits(&mut rows[at..to], last);
}

// Writes the rows of all the cells, eight at a time.
fn lay_eights(table: &mut [u8], words: &[u32], n: usize, cells: usize)
    requires { (cells ≤ 32) × (n ≤ length words.now) × (cells * n ≤ length table.old) }
    ensures { table.new ≡ bytes_of cells n (sends_at words.now) ++ drop (cells * n) table.old }
{
    for i in (0..cells).step_by(8) {
        let last = 7usize.min(cells - i - 1);
        let from = i * n;
        let to = from + (last * n + n);
        lay_eight(&mut table[from..to], words, n, i, last);
    }
}

// Writes the rows of all the cells, one after the other.
pub fn scatter(table: &mut [u8], words: &[u32], n: usize, cells: usize)
    requires { (cells ≤ 32) × (n ≤ length words.now) × (cells * n ≤ length table.old) }
    ensures { table.new ≡ bytes_of cells n (sends_at words.now) ++ drop (cells * n) table.old }
{
    if n.min(32 * cells) < 64 {
        lay_rows(table, words, n, cells);
        return;
    }
    lay_eights(table, words, n, cells);
}
