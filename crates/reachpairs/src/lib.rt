// Kind 3 of a site file: the reach pairs, read into reach rows and written from them.
#![tactic(auto)]

ghost use Rattle.std.specs.Prelude.{◌≡◌, [], ◌∷◌, ◌+◌, ◌*◌, ◌≤◌, ◌<◌, length};
ghost use Rattle.std.proofs.lemmas.List.Edits.{sets};
ghost use Rattle.reachpairs.specs.Pairs.{pair_ok, place, all_zero, pair_bytes};
ghost use Rattle.reachpairs.specs.Loop.{pairs_read, reach_read, row_from};

use reachrows::with_bit;
use records::{Length, Refusal, open, put_two, refuse};
use site::within;

// Whether a pair names two different cells of the site.
fn pair_ok(cells: u16, f: u8, t: u8) -> bool
    ensures { result ≡ pair_ok cells f t }
{
    let most = cells as usize;
    if !within(f as usize, most) {
        return false;
    }
    if !within(t as usize, most) {
        return false;
    }
    f != t
}

// The place of a pair; places rise by from, then to.
fn place_of(f: u8, t: u8) -> usize
    requires { (1 ≤ f) × (1 ≤ t) }
    ensures { result ≡ place f t }
{
    (f as usize - 1) * 32 + (t as usize - 1)
}

// No rows: they are what stands beside a refusal.
fn no_rows(reach: &mut [u32; 32])
    requires { length reach.old ≡ 32 }
    ensures { reach.new ≡ all_zero }
{
    for a in 0..32 {
        reach[a] = 0;
    }
}

// The reach rows of a kind 3 body, laid into rows of zeros: each pair 3, then 11, at the record's offset.
fn pairs_of(body: &[u8], cells: u16, at: usize, reach: &mut [u32; 32]) -> Result<(), Refusal>
    requires { (cells ≤ 32) × (reach.old ≡ all_zero) }
    ensures answer { result ≡ (pairs_read cells at body.now).answer }
    ensures rows { reach.new ≡ (pairs_read cells at body.now).reach }
{
    let mut next: usize = 0;
    for i in 0..body.len() / 2 {
        let f = body[2 * i];
        let t = body[2 * i + 1];
        let ok = pair_ok(cells, f, t);
        if !ok {
            no_rows(reach);
            return Err(refuse(3, at));
        }
        let q = place_of(f, t);
        if q < next {
            no_rows(reach);
            return Err(refuse(11, at));
        }
        let a = q / 32;
        let row = with_bit(reach[a], q % 32);
        reach[a] = row;
        next = q + 1;
    }
    Ok(())
}

// Kind 3, due at `at`: its rows, laid into rows of zeros; or none beside the refusal.
#[tactic(auto, using(crate::proofs::ReadLaws::reach_refused, crate::proofs::ReadLaws::pairs_within, crate::proofs::ReadLaws::reach_opened))]
pub fn read_reach(s: &[u8], at: usize, cells: u16, reach: &mut [u32; 32]) -> Result<(), Refusal>
    requires { (cells ≤ 32) × (reach.old ≡ all_zero) }
    ensures answer { result ≡ (reach_read s.now at cells).answer }
    ensures rows { reach.new ≡ (reach_read s.now at cells).reach }
{
    let (start, len) = open(s, at, 3, Length::Pairs)?;
    let end = start + len;
    pairs_of(&s[start..end], cells, at, reach)
}

// How many bytes the pairs of one row take: two for each bit.
fn row_len(row: u32, a: usize) -> usize
    ensures { result ≡ length (row_from row (32 * a) 32) }
{
    2 * (u32::count_ones(row) as usize)
}

// How many bytes the pairs take.
pub fn pairs_len(reach: [u32; 32]) -> usize
    ensures { result ≡ length (pair_bytes reach) }
{
    let mut n: usize = 0;
    for (a, &row) in reach.iter().enumerate() {
        n += row_len(row, a);
    }
    n
}

// The pair of row a and bit b. Gives where the next one goes.
fn put_pair(out: &mut [u8], at: usize, a: usize, b: u32) -> usize
    requires { (a < 32) × (b < 32) × (at + 2 ≤ length out.old) }
    ensures value { result ≡ at + 2 }
    ensures out_after { out.new ≡ sets out.old at ((a + 1) ∷ (b + 1) ∷ []) }
{
    put_two(out, at, (a + 1) as u8, (b + 1) as u8);
    at + 2
}

// The pairs of row a: that of the lowest bit that is left, which is then cleared, until none is.
fn put_row(out: &mut [u8], at: usize, row: u32, a: usize) -> usize
    requires { (a < 32) × (at + length (row_from row (32 * a) 32) ≤ length out.old) }
    ensures value { result ≡ at + length (row_from row (32 * a) 32) }
    ensures out_after { out.new ≡ sets out.old at (row_from row (32 * a) 32) }
{
    let mut k = at;
    let mut left = row;
    // From member to member of a word: no index is counted.
    while left != 0 {
        k = put_pair(out, k, a, u32::trailing_zeros(left));
        left = left & (left - 1);
    }
    k
}

// Stores the pairs of all rows, in rising order, from `at` to `end`. No row past the last pair is looked at.
pub fn put_pairs(out: &mut [u8], at: usize, reach: &[u32; 32], end: usize)
    requires { (end ≡ at + length (pair_bytes reach.now)) × (end ≤ length out.old) }
    ensures { out.new ≡ sets out.old at (pair_bytes reach.now) }
{
    let mut k = at;
    for (a, &row) in reach.iter().enumerate() {
        if k == end {
            return;
        }
        k = put_row(out, k, row, a);
    }
}
