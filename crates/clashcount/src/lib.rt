// How many clashes a site has: pairs of its cells that clash, spare cells too.
#![tactic(auto)]

ghost use Rattle.std.specs.Prelude.{◌≡◌, ◌≤◌, ◌<◌};
ghost use Rattle.laws.specs.Bits.{bit_at, bit_in};
ghost use Rattle.laws.specs.Sum.{sum, count};
ghost use Rattle.clashcount.specs.Count.{clash_count};

use site::Site;

// How many cells below c a clash row has.
fn lower(row: u32, c: usize) -> usize
    requires { c < 32 }
    ensures { (result ≡ count (bit_at row) c) × (result ≤ 32) }
{
    u32::count_ones(row % (1u32 << c)) as usize
}

// Of each row the cells below its own, all rows together.
fn counted(rows: &[u32; 32]) -> usize
    ensures { result ≡ sum (λ c. count (bit_in rows.now c) c) 32 }
{
    let mut all: usize = 0;
    for c in 0..32 {
        all += lower(rows[c], c);
    }
    all
}

// How many pairs of cells clash. Every pair is counted once, at its higher cell.
pub fn clash_count(site: Site) -> usize
    ensures { result ≡ clash_count site }
{
    let clash = site.clash_rows();
    counted(&clash)
}
