// 32 rows of 32 bits, turned over: bit b of row a becomes bit a of row b.
// Five stages, each of which trades one digit of a bit's place for one digit of its row.
// And the row that has its lowest bits.
#![tactic(auto)]

ghost use Rattle.std.specs.Prelude.{◌≡◌, ◌+◌, ◌-◌, ◌*◌, ◌/◌, ◌%◌, ◌^◌, ◌≤◌, ◌<◌, length};
ghost use Rattle.laws.specs.Bits.{bit_at, bit_in, word_of};
ghost use Rattle.laws.specs.Part.{list_of};
ghost use Rattle.square.specs.Turned.{turned, turned_fours};
ghost use Rattle.square.specs.Stage.{low_of, high_of, crossed};
ghost use Rattle.square.specs.Fours.{mixed_of, traded_of, inner_of};

// x with the mask's bits of y, moved up by m, in their new places.
fn low(x: u32, y: u32, m: u32, mask: u32) -> u32
    requires { m < 32 }
    ensures { result ≡ low_of m mask x y }
{
    x ^ ((((x >> m) ^ y) & mask) << m)
}

// y with the bits of x that stand m above the mask's, moved down by m, in the mask's places.
fn high(x: u32, y: u32, m: u32, mask: u32) -> u32
    requires { m < 32 }
    ensures { result ≡ high_of m mask x y }
{
    y ^ (((x >> m) ^ y) & mask)
}

// One stage: rows i and i + 16 make rows 2 i and 2 i + 1. There are 16 pairs; the number is written by m, so that the compiler puts each stage in its place,
// with its own numbers, before it unrolls the loop: that halves the time.
fn stage(from: &[u32; 32], to: &mut [u32; 32], m: u32, mask: u32)
    requires { (0 < m) × (m < 32) × (16 / m * m ≡ 16) × (length to.old ≡ 32) }
    ensures { to.new ≡ list_of (crossed m mask from.now) 32 }
{
    let pairs = (16 / m * m) as usize;
    for i in 0..pairs {
        let x = from[i];
        let y = from[i + 16];
        to[2 * i] = low(x, y, m, mask);
        to[2 * i + 1] = high(x, y, m, mask);
    }
}

// Row a has bit b where row b of what was given has bit a.
pub fn turned(rows: [u32; 32]) -> [u32; 32]
    ensures { result ≡ turned rows }
{
    let mut a = [0; 32];
    let mut b = [0; 32];
    stage(&rows, &mut b, 16, 0x0000FFFF);
    stage(&b, &mut a, 8, 0x00FF00FF);
    stage(&a, &mut b, 4, 0x0F0F0F0F);
    stage(&b, &mut a, 2, 0x33333333);
    stage(&a, &mut b, 1, 0x55555555);
    b
}

// x with the bits of y where the mask has a bit.
fn mixed(x: u64, y: u64, mask: u64) -> u64
    ensures { result ≡ mixed_of mask x y }
{
    x ^ ((x ^ y) & mask)
}

// x with bits of y, moved down by d, where `down` has a bit, and moved up by d, where `up` has one.
fn traded(x: u64, y: u64, d: u32, down: u64, up: u64) -> u64
    requires { d < 64 }
    ensures { result ≡ traded_of d down up x y }
{
    mixed(mixed(x, y >> d, down), y << d, up)
}

// The first 16 bits of four rows, from row k on, in one word.
fn four_rows(rows: &[u32; 32], k: usize) -> u64
    requires { k + 3 < 32 }
    ensures { result ≡ word_of (λ q. bit_in rows.now (k + q / 16) (q % 16)) 64 }
{
    let a = (rows[k] % 65536) as u64;
    let b = (rows[k + 1] % 65536) as u64;
    let c = (rows[k + 2] % 65536) as u64;
    let d = (rows[k + 3] % 65536) as u64;
    a + b * 65536 + c * 4294967296 + d * 281474976710656
}

// Two digits of a bit's place in a word of four rows are traded for the two digits of its row.
fn inner(x: u64) -> u64
    ensures { result ≡ inner_of x }
{
    let y = traded(x, x, 30, 0x00000000CCCCCCCC, 0x3333333300000000);
    traded(y, y, 15, 0x0000AAAA0000AAAA, 0x5555000055550000)
}

// The first 16 rows of 16 bits, turned over, four to a word: no row is stored on the way, so that it takes a fourth of the time of all 32.
pub fn turned_fours(rows: &[u32; 32]) -> [u64; 4]
    ensures { result ≡ turned_fours rows.now }
{
    let a = four_rows(rows, 0);
    let b = four_rows(rows, 4);
    let c = four_rows(rows, 8);
    let d = four_rows(rows, 12);
    let e = traded(a, c, 8, 0, 0xFF00FF00FF00FF00);
    let f = traded(b, d, 8, 0, 0xFF00FF00FF00FF00);
    let g = traded(c, a, 8, 0x00FF00FF00FF00FF, 0);
    let h = traded(d, b, 8, 0x00FF00FF00FF00FF, 0);
    let i = inner(traded(e, f, 4, 0, 0xF0F0F0F0F0F0F0F0));
    let j = inner(traded(f, e, 4, 0x0F0F0F0F0F0F0F0F, 0));
    let k = inner(traded(g, h, 4, 0, 0xF0F0F0F0F0F0F0F0));
    let l = inner(traded(h, g, 4, 0x0F0F0F0F0F0F0F0F, 0));
    [i, j, k, l]
}

// Row i of a word of four.
pub fn row_in(word: u64, i: usize) -> u32
    requires { i < 4 }
    ensures { result ≡ word_of (λ b. bit_at word (16 * i + b)) 16 }
{
    ((word >> (16 * i)) % 65536) as u32
}

// The row with its n lowest bits and no other.
pub fn low_bits(n: usize) -> u32
    requires { n ≤ 32 }
    ensures { result ≡ 2 ^ n - 1 }
{
    ((1u64 << n) - 1) as u32
}
