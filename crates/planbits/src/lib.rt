// The bits of a plan: a file byte holds the bits of eight table bytes. Packed and unpacked by blocks of 32 file bytes, and the rest by file byte.
#![tactic(auto)]

ghost use Rattle.std.specs.Prelude.{◌≡◌, [], ◌∷◌, ◌+◌, ◌-◌, ◌*◌, ◌%◌, ◌^◌, ◌≤◌, ◌<◌, length};
ghost use Rattle.std.proofs.lemmas.List.Edits.{sets};
ghost use Rattle.laws.specs.Part.{Below, list_of};
ghost use Rattle.records.specs.Bits.{bytes_for};
ghost use Rattle.planbits.specs.Bits.{one, bits_from, ones, packed_from};
ghost use Rattle.planbits.specs.Block.{Runs, Joined, half_of};

// Stores the eight bits of x from table index k on.
fn spread(table: &mut [u8], k: usize, x: u8)
    requires { k + 8 ≤ length table.old }
    ensures { table.new ≡ sets table.old k (bits_from (x ∷ []) 0 8) }
{
    table[k] = x % 2;
    table[k + 1] = x / 2 % 2;
    table[k + 2] = x / 4 % 2;
    table[k + 3] = x / 8 % 2;
    table[k + 4] = x / 16 % 2;
    table[k + 5] = x / 32 % 2;
    table[k + 6] = x / 64 % 2;
    table[k + 7] = x / 128 % 2;
}

// The low c bits of a number.
fn low_bits(x: u8, c: usize) -> u8
    requires { c ≤ 4 }
    ensures { result ≡ x % 2 ^ c }
{
    x % (1u8 << c)
}

// Stores n numbers of 2 c bits, from index k on, as 2 n of c bits each, from `at` on, the low half first. The compiler makes vector code of it.
fn part_pairs(out: &mut [u8], at: usize, pairs: &[u8], k: usize, n: usize, c: usize)
    requires { (c ≤ 4) × (k + n ≤ length pairs.now) × (at + 2 * n ≤ length out.old) }
    ensures { out.new ≡ sets out.old at (list_of (half_of c pairs.now k) (2 * n)) }
{
    for i in 0..n {
        let x = pairs[k + i];
        out[at + 2 * i] = low_bits(x, c);
        out[at + 2 * i + 1] = low_bits(x >> c, c);
    }
}

// The bits of 32 bytes of a body, from byte j on, as table bytes. Each pass parts each number into its halves.
fn unpack_block(body: &[u8], table: &mut [u8], j: usize)
    requires { (j + 32 ≤ length body.now) × (8 * j + 256 ≤ length table.old) }
    ensures { table.new ≡ sets table.old (8 * j) (bits_from body.now (8 * j) 256) }
{
    let mut fours = [0u8; 64];
    part_pairs(&mut fours, 0, body, j, 32, 4);
    let mut twos = [0u8; 128];
    part_pairs(&mut twos, 0, &fours, 0, 64, 2);
    part_pairs(table, 8 * j, &twos, 0, 128, 1);
}

// The bits of the first b blocks of a body, 32 bytes each, as table bytes.
fn unpack_blocks(body: &[u8], table: &mut [u8], b: usize)
    requires { (32 * b ≤ length body.now) × (256 * b ≤ length table.old) }
    ensures { table.new ≡ sets table.old 0 (bits_from body.now 0 (256 * b)) }
{
    for j in 0..b {
        unpack_block(body, table, 32 * j);
    }
}

// The bits of a body from byte `from` to m, as table bytes, byte by byte.
fn unpack_whole(body: &[u8], table: &mut [u8], from: usize, m: usize)
    requires { (from ≤ m) × (m ≤ length body.now) × (8 * m ≤ length table.old) }
    ensures { table.new ≡ sets table.old (8 * from) (bits_from body.now (8 * from) (8 * (m - from))) }
{
    for j in from..m {
        spread(table, 8 * j, body[j]);
    }
}

// The bits from table index `from` to n, one by one.
fn unpack_rest(body: &[u8], table: &mut [u8], from: usize, n: usize)
    requires { (from ≤ n) × (n ≤ 8 * length body.now) × (n ≤ length table.old) }
    ensures { table.new ≡ sets table.old from (bits_from body.now from (n - from)) }
{
    for k in from..n {
        let b = k % 8;
        let x = body[k / 8];
        table[k] = (x >> b) % 2;
    }
}

// The first n bits of a body, as table bytes.
pub fn unpack(body: &[u8], table: &mut [u8], n: usize)
    requires { (n ≤ 8 * length body.now) × (n ≤ length table.old) }
    ensures { table.new ≡ sets table.old 0 (bits_from body.now 0 n) }
{
    let b = n / 256;
    unpack_blocks(body, table, b);
    let m = n / 8;
    unpack_whole(body, table, 32 * b, m);
    unpack_rest(body, table, 8 * m, n);
}

// The bit of a table byte.
fn is_one(x: u8) -> u8
    ensures { result ≡ one x }
{
    if x == 1 { 1 } else { 0 }
}

// The number whose bits are four table bytes.
fn four_of(table: &[u8], k: usize) -> u8
    requires { k + 4 ≤ length table.now }
    ensures { result ≡ ones table.now k 4 }
{
    let a = is_one(table[k]);
    let b = is_one(table[k + 1]);
    let c = is_one(table[k + 2]);
    let d = is_one(table[k + 3]);
    a + 2 * b + 4 * c + 8 * d
}

// The file byte of eight table bytes.
fn byte_of(table: &[u8], k: usize) -> u8
    requires { k + 8 ≤ length table.now }
    ensures { result ≡ ones table.now k 8 }
{
    let low = four_of(table, k);
    let high = four_of(table, k + 4);
    low + 16 * high
}

// The file byte of the last table bytes, from index k on; at most eight.
fn last_of(table: &[u8], k: usize) -> u8
    requires { (k ≤ length table.now) × (length table.now ≤ k + 8) }
    ensures { result ≡ ones table.now k 8 }
{
    let mut v: u8 = 0;
    for i in (k..table.len()).rev() {
        let b = is_one(table[i]);
        v = 2 * v + b;
    }
    v
}

// The bits of 256 table bytes, from index k on.
fn take_bits(bits: &mut [u8], table: &[u8], k: usize)
    requires { (k + 256 ≤ length table.now) × (256 ≤ length bits.old) }
    ensures { Runs table.now k 1 256 bits.new }
{
    for i in 0..256 {
        bits[i] = is_one(table[k + i]);
    }
}

// Two numbers of c bits as one of twice as many. Through a word of two bytes, since the compiler reads a run of those at once.
fn joined(low: u8, high: u8, c: usize) -> u8
    requires { (c ≤ 4) × (low < 2 ^ c) × (high < 2 ^ c) }
    ensures { result ≡ low + 2 ^ c * high }
{
    let x = low as u16 + 256 * (high as u16);
    ((x + (x >> (8 - c))) % 256) as u8
}

// 2 n numbers of c bits as n of twice as many, each of two neighbours.
fn join_pairs(out: &mut [u8], pairs: &[u8], n: usize, c: usize)
    requires { (c ≤ 4) × Below (2 ^ c) (2 * n) pairs.now × (2 * n ≤ length pairs.now) × (n ≤ length out.old) }
    ensures { Joined (2 ^ c) n pairs.now out.new }
{
    for i in 0..n {
        out[i] = joined(pairs[2 * i], pairs[2 * i + 1], c);
    }
}

// Stores 32 bytes of the table's bits, from byte j on, at `at + j`. Each pass joins two neighbours, and each is vector code.
fn put_block(out: &mut [u8], at: usize, table: &[u8], j: usize)
    requires { (8 * j + 256 ≤ length table.now) × (at + j + 32 ≤ length out.old) }
    ensures { out.new ≡ sets out.old (at + j) (packed_from table.now (8 * j) 32) }
{
    let mut bits = [0u8; 256];
    take_bits(&mut bits, table, 8 * j);
    let mut twos = [0u8; 128];
    join_pairs(&mut twos, &bits, 128, 1);
    let mut fours = [0u8; 64];
    join_pairs(&mut fours, &twos, 64, 2);
    let mut bytes = [0u8; 32];
    join_pairs(&mut bytes, &fours, 32, 4);
    let from = at + j;
    let to = from + 32;
    out[from..to].copy_from_slice(&bytes);
}

// Stores the first b blocks of the table's bits, 32 bytes each, from `at` on.
fn put_blocks(out: &mut [u8], at: usize, table: &[u8], b: usize)
    requires { (256 * b ≤ length table.now) × (at + 32 * b ≤ length out.old) }
    ensures { out.new ≡ sets out.old at (packed_from table.now 0 (32 * b)) }
{
    for j in 0..b {
        put_block(out, at, table, 32 * j);
    }
}

// Stores the bytes of the table's bits from byte `from` to m, at `at + from` on, one by one.
fn put_rest(table: &[u8], out: &mut [u8], at: usize, from: usize, m: usize)
    requires { (from ≤ m) × (8 * m ≤ length table.now) × (at + m ≤ length out.old) }
    ensures { out.new ≡ sets out.old (at + from) (packed_from table.now (8 * from) (m - from)) }
{
    for j in from..m {
        out[at + j] = byte_of(table, 8 * j);
    }
}

// Stores the first m bytes of the table's bits, from `at` on.
fn put_whole(table: &[u8], out: &mut [u8], at: usize, m: usize)
    requires { (8 * m ≤ length table.now) × (at + m ≤ length out.old) }
    ensures { out.new ≡ sets out.old at (packed_from table.now 0 m) }
{
    let b = m / 32;
    put_blocks(out, at, table, b);
    put_rest(table, out, at, 32 * b, m);
}

// Stores the bits of the whole table, from `at` on.
pub fn put_bits(table: &[u8], out: &mut [u8], at: usize)
    requires { at + bytes_for (length table.now) ≤ length out.old }
    ensures { out.new ≡ sets out.old at (packed_from table.now 0 (bytes_for (length table.now))) }
{
    let m = table.len() / 8;
    put_whole(table, out, at, m);
    if table.len() <= 8 * m {
        return;
    }
    let x = last_of(table, 8 * m);
    out[at + m] = x;
}
