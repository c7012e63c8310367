// A block of a table: 128 neighbouring bytes as two words of 64 bits, a bit for each. Position 16 k + b of a block, for k below 8 and b below 16, is bit
// 8 (b % 8) + k of word b / 8. In this order 16 neighbouring bytes are one bit of 16 neighbouring bytes, so the compiler makes vector code with no shuffle.
#![tactic(auto)]

ghost use Rattle.std.specs.Prelude.{◌≡◌, ◌+◌, ◌*◌, ◌≤◌, ◌<◌, length};
ghost use Rattle.std.proofs.lemmas.List.Edits.{sets};
ghost use Rattle.laws.specs.Bits.{bit_at, word_of};
ghost use Rattle.laws.specs.Choice.{pick};
ghost use Rattle.laws.specs.Part.{list_of};
ghost use Rattle.laws.specs.Search.{first};
ghost use Rattle.theory.specs.Greedy.{sends};
ghost use Rattle.blocks.specs.Order.{low_order, high_order, low_sends, high_sends, bit_of_two, column_at, word_from_bytes, placed, meeting};

// A block's two words.
#[derive(Clone, Copy)]
pub struct Block {
    pub low: u64,
    pub high: u64,
}

// A bit's weight where a byte is a reservation, else 0.
pub fn bits_if(byte: u8, w: u8) -> u8
    ensures { (result ≡ pick (sends byte) w 0) × (result ≤ w) }
{
    if byte == 1 {
        return w;
    }
    0
}

// Eight bytes, each 16 after the one before it, as the bits of one.
fn column(bytes: &[u8], at: usize) -> u8
    requires { at + 113 ≤ length bytes.now }
    ensures { result ≡ column_at bytes.now at }
{
    let a = bits_if(bytes[at], 1);
    let b = bits_if(bytes[at + 16], 2);
    let c = bits_if(bytes[at + 32], 4);
    let d = bits_if(bytes[at + 48], 8);
    let e = bits_if(bytes[at + 64], 16);
    let f = bits_if(bytes[at + 80], 32);
    let g = bits_if(bytes[at + 96], 64);
    let h = bits_if(bytes[at + 112], 128);
    a + b + c + d + e + f + g + h
}

// Stores the 16 columns of a block. One pass over neighbouring bytes without a branch.
fn put_columns(bits: &mut [u8], bytes: &[u8], from: usize)
    requires { (16 ≤ length bits.old) × (from + 128 ≤ length bytes.now) }
    ensures { bits.new ≡ sets bits.old 0 (list_of (λ b. column_at bytes.now (from + b)) 16) }
{
    for b in 0..16 {
        bits[b] = column(bytes, from + b);
    }
}

// Two bytes as a number.
fn pair(low: u8, high: u8) -> u64
    ensures { (result ≡ low + 256 * high) × (result < 65536) }
{
    low as u64 + 256 * (high as u64)
}

// Eight neighbouring bytes as a word.
fn word_of(bytes: &[u8], k: usize) -> u64
    requires { k + 8 ≤ length bytes.now }
    ensures { result ≡ word_from_bytes bytes.now k }
{
    let a = pair(bytes[k], bytes[k + 1]);
    let b = pair(bytes[k + 2], bytes[k + 3]);
    let c = pair(bytes[k + 4], bytes[k + 5]);
    let d = pair(bytes[k + 6], bytes[k + 7]);
    a + 65536 * b + 4294967296 * (c + 65536 * d)
}

// The reservations of 128 bytes, from `from` on.
pub fn block_of(bytes: &[u8], from: usize) -> Block
    requires { from + 128 ≤ length bytes.now }
    ensures low { result.low ≡ word_of (low_sends bytes.now from) 64 }
    ensures high { result.high ≡ word_of (high_sends bytes.now from) 64 }
{
    let mut bits = [0u8; 16];
    put_columns(&mut bits, bytes, from);
    let low = word_of(&bits, 0);
    let high = word_of(&bits, 8);
    Block { low, high }
}

// Four bits of a word, each 16 after the one before it, as the bits of one number.
fn four_bits(word: u64, at: usize) -> u8
    requires { at < 16 }
    ensures { (result ≡ word_of (λ k. bit_at word (at + 16 * k)) 4) × (result < 16) }
{
    let x = word >> at;
    (x % 2 + 2 * ((x >> 16) % 2) + 4 * ((x >> 32) % 2) + 8 * ((x >> 48) % 2)) as u8
}

// Stores the 16 columns of a block whose positions are the bits of two words.
fn put_bit_columns(bits: &mut [u8], x: u64, y: u64)
    requires { 16 ≤ length bits.old }
    ensures { bits.new ≡ sets bits.old 0 (list_of (λ b. word_of (λ k. bit_of_two x y (b + 16 * k)) 8) 16) }
{
    for at in 0..16 {
        bits[at] = four_bits(x, at) + 16 * four_bits(y, at);
    }
}

// The block of the positions that are the bits of two words, one after the other.
pub fn block_of_bits(x: u64, y: u64) -> Block
    ensures low { result.low ≡ word_of (low_order (bit_of_two x y)) 64 }
    ensures high { result.high ≡ word_of (high_order (bit_of_two x y)) 64 }
{
    let mut bits = [0u8; 16];
    put_bit_columns(&mut bits, x, y);
    let low = word_of(&bits, 0);
    let high = word_of(&bits, 8);
    Block {
        low: low,
        high: high,
    }
}

// Whether two blocks share a position: the low words and the high words are held against one another.
pub fn blocks_meet(low: u64, high: u64, x: u64, y: u64) -> bool
    ensures { result ≡ meeting low high x y }
{
    ((low & x) | (high & y)) != 0
}

// Whether a block has position k.
fn has_place(low: u64, high: u64, k: usize) -> bool
    requires { k < 128 }
    ensures { result ≡ placed low high k }
{
    let b = k % 16;
    if b < 8 {
        return (low >> (8 * b + k / 16)) % 2 == 1;
    }
    (high >> (8 * (b - 8) + k / 16)) % 2 == 1
}

// The lowest position of a block; 128 where it has none.
#[tactic(auto, using(laws::proofs::Search::found, laws::proofs::Search::missed, laws::proofs::Search::ended))]
pub fn lowest_place(low: u64, high: u64) -> usize
    ensures { result ≡ first (placed low high) 0 128 }
{
    if (low | high) == 0 {
        return 128;
    }
    for k in 0..128 {
        if has_place(low, high, k) {
            return k;
        }
    }
    128
}
