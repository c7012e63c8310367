// The two words of a block of 128 positions, put in the order of the positions. In a block's order, position 16 k + b is bit 8 (b % 8) + k of word b / 8.
// Each word is turned over as a square of 8 rows of 8 bits; then the bytes of both are laid by turns, by halves first.
#![tactic(auto)]

ghost use Rattle.std.specs.Prelude.{◌≡◌, ◌+◌, ◌-◌, ◌*◌, ◌/◌, ◌%◌, ◌<◌, ltb};
ghost use Rattle.laws.specs.Bits.{bit_at, word_of};
ghost use Rattle.laws.specs.Choice.{pick};
ghost use Rattle.blockwords.specs.Trade.{traded};
ghost use Rattle.blockwords.specs.Plain.{turned_from, laced_from, plain_bit};

// Trades the mask's bits for the bits that stand m above them.
fn trade(x: u64, m: u32, mask: u64) -> u64
    requires { m < 64 }
    ensures { result ≡ traded m mask x }
{
    let t = (x ^ (x >> m)) & mask;
    x ^ t ^ (t << m)
}

// The square of 8 rows of 8 bits, turned over.
fn turned_word(x: u64) -> u64
    ensures { result ≡ word_of (λ q. bit_at x (turned_from q)) 64 }
{
    let a = trade(x, 7, 0x00AA00AA00AA00AA);
    let b = trade(a, 14, 0x0000CCCC0000CCCC);
    trade(b, 28, 0x00000000F0F0F0F0)
}

// The four low bytes and the four high bytes, by turns.
fn laced(x: u64) -> u64
    ensures { result ≡ word_of (λ q. bit_at x (laced_from q)) 64 }
{
    let a = trade(x, 16, 0x00000000FFFF0000);
    trade(a, 8, 0x0000FF000000FF00)
}

// The low halves of two words as one.
fn low_halves(x: u64, y: u64) -> u64
    ensures { result ≡ word_of (λ q. pick (ltb q 32) (bit_at x q) (bit_at y (q - 32))) 64 }
{
    x % 4294967296 + 4294967296 * (y % 4294967296)
}

// Their high halves.
fn high_halves(x: u64, y: u64) -> u64
    ensures { result ≡ word_of (λ q. pick (ltb q 32) (bit_at x (q + 32)) (bit_at y q)) 64 }
{
    x / 4294967296 + 4294967296 * (y / 4294967296)
}

// The first 64 positions of a block, by its two words.
pub fn first_plain(low: u64, high: u64) -> u64
    ensures { result ≡ word_of (plain_bit 0 low high) 64 }
{
    laced(low_halves(turned_word(low), turned_word(high)))
}

// The other 64.
// It takes the high halves: one function with the half as an argument would have to choose between the two, so it is no plainer.
pub fn second_plain(low: u64, high: u64) -> u64
    ensures { result ≡ word_of (plain_bit 4 low high) 64 }
{
    laced(high_halves(turned_word(low), turned_word(high)))
}
