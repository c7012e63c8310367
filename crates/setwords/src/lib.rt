// One word of 64 positions, of a set of positions: what two words share, what either has, what one has and the other has not, and the first of its positions.
#![tactic(auto)]

ghost use Rattle.std.specs.Prelude.{◌≡◌, ◌&&◌, ◌||◌, not, ltb};
ghost use Rattle.laws.specs.Bits.{bit_at, word_of};
ghost use Rattle.laws.specs.Choice.{pick};
ghost use Rattle.laws.specs.Few.{first_few};
ghost use Rattle.laws.specs.Sum.{count};

use positions::bits_in;

// The positions that two words share.
pub fn shared(x: u64, y: u64) -> u64
    ensures { result ≡ word_of (λ b. bit_at x b && bit_at y b) 64 }
{
    x & y
}

// The positions that either word has.
// The loops over whole sets in `positions` join words without it: they ask only whether anything is left, and this says which bits.
pub fn either(x: u64, y: u64) -> u64
    ensures { result ≡ word_of (λ b. bit_at x b || bit_at y b) 64 }
{
    x | y
}

// The positions that the first word has and the second has not.
pub fn without(x: u64, y: u64) -> u64
    ensures { result ≡ word_of (λ b. bit_at x b && not (bit_at y b)) 64 }
{
    x & !y
}

// The first l positions of a word; all where it has no more. Else the first l are cleared from a copy, one by one, and what is left of it is taken away.
#[tactic(auto, using(crate::proofs::Firsts::few_laws))]
pub fn first_few(x: u64, l: usize) -> u64
    ensures { result ≡ word_of (first_few (bit_at x) l) 64 }
{
    if bits_in(x) <= l {
        return x;
    }
    let mut rest = x;
    for _ in 0..l {
        rest = rest & (rest - 1);
    }
    without(x, rest)
}

// The word as it is.
pub fn kept_word(x: u64) -> u64
    ensures { result ≡ word_of (bit_at x) 64 }
{
    x
}

// How many positions one of two words has and the other has not.
pub fn differing(x: u64, y: u64) -> usize
    ensures { result ≡ count (λ b. pick (bit_at y b) (not (bit_at x b)) (bit_at x b)) 64 }
{
    bits_in(x ^ y)
}

// The word of the first m positions, all where m is 64 or more.
pub fn low_word(m: usize) -> u64
    ensures { result ≡ word_of (λ b. ltb b m) 64 }
{
    if m < 64 {
        return (1u64 << m) - 1;
    }
    18446744073709551615
}
