// Kind 6 of a site file: the blocked positions, a bit for each position, read and written.
#![tactic(auto)]

ghost use Rattle.std.specs.Prelude.{◌≡◌, ◌+◌, ◌*◌, ◌≤◌, ◌<◌, length, get_or};
ghost use Rattle.std.proofs.lemmas.List.Edits.{sets};
ghost use Rattle.laws.specs.Part.{list_of};
ghost use Rattle.positions.specs.Blocked.{most_positions, word_in};
ghost use Rattle.blockbits.specs.Blocks.{bit_stated, blocked_of_body, block_byte, block_record};
ghost use Rattle.blockbits.specs.Loop.{no_blocks, blocks_read};

use positions::none_blocked;
use records::{Length, Refusal, left_over, open, opened_answer, put_start, refuse};

// The blocked positions of a kind 6 record; or none beside the refusal.
#[derive(Clone, Copy)]
pub struct BlocksRead {
    pub blocked: [u64; 32],
    pub answer: Result<(), Refusal>,
}

// Word j of the set that a kind 6 body states: its bytes from 8 j on, the first with weight 1.
fn word_of(body: &[u8], j: usize) -> u64
    requires { j < 32 }
    ensures { result ≡ word_in (bit_stated body.now) j }
{
    let mut v: u64 = 0;
    for i in (0..8).rev() {
        v = v * 256 + byte_at(body, 8 * j + i) as u64;
    }
    v
}

// A byte of a body; 0 past its end.
fn byte_at(body: &[u8], k: usize) -> u8
    ensures value { result ≡ get_or body.now k 0 }
    ensures upper_bound { result < 256 }
{
    if k < body.len() {
        return body[k];
    }
    0
}

// The set that a kind 6 body states: no word past the body is looked at.
fn set_of(body: &[u8]) -> [u64; 32]
    requires { length body.now ≤ 256 }
    ensures { result ≡ blocked_of_body body.now }
{
    let mut set = [0u64; 32];
    let words = (body.len() + 7) / 8;
    for j in 0..words {
        set[j] = word_of(body, j);
    }
    set
}

// A refusal, and no blocked positions.
fn no_blocks(answer: Result<(), Refusal>) -> BlocksRead
    ensures { result ≡ no_blocks answer }
{
    BlocksRead {
        blocked: [0u64; 32],
        answer,
    }
}

// Kind 6, which any byte at `at` makes due, for n positions, and nothing after it: 14, then 21, then 12.
pub fn read_blocks(s: &[u8], at: usize, n: usize) -> BlocksRead
    requires { n ≤ most_positions }
    ensures { result ≡ blocks_read s.now at n }
{
    if s.len() <= at {
        return no_blocks(Ok(()));
    }
    let m = (n + 7) / 8;
    let o = open(s, at, 6, Length::Exact((2 + m) as u16));
    let Ok((start, len)) = o else {
        return no_blocks(opened_answer(o));
    };
    let end = start + len;
    if left_over(&s[start..end], n) {
        return no_blocks(Err(refuse(14, at)));
    }
    let blocked = set_of(&s[start..end]);
    if none_blocked(&blocked) {
        return no_blocks(Err(refuse(21, at)));
    }
    if end < s.len() {
        return no_blocks(Err(refuse(12, end)));
    }
    BlocksRead {
        blocked,
        answer: Ok(()),
    }
}

// The byte of the positions 8 j to 8 j + 7.
fn block_byte(set: &[u64; 32], j: usize) -> u8
    requires { j < 256 }
    ensures { result ≡ block_byte set.now j }
{
    ((set[j / 8] >> (8 * (j % 8))) % 256) as u8
}

// How many bytes kind 6 takes: none where nothing is blocked.
pub fn blocks_len(set: &[u64; 32], n: usize) -> usize
    requires { n ≤ most_positions }
    ensures value { result ≡ length (block_record set.now n) }
    ensures upper_bound { result ≤ 300 }
{
    if none_blocked(set) {
        return 0;
    }
    4 + (n + 7) / 8
}

// The bytes of m times eight positions.
fn put_bits(out: &mut [u8], at: usize, set: &[u64; 32], m: usize)
    requires { (m ≤ 256) × (at + m ≤ length out.old) }
    ensures { out.new ≡ sets out.old at (list_of (block_byte set.now) m) }
{
    for j in 0..m {
        out[at + j] = block_byte(set, j);
    }
}

// Kind 6, from `at` on; nothing where `need` says that it takes no bytes.
pub fn put_blocks(out: &mut [u8], at: usize, set: &[u64; 32], n: usize, need: usize)
    requires { (n ≤ most_positions) × (need ≡ length (block_record set.now n)) × (at + need ≤ length out.old) }
    ensures { out.new ≡ sets out.old at (block_record set.now n) }
{
    if need == 0 {
        return;
    }
    let m = (n + 7) / 8;
    put_start(out, at, (2 + m) as u16, 6);
    put_bits(out, at + 4, set, m);
}
