// The runs of a row of numbers, and a cell's slots and channels in words: the row has a word of channels for each slot. A function `put_..` puts its text at
// `at` and answers where the next byte goes.
#![tactic(auto)]

ghost use Rattle.std.specs.Prelude.{◌≡◌, ◌&&◌, not, ◌+◌, ◌-◌, ◌/◌, ◌%◌, ◌^◌, ◌≤◌, ◌<◌, eqb, length, get_or};
ghost use Rattle.laws.specs.Bits.{bit_at};
ghost use Rattle.laws.specs.Part.{list_of};
ghost use Rattle.laws.specs.Search.{first};
ghost use Rattle.phrases.specs.Put.{Put};
ghost use Rattle.phrases.specs.Phrases.{phrase};
ghost use Rattle.say_runs.specs.Lines.{run_lines};
ghost use Rattle.say_runs.specs.Runs.{number_before, starts_run, run_stop, run_before};
ghost use Rattle.say_runs.specs.Said.{span_phrase, run_phrase, channel_bits, spans_said, channels_named, channels_head, channels_said, run_said, runs_said};

use phrases::{Phrase, put_phrase};
use words::lowest;

const NUMBERS: usize = 0;

const SLOTS: usize = 4;

const ONE_CHANNEL: usize = 8;

const SOME_CHANNELS: usize = 9;

const ALL_CHANNELS: usize = 10;

// Puts a part of a line.
fn put(out: &mut [u8], at: usize, what: Phrase) -> usize
    requires { at + 130 ≤ length out.old }
    ensures { Put out.old at (phrase run_lines what) 130 out.new result }
{
    put_phrase(
        out,
        at,
        b"@1|\
          @1-@2|\
          +@1|\
          +@1-@2|\
          \x20slot @1|\
          \x20slots @1-@2|\
          , slot @1|\
          , slots @1-@2|\
          \x20channel |\
          \x20channels |\
          \x20all channels|",
        what,
    )
}

// The number before a place.
fn number_before(row: &[u32], i: usize) -> u32
    requires { i < length row.now }
    ensures { result ≡ number_before row.now i }
{
    if i == 0 {
        return 0;
    }
    row[i - 1]
}

// Whether a run starts at a place.
fn starts_run(row: &[u32], i: usize) -> bool
    requires { i < length row.now }
    ensures { result ≡ starts_run row.now i }
{
    let number = row[i];
    if number == 0 {
        return false;
    }
    number_before(row, i) != number
}

// The first place past the run that starts at i.
fn run_end(row: &[u32], i: usize) -> usize
    requires { i < length row.now }
    ensures { (result ≡ run_stop row.now i) × (result ≤ length row.now) }
{
    let number = row[i];
    for j in i + 1..row.len() {
        if row[j] != number {
            return j;
        }
    }
    row.len()
}

// The first place whose number is not 0.
fn first_used(row: &[u32]) -> usize
    ensures { result ≡ first (λ j. not (eqb (get_or row.now j 0) 0)) 0 (length row.now) }
{
    for (j, &number) in row.iter().enumerate() {
        if number != 0 {
            return j;
        }
    }
    row.len()
}

// Whether there is a run.
pub fn some_run(row: &[u32]) -> bool
    ensures { result ≡ run_before row.now (length row.now) }
{
    first_used(row) < row.len()
}

// The places from `from` on and below `end`.
fn span_phrase(rows: usize, on: bool, from: usize, end: usize) -> Phrase
    requires { (rows ≤ 4) × (from < 128) }
    ensures { result ≡ span_phrase rows on from end }
{
    let start = from + 1;
    if on {
        if start == end {
            return Phrase::Row(rows + 2, start, end, 0, 0);
        }
        return Phrase::Row(rows + 3, start, end, 0, 0);
    }
    if start == end {
        return Phrase::Row(rows, start, end, 0, 0);
    }
    Phrase::Row(rows + 1, start, end, 0, 0)
}

// The run that starts at a place.
fn run_phrase(rows: usize, row: &[u32], i: usize) -> Phrase
    requires { (rows ≤ 4) × (i < length row.now) × (length row.now ≤ 128) }
    ensures { result ≡ run_phrase rows row.now i }
{
    if !starts_run(row, i) {
        return Phrase::Silent;
    }
    let on = first_used(row) < i;
    let end = run_end(row, i);
    span_phrase(rows, on, i, end)
}

// The numbers of the places that are not 0, runs joined. A row has at most 16, and each takes at most 6 bytes.
fn put_numbers(out: &mut [u8], at: usize, row: &[u32]) -> usize
    requires { (length row.now ≤ 16) × (at + 226 ≤ length out.old) }
    ensures { Put out.old at (spans_said row.now) 96 out.new result }
{
    let mut next = at;
    for i in 0..row.len() {
        next = put(out, next, run_phrase(NUMBERS, row, i));
    }
    next
}

// A bit of a word.
fn bit_in(word: u32, f: usize) -> u32
    requires { f < 32 }
    ensures { result ≡ word / 2 ^ f % 2 }
{
    (word >> f) % 2
}

// The bits of a word.
fn lay_bits(bits: &mut [u32], word: u32)
    requires { length bits.old ≤ 16 }
    ensures { bits.new ≡ list_of (λ f. word / 2 ^ f % 2) (length bits.old) }
{
    for f in 0..bits.len() {
        bits[f] = bit_in(word, f);
    }
}

// The channels of a word, runs joined.
fn put_set(out: &mut [u8], at: usize, word: u32) -> usize
    requires { at + 226 ≤ length out.old }
    ensures { Put out.old at (spans_said (channel_bits word)) 96 out.new result }
{
    let mut bits = [0u32; 16];
    lay_bits(&mut bits, word);
    put_numbers(out, at, &bits)
}

// Whether a word has all of so many channels, and no other.
fn has_all(channels: usize, word: u32) -> bool
    requires { channels ≤ 16 }
    ensures { result ≡ eqb word (2 ^ channels - 1) }
{
    word == (1u32 << channels) - 1
}

// Whether a word has one channel.
fn has_one(word: u32) -> bool
    ensures { result ≡ eqb (2 ^ first (bit_at word) 0 16) word }
{
    let f = lowest(word, 0, 16);
    (1u32 << f) == word
}

// How the channels are named.
fn channels_phrase(channels: usize, word: u32) -> Phrase
    requires { channels ≤ 16 }
    ensures { result ≡ channels_head channels word }
{
    if channels == 1 {
        return Phrase::Silent;
    }
    if has_all(channels, word) {
        return Phrase::Row(ALL_CHANNELS, 0, 0, 0, 0);
    }
    if has_one(word) {
        return Phrase::Row(ONE_CHANNEL, 0, 0, 0, 0);
    }
    Phrase::Row(SOME_CHANNELS, 0, 0, 0, 0)
}

// Whether their numbers are said.
fn channels_named(channels: usize, word: u32) -> bool
    requires { channels ≤ 16 }
    ensures { result ≡ channels_named channels word }
{
    if channels == 1 {
        return false;
    }
    !has_all(channels, word)
}

// The channels of a word.
fn put_channels(out: &mut [u8], at: usize, channels: usize, word: u32) -> usize
    requires { (channels ≤ 16) × (at + 356 ≤ length out.old) }
    ensures { Put out.old at (channels_said channels word) 226 out.new result }
{
    let first = put(out, at, channels_phrase(channels, word));
    if !channels_named(channels, word) {
        return first;
    }
    put_set(out, first, word)
}

// The run that starts at a slot.
fn put_run(out: &mut [u8], at: usize, channels: usize, row: &[u32], slot: usize) -> usize
    requires { (channels ≤ 16) × (slot < length row.now) × (length row.now ≤ 128) × (at + 486 ≤ length out.old) }
    ensures { Put out.old at (run_said channels row.now slot) 356 out.new result }
{
    let first = put(out, at, run_phrase(SLOTS, row, slot));
    if !starts_run(row, slot) {
        return first;
    }
    put_channels(out, first, channels, row[slot])
}

// The runs of a row, which has a word of channels for each slot.
pub fn put_runs(out: &mut [u8], at: usize, channels: usize, row: &[u32]) -> usize
    requires { (channels ≤ 16) × (length row.now ≤ 128) × (at + 45698 ≤ length out.old) }
    ensures { Put out.old at (runs_said channels row.now) 45568 out.new result }
{
    let mut next = at;
    for slot in 0..row.len() {
        next = put_run(out, next, channels, row, slot);
    }
    next
}
