// A text as text of a page, written into a lent buffer: what is in no letter is a ?, and what a page would take for markup is a reference.
#![tactic(auto)]

ghost use Rattle.std.specs.Prelude.{◌≡◌, [], ◌∷◌, ◌+◌, ◌*◌, ◌-◌, ◌≤◌, length, get_or, eqb};
ghost use Rattle.laws.specs.Choice.{pick};
ghost use Rattle.phrases.specs.Put.{Put};
ghost use Rattle.escaping.specs.Letters.{between, is_one, is_tail, second_low, second_top, is_second, third_top, is_third, is_two, is_three, is_four};
ghost use Rattle.escaping.specs.Letters.{letter_size, letter_at, stretch};
ghost use Rattle.escaping.specs.Escaped.{reference, escaped};
ghost use Rattle.escaping.specs.Pieces.{whole_part};

use phrases::put_byte;
use text::put_text;

// At least `low` and below `top`.
fn is_between(low: u8, b: u8, top: u8) -> bool
    ensures { result ≡ between low b top }
{
    if b < low {
        return false;
    }
    b < top
}

// A letter of one byte.
fn is_one(a: u8) -> bool
    ensures { result ≡ is_one a }
{
    if a == 10 {
        return true;
    }
    if a == 9 {
        return true;
    }
    is_between(32, a, 127)
}

// From where on the second byte is one, after the first.
fn second_low(a: u8) -> u8
    ensures { result ≡ second_low a }
{
    if a == 0xC2 {
        return 0xA0;
    }
    if a == 0xE0 {
        return 0xA0;
    }
    if a == 0xF0 {
        return 0x90;
    }
    0x80
}

// Below what it is one.
fn second_top(a: u8) -> u8
    ensures { result ≡ second_top a }
{
    if a == 0xED {
        return 0xA0;
    }
    if a == 0xF4 {
        return 0x90;
    }
    0xC0
}

// The second byte of a letter.
fn is_second(a: u8, b: u8) -> bool
    ensures { result ≡ is_second a b }
{
    is_between(second_low(a), b, second_top(a))
}

// Below what the third byte of three is one.
fn third_top(a: u8, b: u8) -> u8
    ensures { result ≡ third_top a b }
{
    if a == 0xEF {
        if b == 0xBF {
            return 0xBE;
        }
    }
    0xC0
}

// The third byte of three.
fn is_third(a: u8, b: u8, c: u8) -> bool
    ensures { result ≡ is_third a b c }
{
    is_between(0x80, c, third_top(a, b))
}

// A letter of two bytes.
fn is_two(a: u8, b: u8) -> bool
    ensures { result ≡ is_two a b }
{
    if is_between(0xC2, a, 0xE0) {
        return is_second(a, b);
    }
    false
}

// A letter of three bytes.
fn is_three(a: u8, b: u8, c: u8) -> bool
    ensures { result ≡ is_three a b c }
{
    if !is_between(0xE0, a, 0xF0) {
        return false;
    }
    if is_second(a, b) {
        return is_third(a, b, c);
    }
    false
}

// A letter of four bytes.
fn is_four(a: u8, b: u8, c: u8, d: u8) -> bool
    ensures { result ≡ is_four a b c d }
{
    if !is_between(0xF0, a, 0xF5) {
        return false;
    }
    if !is_second(a, b) {
        return false;
    }
    if is_between(0x80, c, 0xC0) {
        return is_between(0x80, d, 0xC0);
    }
    false
}

// How many bytes the letter has that begins with a; 0 where none begins there.
fn letter_size(a: u8, b: u8, c: u8, d: u8) -> usize
    ensures { result ≡ letter_size a b c d }
{
    if is_one(a) {
        return 1;
    }
    if is_two(a, b) {
        return 2;
    }
    if is_three(a, b, c) {
        return 3;
    }
    if is_four(a, b, c, d) {
        return 4;
    }
    0
}

// A byte of a text, 0 past its end.
fn byte_at(text: &[u8], i: usize) -> u8
    ensures { result ≡ get_or text.now i 0 }
{
    if i < text.len() {
        return text[i];
    }
    0
}

// How many bytes of a letter stand here: those that are left of the letter before, or else the letter that begins here.
fn letter_here(left: usize, text: &[u8]) -> usize
    ensures { result ≡ stretch left text.now }
{
    if left == 0 {
        return letter_size(
            byte_at(text, 0),
            byte_at(text, 1),
            byte_at(text, 2),
            byte_at(text, 3),
        );
    }
    left
}

// The byte, or a ? where it is in no letter.
fn letter_byte(size: usize, byte: u8) -> u8
    ensures { result ≡ pick (eqb size 0) 63 byte }
{
    if size == 0 {
        return b'?';
    }
    byte
}

// Puts a byte of a letter: a reference for < > & " and ', and any other as it is.
fn put_reference(out: &mut [u8], at: usize, byte: u8) -> usize
    requires { at + 6 ≤ length out.old }
    ensures { Put out.old at (reference byte) 6 out.new result }
{
    if byte == b'<' {
        return put_text(out, at, b"&lt;");
    }
    if byte == b'>' {
        return put_text(out, at, b"&gt;");
    }
    if byte == b'&' {
        return put_text(out, at, b"&amp;");
    }
    if byte == b'"' {
        return put_text(out, at, b"&quot;");
    }
    if byte == 39 {
        return put_text(out, at, b"&#39;");
    }
    put_byte(out, at, byte)
}

// Puts a text at `at` as text of a page, and answers where the next byte goes.
pub fn put_escaped(out: &mut [u8], at: usize, text: &[u8]) -> usize
    requires { at + 6 * length text.now ≤ length out.old }
    ensures { Put out.old at (escaped text.now) (6 * length text.now) out.new result }
{
    let mut next = at;
    let mut left = 0;
    for (i, &byte) in text.iter().enumerate() {
        let size = letter_here(left, &text[i..]);
        next = put_reference(out, next, letter_byte(size, byte));
        left = size.saturating_sub(1);
    }
    next
}

// A byte that is not the first of a letter.
fn is_tail(byte: u8) -> bool
    ensures { result ≡ is_tail byte }
{
    is_between(0x80, byte, 0xC0)
}

// How much of a text is a piece, where more may come: no letter is cut in two there.
pub fn whole_part(text: &[u8]) -> usize
    ensures part { result ≡ whole_part text.now }
    ensures inside { result ≤ length text.now }
    ensures most { length text.now ≤ result + 3 }
{
    let n = text.len();
    if n < 3 {
        return 0;
    }
    if !is_tail(text[n - 1]) {
        return n - 1;
    }
    if !is_tail(text[n - 2]) {
        return n - 2;
    }
    if !is_tail(text[n - 3]) {
        return n - 3;
    }
    n
}
