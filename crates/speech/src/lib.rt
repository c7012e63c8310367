// A sentence with numbers in it, written into a lent buffer.
#![tactic(auto)]

ghost use Rattle.std.specs.Prelude.{◌≡◌, ◌+◌, ◌*◌, ◌≤◌, ◌<◌, length};
ghost use Rattle.std.proofs.lemmas.List.Edits.{sets};
ghost use Rattle.speech.specs.Speech.{value_of, plural, mark_said, spoken, mark_at};

use text::put_number;

// Whether a place mark begins at i.
fn is_mark(text: &[u8], i: usize) -> bool
    requires { i < length text.now }
    ensures { result ≡ mark_at text.now i }
{
    if i + 1 < text.len() {
        return text[i] == b'@';
    }
    false
}

// The value that a digit stands for.
fn value(a: usize, b: usize, c: usize, d: usize, digit: u8) -> usize
    ensures { result ≡ value_of a b c d digit }
{
    if digit == b'1' {
        return a;
    }
    if digit == b'2' {
        return b;
    }
    if digit == b'3' {
        return c;
    }
    d
}

// Puts the s of a plural: nothing for 1, an s for any other number.
fn put_plural(out: &mut [u8], at: usize, x: usize) -> usize
    requires { at + length (plural x) ≤ length out.old }
    ensures stored { out.new ≡ sets out.old at (plural x) }
    ensures next { result ≡ at + length (plural x) }
{
    if x == 1 {
        return at;
    }
    out[at] = b's';
    at + 1
}

// Puts what a mark stands for: a digit for the value, a letter for the plural of the value.
fn put_mark(out: &mut [u8], at: usize, a: usize, b: usize, c: usize, d: usize, mark: u8) -> usize
    requires { at + length (mark_said a b c d mark) ≤ length out.old }
    ensures stored { out.new ≡ sets out.old at (mark_said a b c d mark) }
    ensures next { result ≡ at + length (mark_said a b c d mark) }
{
    if mark < b'a' {
        return put_number(out, at, value(a, b, c, d, mark));
    }
    put_plural(out, at, value(a, b, c, d, mark - 48))
}

// Puts the text at `at`, with each place mark replaced by its words, and answers where the next byte goes.
pub fn say(out: &mut [u8], at: usize, text: &[u8], a: usize, b: usize, c: usize, d: usize) -> usize
    requires { at + 10 * length text.now ≤ length out.old }
    ensures stored { out.new ≡ sets out.old at (spoken (mark_said a b c d) text.now) }
    ensures next { result ≡ at + length (spoken (mark_said a b c d) text.now) }
    ensures short { result ≤ at + 10 * length text.now }
{
    let mut next = at;
    let mut i = 0;
    // A mark is two bytes long and any other place one, so the step differs.
    while i < text.len() {
        if is_mark(text, i) {
            next = put_mark(out, next, a, b, c, d, text[i + 1]);
            i += 2;
            continue;
        }
        out[next] = text[i];
        next += 1;
        i += 1;
    }
    next
}
