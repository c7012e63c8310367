// The name of a file as a field of a comma-separated sheet, written into a lent buffer at `at`. The answer is where the next byte goes.
#![tactic(auto)]

ghost use Rattle.std.specs.Prelude.{◌≡◌, ◌||◌, [], ◌∷◌, ◌+◌, ◌*◌, ◌≤◌, length};
ghost use Rattle.phrases.specs.Put.{Put};
ghost use Rattle.quoting.specs.Names.{breaks_field, has_break, twice, doubled, in_quotes, quoted_name};

use phrases::put_byte;
use text::put_text;

const QUOTE: u8 = 34;

// Whether a byte is a comma, a quote, or of a line's end.
#[tactic(auto, unfolding(crate::specs::Names::breaks_field))]
fn is_break(byte: u8) -> bool
    ensures { result ≡ breaks_field byte }
{
    matches!(byte, b',' | QUOTE | b'\r' | b'\n')
}

// One or the other.
fn either(a: bool, b: bool) -> bool
    ensures { result ≡ (a || b) }
{
    a || b
}

// Whether a name has such a byte.
fn has_break(name: &[u8]) -> bool
    ensures { result ≡ has_break name.now }
{
    let mut any = false;
    for &byte in name {
        any = either(any, is_break(byte));
    }
    any
}

// A byte of a name in quotes: a quote stands twice.
fn put_twice(out: &mut [u8], at: usize, byte: u8) -> usize
    requires { at + 2 ≤ length out.old }
    ensures { Put out.old at (twice byte) 2 out.new result }
{
    if byte == QUOTE {
        let next = put_byte(out, at, byte);
        return put_byte(out, next, byte);
    }
    put_byte(out, at, byte)
}

// The bytes of a name in quotes.
fn put_doubled(out: &mut [u8], at: usize, name: &[u8]) -> usize
    requires { at + 2 * length name.now ≤ length out.old }
    ensures { Put out.old at (doubled name.now) (2 * length name.now) out.new result }
{
    let mut next = at;
    for &byte in name {
        next = put_twice(out, next, byte);
    }
    next
}

// A name in quotes.
fn put_quoted(out: &mut [u8], at: usize, name: &[u8]) -> usize
    requires { at + 2 * length name.now + 2 ≤ length out.old }
    ensures { Put out.old at (in_quotes name.now) (2 * length name.now + 2) out.new result }
{
    let next = put_byte(out, at, QUOTE);
    let next = put_doubled(out, next, name);
    put_byte(out, next, QUOTE)
}

// The name of a file as a field: in quotes where it has a comma, a quote or a line's end.
pub fn put_name(out: &mut [u8], at: usize, name: &[u8]) -> usize
    requires { at + 2 * length name.now + 2 ≤ length out.old }
    ensures { Put out.old at (quoted_name name.now) (2 * length name.now + 2) out.new result }
{
    if has_break(name) {
        return put_quoted(out, at, name);
    }
    put_text(out, at, name)
}
