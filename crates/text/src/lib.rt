// Texts and numbers written into a lent buffer: each function puts its text at `at` and answers where the next byte goes.
#![tactic(auto)]

ghost use Rattle.std.specs.Prelude.{◌≡◌, ◌+◌, ◌≤◌, ◌<◌, length};
ghost use Rattle.std.proofs.lemmas.List.Edits.{sets};
ghost use Rattle.text.specs.Decimal.{decimal};

// A text as it is.
pub fn put_text(out: &mut [u8], at: usize, text: &[u8]) -> usize
    requires { at + length text.now ≤ length out.old }
    ensures stored { out.new ≡ sets out.old at text.now }
    ensures next { result ≡ at + length text.now }
{
    let end = at + text.len();
    out[at..end].copy_from_slice(text);
    end
}

// A number below a hundred in decimal: one digit, or two.
pub fn put_few(out: &mut [u8], at: usize, x: usize) -> usize
    requires { (x < 100) × (at + length (decimal x) ≤ length out.old) }
    ensures stored { out.new ≡ sets out.old at (decimal x) }
    ensures next { result ≡ at + length (decimal x) }
{
    if x < 10 {
        out[at] = 48 + x as u8;
        return at + 1;
    }
    out[at] = 48 + (x / 10) as u8;
    out[at + 1] = 48 + (x % 10) as u8;
    at + 2
}

// A number in decimal, the highest digit first; two digits at a time.
pub fn put_number(out: &mut [u8], at: usize, x: usize) -> usize
    requires { at + length (decimal x) ≤ length out.old }
    ensures stored { out.new ≡ sets out.old at (decimal x) }
    ensures next { result ≡ at + length (decimal x) }
{
    if x < 100 {
        return put_few(out, at, x);
    }
    let last = put_number(out, at, x / 100);
    out[last] = 48 + (x % 100 / 10) as u8;
    out[last + 1] = 48 + (x % 10) as u8;
    last + 2
}
