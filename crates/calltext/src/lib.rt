// An answer of any call in words, laid into a lent output: the text, or the bytes that it needs.
#![tactic(auto)]

ghost use Rattle.std.specs.Prelude.{◌≡◌};
ghost use Rattle.records.specs.Write.{written, laid_over};
ghost use Rattle.say_answers.specs.Said.{call_said};

use records::WriteError;
use say_answers::put_call;
use text::put_text;

// A text laid into the output, where there is room for it.
// It only looks like `tidying::lay`: each answers with an error of its own.
fn lay_text(text: &[u8], out: &mut [u8]) -> Result<usize, WriteError>
    ensures answer { result ≡ written text.now out.old }
    ensures out { out.new ≡ laid_over text.now out.old }
{
    let need = text.len();
    if out.len() < need {
        return Err(WriteError::OutShort(need));
    }
    put_text(out, 0, text);
    Ok(need)
}

// The answer of a call, by its number in the header: the number given back and its values.
pub fn call_text(
    call: usize,
    number: usize,
    a: usize,
    b: usize,
    c: usize,
    out: &mut [u8],
) -> Result<usize, WriteError>
    ensures answer { result ≡ written (call_said call number a b c) out.old }
    ensures out { out.new ≡ laid_over (call_said call number a b c) out.old }
{
    let mut text = [0u8; 2048];
    let n = put_call(&mut text, 0, call, number, a, b, c);
    lay_text(&text[..n], out)
}
