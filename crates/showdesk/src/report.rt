// The parts of a report, which the script puts together: the head of the page, and what a command printed, escaped, between two rows of the page. What is
// written is made by proved functions, piece by piece; here it is only written, by way of `reply`.
ghost use Rattle.std.specs.Prelude.{◌≤◌, ◌<◌, length};

use arguments::{NUMBERS, number};
use escaping::{put_escaped, whole_part};
use infiles::site_of;
use reply::result;

// Of a part, the row before its text and the row after it; 0 for none.
const BEFORE: usize = 4;

const AFTER: usize = 5;

// The most bytes of a piece: escaped, it has at most six times as many, which the buffer holds.
const PIECE: usize = 10000;

// The most bytes of a name.
const NAME: usize = 1024;

// How much of a text is its next piece.
fn next_piece(text: &[u8]) -> usize
    requires { 0 < length text.now }
    ensures some { 0 < result }
    ensures inside { result ≤ length text.now }
    ensures few { result ≤ 10000 }
{
    if text.len() <= PIECE {
        return text.len();
    }
    whole_part(&text[..PIECE])
}

// A text, escaped, piece by piece; whether it was written.
fn put_pieces(rt: &HostRuntime, input: &[u8], text: &mut [u8]) -> bool
    requires { 65536 ≤ length text.old }
{
    let mut from = 0;
    // Where a piece ends depends on the text.
    while from < input.len() {
        let rest = &input[from..];
        let n = next_piece(rest);
        let end = put_escaped(text, 0, &rest[..n]);
        if !result(rt, text, end) {
            return false;
        }
        from += n;
    }
    true
}

// A row of the page, or nothing; whether it was written.
fn put_row(rt: &HostRuntime, row: u16, text: &mut [u8]) -> bool
    requires { 65536 ≤ length text.old }
{
    if row == 0 {
        return true;
    }
    let end = say_report::put_report_row(text, 0, row as usize);
    result(rt, text, end)
}

// A row, the input escaped, a row; whether they were written.
fn put_part(rt: &HostRuntime, input: &[u8], text: &mut [u8]) -> bool
    requires { 65536 ≤ length text.old }
{
    if !put_row(rt, number(rt, BEFORE), text) {
        return false;
    }
    if !put_pieces(rt, input, text) {
        return false;
    }
    put_row(rt, number(rt, AFTER), text)
}

// The head of the page: a name, argument 4, and the size of the site.
pub fn run_report_head(rt: &HostRuntime, input: &[u8], text: &mut [u8])
    requires { 65536 ≤ length text.old }
{
    let Some(site) = site_of(rt, input, text) else {
        return;
    };
    let mut name = [0u8; NAME];
    let n = arguments::put(rt, NUMBERS, &mut name);
    let end = say_report::put_report_head(text, 0, &name[..n], site);
    reply::yes(rt, text, end);
}

// A part of the page.
pub fn run_report_part(rt: &HostRuntime, input: &[u8], text: &mut [u8])
    requires { 65536 ≤ length text.old }
{
    if !put_part(rt, input, text) {
        reply::unwritten(rt);
        return;
    }
    reply::fine(rt);
}
