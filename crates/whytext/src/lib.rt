// What `duggfrask why` prints of a site as text, laid into a lent output: the text, or the bytes that it needs. The clashes by a third cell may take
// more than a local buffer, so they are made twice, first cell by first cell: first they are measured, then laid.
#![tactic(auto)]

ghost use Rattle.std.specs.Prelude.{◌≡◌, ◌+◌, ◌*◌, ◌≤◌, ◌++◌, length};
ghost use Rattle.std.proofs.lemmas.List.Edits.{sets};
ghost use Rattle.planner.specs.Plan.{plan_table};
ghost use Rattle.records.specs.Write.{written, laid_over};
ghost use Rattle.phrases.specs.Put.{Put};
ghost use Rattle.say_rule.specs.Said.{firsts_said};
ghost use Rattle.whytext.specs.Text.{opening_said, whole_said, why_text, why_written, why_out};

use records::WriteError;
use say_find::{find_why, put_last_line};
use say_numbering::put_anew;
use say_rule::{put_rule, put_thirds};
use say_why::put_why;
use site::Site;
use text::put_text;

// How many bytes the lines of the clashes by a third cell have; `line` is room for those of one first cell.
fn thirds_len(line: &mut [u8], site: Site) -> usize
    requires { 22400 ≤ length line.old }
    ensures { (result ≡ length (firsts_said site 32)) × (result ≤ 716800) }
{
    let mut n = 0;
    for a in 0..32 {
        n += put_thirds(line, 0, site, a);
    }
    n
}

// Lays them from `at` on, and answers where the next byte goes.
fn put_all_thirds(out: &mut [u8], at: usize, line: &mut [u8], site: Site) -> usize
    requires in_bounds { 22400 ≤ length line.old }
    requires site_in_bounds { at + length (firsts_said site 32) ≤ length out.old }
    ensures stored { out.new ≡ sets out.old at (firsts_said site 32) }
    ensures next { result ≡ at + length (firsts_said site 32) }
{
    let mut next = at;
    for a in 0..32 {
        let n = put_thirds(line, 0, site, a);
        next = put_text(out, next, &line[..n]);
    }
    next
}

// What stands before these lines, the lines, and what stands after them, where there is room for all of it.
fn lay_why(opening: &[u8], site: Site, last: &[u8], out: &mut [u8]) -> Result<usize, WriteError>
    requires { (length opening.now ≤ 65536) × (length last.now ≤ 4096) }
    ensures answer { result ≡ written (opening.now ++ (firsts_said site 32 ++ last.now)) out.old }
    ensures out { out.new ≡ laid_over (opening.now ++ (firsts_said site 32 ++ last.now)) out.old }
{
    let mut line = [0u8; 24576];
    let more = thirds_len(&mut line, site);
    let need = opening.len() + more + last.len();
    if out.len() < need {
        return Err(WriteError::OutShort(need));
    }
    let at = put_text(out, 0, opening);
    let end = put_all_thirds(out, at, &mut line, site);
    put_text(out, end, last);
    Ok(need)
}

// What stands before these lines, from the start of `text`, and how long it is.
fn put_opening(site: Site, table: &mut [u8], text: &mut [u8]) -> usize
    requires { (65536 ≤ length table.old) × (65536 ≤ length text.old) }
    ensures text { Put text.old 0 (opening_said site table.old) 61700 text.new result }
    ensures table { table.new ≡ plan_table site table.old }
{
    let first = put_why(site, table, text);
    let second = put_anew(text, first, site);
    put_rule(text, second, site)
}

// All of it, of a site whose record is in order.
fn whole_text(site: Site, out: &mut [u8]) -> Result<usize, WriteError>
    ensures answer { result ≡ written (why_text site) out.old }
    ensures out { out.new ≡ laid_over (why_text site) out.old }
{
    let mut table = [0u8; 65536];
    let mut text = [0u8; 65536];
    let mut last = [0u8; 4096];
    let n = put_opening(site, &mut table, &mut text);
    let found = find_why(site, &mut table);
    let m = put_last_line(&mut last, 0, found);
    lay_why(&text[..n], site, &last[..m], out)
}

// What `duggfrask why` prints of a site: 1, 24, 2, 3, 20, then 13.
#[tactic(auto, unfolding(crate::specs::Text::why_written, crate::specs::Text::why_out))]
pub fn why_text(site: Site, out: &mut [u8]) -> Result<usize, WriteError>
    ensures answer { result ≡ why_written site out.old }
    ensures out { out.new ≡ why_out site out.old }
{
    site.accepted()?;
    whole_text(site, out)
}
