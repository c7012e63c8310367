// What a file is, by its first bytes; and the sentence after its name that says so, where another one was asked for. A function of text puts it at `at` and
// answers where the next byte goes.
#![tactic(auto)]

ghost use Rattle.std.specs.Prelude.{◌≡◌, ◌+◌, ◌≤◌, length};
ghost use Rattle.lines.specs.Match.{starts};
ghost use Rattle.phrases.specs.Put.{Put};
ghost use Rattle.phrases.specs.Phrases.{phrase};
ghost use Rattle.inputs.specs.Files.{by_kind, ruled_head, house_file, input_of};
ghost use Rattle.inputs.specs.Lines.{input_lines};
ghost use Rattle.inputs.specs.Said.{input_number, found_phrase, asked_phrase, other_said, file_said};

use lines::{NOWHERE, eat_text};
use phrases::{Phrase, put_phrase};
use records::two_bytes;

const PLAIN: usize = 0;

const IS_SITE_FILE: usize = 1;

const IS_PLAN_FILE: usize = 2;

const IS_RANGE_SHEET: usize = 3;

const IS_FLOW_SHEET: usize = 4;

const ASK_SITE_FILE: usize = 5;

const ASK_PLAN_FILE: usize = 6;

const ASK_RANGE_SHEET: usize = 7;

const ASK_FLOW_SHEET: usize = 8;

// The product's files, and any other.
#[derive(Clone, Copy)]
pub enum Input {
    SiteFile,
    PlanFile,
    RangeSheet,
    FlowSheet,
    Other,
}

// Whether the bytes start with a text.
fn begins(s: &[u8], text: &[u8]) -> bool
    ensures { result ≡ starts text.now s.now }
{
    let end = eat_text(s, 0, text);
    if end == NOWHERE {
        return false;
    }
    true
}

// The file whose second record is of this kind.
fn by_kind(kind: u16) -> Input
    ensures { result ≡ by_kind kind }
{
    if kind == 2 {
        return Input::SiteFile;
    }
    if kind == 4 {
        return Input::PlanFile;
    }
    Input::Other
}

// Whether the head is of kind 5, with which a rule 2 site file begins.
fn ruled(s: &[u8]) -> bool
    requires { 14 ≤ length s.now }
    ensures { result ≡ ruled_head s.now }
{
    let length = two_bytes(s, 0);
    if length != 10 {
        return false;
    }
    let kind = two_bytes(s, 2);
    kind == 5
}

// A site file or a plan file: a head, and the kind of the record after it.
fn house_file(s: &[u8]) -> Input
    ensures { result ≡ house_file s.now }
{
    if s.len() < 14 {
        return Input::Other;
    }
    if ruled(s) {
        return Input::SiteFile;
    }
    let length = two_bytes(s, 0);
    if length != 8 {
        return Input::Other;
    }
    let kind = two_bytes(s, 2);
    if kind != 1 {
        return Input::Other;
    }
    by_kind(two_bytes(s, 12))
}

// Which file it is.
pub fn input_of(s: &[u8]) -> Input
    ensures { result ≡ input_of s.now }
{
    if begins(s, b"cell,load") {
        return Input::RangeSheet;
    }
    if begins(s, b"cell,burst,period,repeats,value") {
        return Input::FlowSheet;
    }
    house_file(s)
}

// The number of a file in their list; 0 for any other.
fn number_of(input: Input) -> usize
    ensures { result ≡ input_number input }
{
    match input {
        Input::SiteFile => 1,
        Input::PlanFile => 2,
        Input::RangeSheet => 3,
        Input::FlowSheet => 4,
        Input::Other => 0,
    }
}

// Puts a row of the table, or nothing.
fn put(out: &mut [u8], at: usize, what: Phrase) -> usize
    requires { at + 500 ≤ length out.old }
    ensures { Put out.old at (phrase input_lines what) 500 out.new result }
{
    put_phrase(
        out,
        at,
        b": |\
          \x20is a site file; |\
          \x20is a plan file; |\
          \x20is a range sheet; |\
          \x20is a sheet of flows; |\
          a site file is asked for: |\
          a plan file is asked for: |\
          a range sheet is asked for: |\
          a sheet of flows is asked for: |",
        what,
    )
}

// What a file is.
fn found_phrase(input: Input) -> Phrase
    ensures { result ≡ found_phrase input }
{
    match input {
        Input::SiteFile => Phrase::Row(IS_SITE_FILE, 0, 0, 0, 0),
        Input::PlanFile => Phrase::Row(IS_PLAN_FILE, 0, 0, 0, 0),
        Input::RangeSheet => Phrase::Row(IS_RANGE_SHEET, 0, 0, 0, 0),
        Input::FlowSheet => Phrase::Row(IS_FLOW_SHEET, 0, 0, 0, 0),
        Input::Other => Phrase::Silent,
    }
}

// What was asked for. No twin of `found_phrase`: two tables from a file to its row, and the one plus four would say it less plainly.
fn asked_phrase(input: Input) -> Phrase
    ensures { result ≡ asked_phrase input }
{
    match input {
        Input::SiteFile => Phrase::Row(ASK_SITE_FILE, 0, 0, 0, 0),
        Input::PlanFile => Phrase::Row(ASK_PLAN_FILE, 0, 0, 0, 0),
        Input::RangeSheet => Phrase::Row(ASK_RANGE_SHEET, 0, 0, 0, 0),
        Input::FlowSheet => Phrase::Row(ASK_FLOW_SHEET, 0, 0, 0, 0),
        Input::Other => Phrase::Silent,
    }
}

// Both.
fn put_other(out: &mut [u8], at: usize, found: Input, asked: Input) -> usize
    requires { at + 1000 ≤ length out.old }
    ensures { Put out.old at (other_said found asked) 1000 out.new result }
{
    let middle = put(out, at, found_phrase(found));
    put(out, middle, asked_phrase(asked))
}

// What is said after the name of a file: what it is, where its bytes show another than the one asked for.
pub fn put_file(out: &mut [u8], at: usize, found: Input, asked: Input) -> usize
    requires { at + 1000 ≤ length out.old }
    ensures { Put out.old at (file_said found asked) 1000 out.new result }
{
    let a = number_of(found);
    let b = number_of(asked);
    if a == 0 {
        return put(out, at, Phrase::Row(PLAIN, 0, 0, 0, 0));
    }
    if a == b {
        return put(out, at, Phrase::Row(PLAIN, 0, 0, 0, 0));
    }
    put_other(out, at, found, asked)
}
