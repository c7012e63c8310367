// Why a line of a range sheet is bad, where that can be told: the first byte of the line that cannot stand there.
#![tactic(auto)]

ghost use Rattle.std.specs.Prelude.{◌≡◌, ◌+◌, ◌≤◌, ◌<◌, length, drop};
ghost use Rattle.linefaults.specs.Fault.{after_lines, first_field, number_after, seen_after, field_after, is_word};
ghost use Rattle.linefaults.specs.Fault.{is_mark, odd_byte, empty_at, comma_at};
ghost use Rattle.linefaults.specs.Fault.{cr_at, lf_at, mark_fault, is_zero, number_at, content_at, fault_at, end_fault};
ghost use Rattle.linefaults.specs.Fault.{fault_from, head_fault, cell_fault, fault_of_line};

use lines::{eat_text, read_head};

const COMMA: u8 = 44;

const CR: u8 = 13;

const LF: u8 = 10;

// Why a line is bad, with the character of the line or the column where it is.
#[derive(Clone, Copy)]
pub enum LineFault {
    // The sheet ends before this line.
    Missing,
    // A line too many.
    Extra,
    // A mark of the byte order.
    OrderMark,
    // A semicolon, a tab, a quote or a blank, at this character.
    Semicolon(usize),
    Tab(usize),
    Quote(usize),
    Blank(usize),
    // The line ends in LF alone.
    FeedAlone,
    // The sheet ends in the midst of the line.
    NoEnd,
    // The number in this column begins with a 0, or is above 65,535, or is no number.
    LeadingZero(usize),
    OverLarge(usize),
    NoNumber(usize),
    // The mark in this column is neither 0 nor 1.
    NoMark(usize),
    // The line ends after this column.
    FewFields(usize),
    // This column is one too many.
    ManyFields(usize),
    // A CR that no LF follows, before this character.
    LoneCr(usize),
}

// How many bytes of a field there are.
#[derive(Clone, Copy, PartialEq)]
enum Seen {
    Nothing,
    One,
    More,
}

// Where a byte stands: its column, how many bytes of the field came before it, their number, and the byte before it.
// The byte before is no kind: it is the byte itself, as the theorem `linefaults/Sound`: `walked-last` says it, and 0 at the beginning of the line.
#[derive(Clone, Copy)]
struct Field {
    pub column: usize,
    pub seen: Seen,
    pub value: usize,
    pub last: u8,
}

// Where the line after so many line ends begins.
fn line_start(s: &[u8], ends: usize) -> usize
    ensures inside { result ≤ length s.now }
    ensures start { drop result s.now ≡ after_lines ends s.now }
{
    let mut left = ends;
    for (i, &byte) in s.iter().enumerate() {
        if left == 0 {
            return i;
        }
        if byte == LF {
            left -= 1;
        }
    }
    s.len()
}

// The number of a field, with one byte more.
#[tactic(auto, unfolding(crate::specs::Fault::number_after))]
fn number_after(v: usize, b: u8) -> usize
    ensures { result ≡ number_after v b }
{
    if 6553 < v {
        return 65536;
    }
    if b < 48 {
        return 10 * v;
    }
    10 * v + (b as usize - 48)
}

// How many bytes of a field there are, with one more.
fn seen_after(seen: Seen) -> Seen
    ensures { result ≡ seen_after seen }
{
    if seen == Seen::Nothing {
        return Seen::One;
    }
    Seen::More
}

// Where the next byte stands.
#[tactic(auto, unfolding(crate::specs::Fault::field_after))]
fn step_after(f: Field, b: u8) -> Field
    requires { f.column < 18446744073709551615 }
    ensures value { result ≡ field_after f b }
    ensures column_bound { result.column ≤ f.column + 1 }
{
    if b == COMMA {
        return Field {
            column: f.column + 1,
            seen: Seen::Nothing,
            value: 0,
            last: b,
        };
    }
    let seen = seen_after(f.seen);
    let value = number_after(f.value, b);
    Field {
        column: f.column,
        seen,
        value,
        last: b,
    }
}

// Whether the byte is in a word of the first line.
#[tactic(auto, unfolding(crate::specs::Fault::is_word))]
fn is_word(fields: usize, f: Field) -> bool
    ensures { result ≡ is_word fields f }
{
    if fields != 0 {
        return false;
    }
    f.column <= 2
}

// Whether the byte is in a mark.
#[tactic(auto, unfolding(crate::specs::Fault::is_mark))]
fn is_mark(fields: usize, f: Field) -> bool
    ensures { result ≡ is_mark fields f }
{
    if fields == 0 {
        return false;
    }
    3 <= f.column
}

// What a byte tells by itself.
#[tactic(auto, unfolding(crate::specs::Fault::odd_byte))]
fn odd_byte(at: usize, b: u8) -> Option<LineFault>
    ensures { result ≡ odd_byte at b }
{
    if b == 59 {
        return Some(LineFault::Semicolon(at));
    }
    if b == 9 {
        return Some(LineFault::Tab(at));
    }
    if b == 34 {
        return Some(LineFault::Quote(at));
    }
    if b == 32 {
        return Some(LineFault::Blank(at));
    }
    None
}

// A field that ends with nothing in it.
#[tactic(auto, unfolding(crate::specs::Fault::empty_at))]
fn empty_at(fields: usize, f: Field) -> Option<LineFault>
    ensures { result ≡ empty_at fields f }
{
    if f.seen != Seen::Nothing {
        return None;
    }
    if is_mark(fields, f) {
        return Some(LineFault::NoMark(f.column));
    }
    if is_word(fields, f) {
        return None;
    }
    Some(LineFault::NoNumber(f.column))
}

// A comma.
#[tactic(auto, unfolding(crate::specs::Fault::comma_at))]
fn comma_at(fields: usize, f: Field) -> Option<LineFault>
    requires { f.column < 18446744073709551615 }
    ensures { result ≡ comma_at fields f }
{
    if f.column == fields {
        return Some(LineFault::ManyFields(f.column + 1));
    }
    empty_at(fields, f)
}

// A CR.
#[tactic(auto, unfolding(crate::specs::Fault::cr_at))]
fn cr_at(fields: usize, f: Field) -> Option<LineFault>
    ensures { result ≡ cr_at fields f }
{
    if f.column < fields {
        return Some(LineFault::FewFields(f.column));
    }
    empty_at(fields, f)
}

// An LF.
#[tactic(auto, unfolding(crate::specs::Fault::lf_at))]
fn lf_at(f: Field) -> Option<LineFault>
    ensures { result ≡ lf_at f }
{
    if f.last == CR {
        return None;
    }
    Some(LineFault::FeedAlone)
}

// A byte of a mark.
#[tactic(auto, unfolding(crate::specs::Fault::mark_fault))]
fn mark_at(f: Field, b: u8) -> Option<LineFault>
    ensures { result ≡ mark_fault f b }
{
    if f.seen != Seen::Nothing {
        return Some(LineFault::NoMark(f.column));
    }
    if b == 48 {
        return None;
    }
    if b == 49 {
        return None;
    }
    Some(LineFault::NoMark(f.column))
}

// Whether a field is a lone 0.
#[tactic(auto, unfolding(crate::specs::Fault::is_zero))]
fn is_zero(f: Field) -> bool
    ensures { result ≡ is_zero f }
{
    if f.seen != Seen::One {
        return false;
    }
    f.value == 0
}

// A byte of a number.
#[tactic(auto, unfolding(crate::specs::Fault::number_at))]
fn number_at(f: Field, b: u8) -> Option<LineFault>
    ensures { result ≡ number_at f b }
{
    if b < 48 {
        return Some(LineFault::NoNumber(f.column));
    }
    if 57 < b {
        return Some(LineFault::NoNumber(f.column));
    }
    if is_zero(f) {
        return Some(LineFault::LeadingZero(f.column));
    }
    let value = number_after(f.value, b);
    if 65535 < value {
        return Some(LineFault::OverLarge(f.column));
    }
    None
}

// A byte of a field.
#[tactic(auto, unfolding(crate::specs::Fault::content_at))]
fn content_at(fields: usize, at: usize, f: Field, b: u8) -> Option<LineFault>
    ensures { result ≡ content_at fields at f b }
{
    let odd = odd_byte(at, b);
    if odd.is_some() {
        return odd;
    }
    if is_word(fields, f) {
        return None;
    }
    if is_mark(fields, f) {
        return mark_at(f, b);
    }
    number_at(f, b)
}

// What a byte tells.
#[tactic(auto, unfolding(crate::specs::Fault::fault_at))]
fn fault_at(fields: usize, at: usize, f: Field, b: u8) -> Option<LineFault>
    requires { f.column < 18446744073709551615 }
    ensures { result ≡ fault_at fields at f b }
{
    if b == LF {
        return lf_at(f);
    }
    if f.last == CR {
        return Some(LineFault::LoneCr(at));
    }
    if b == COMMA {
        return comma_at(fields, f);
    }
    if b == CR {
        return cr_at(fields, f);
    }
    content_at(fields, at, f, b)
}

// The end of the sheet.
#[tactic(auto, unfolding(crate::specs::Fault::end_fault))]
fn end_at(at: usize) -> LineFault
    ensures { result ≡ end_fault at }
{
    if at == 1 {
        return LineFault::Missing;
    }
    LineFault::NoEnd
}

// What the line that begins at `from` tells.
fn fault_from(s: &[u8], from: usize, fields: usize) -> Option<LineFault>
    requires { from ≤ length s.now }
    ensures { result ≡ fault_from fields 1 first_field (drop from s.now) }
{
    let mut f = Field {
        column: 1,
        seen: Seen::Nothing,
        value: 0,
        last: 0,
    };
    let rest = &s[from..];
    for (i, &byte) in rest.iter().enumerate() {
        let x = fault_at(fields, i + 1, f, byte);
        if x.is_some() {
            return x;
        }
        if byte == LF {
            return None;
        }
        f = step_after(f, byte);
    }
    Some(end_at(rest.len() + 1))
}

// What the first line tells.
fn head_fault(s: &[u8]) -> Option<LineFault>
    ensures { result ≡ head_fault s.now }
{
    let at = eat_text(s, 0, b"\xEF\xBB\xBF");
    if at == 3 {
        return Some(LineFault::OrderMark);
    }
    fault_from(s, 0, 0)
}

// What a cell's line tells, on a sheet of so many cells.
#[tactic(auto, unfolding(crate::specs::Fault::cell_fault))]
fn cell_fault(s: &[u8], cells: usize, line: usize) -> Option<LineFault>
    requires { (cells ≤ 32) × (0 < line) }
    ensures { result ≡ cell_fault cells s.now line }
{
    if cells == 0 {
        return None;
    }
    if cells + 1 < line {
        return Some(LineFault::Extra);
    }
    let from = line_start(s, line - 1);
    fault_from(s, from, cells + 2)
}

// Why a line, from 1, of a sheet is bad, where it can be told.
#[tactic(auto, unfolding(crate::specs::Fault::fault_of_line))]
pub fn fault_of_line(sheet: &[u8], line: usize) -> Option<LineFault>
    ensures { result ≡ fault_of_line sheet.now line }
{
    if line <= 1 {
        return head_fault(sheet);
    }
    let h = read_head(sheet);
    let cells = h.cells;
    cell_fault(sheet, cells, line)
}
