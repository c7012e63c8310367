// A range sheet as spreadsheets write it, made into the form of the format byte by byte, and what was changed.
#![tactic(auto)]

ghost use Rattle.std.specs.Prelude.{◌≡◌, true, ◌+◌, ◌≤◌, ◌<◌, length, take};
ghost use Rattle.std.proofs.lemmas.List.Edits.{sets};
ghost use Rattle.cleaning.specs.Clean.{is_separator, separator_in, next_column, spoiled, on_blank, quoted, on_quote, is_reach, is_late, on_content, mend_of};
ghost use Rattle.cleaning.specs.Clean.{comma_change, on_separator, on_cr, first_spot, line_spot, fed, on_lf, after_cr, on_field, step_of, is_fresh};
ghost use Rattle.cleaning.specs.Clean.{end_of, byte_out, out_of, begins, cleaned};
ghost use Rattle.cleaning.specs.Kept.{Kept};
ghost use Rattle.cleaning.specs.Fields.{is_plain, content_of, empty_of, empty_field, quoted_field, bare_field, field_at};
ghost use Rattle.cleaning.specs.Fields.{field_step, begins_field, next_field, Stepped};
ghost use Rattle.cleaning.specs.Clean.{makes, noted, line_after, unchanged, mark_change, changes_of};

const COMMA: u8 = 44;

const CR: u8 = 13;

const LF: u8 = 10;

const QUOTE: u8 = 34;

const BLANK: u8 = 32;

// The changes by their numbers.
pub const MARK_DROPPED: u8 = 1;

pub const COMMA_PUT: u8 = 2;

pub const END_MADE: u8 = 3;

pub const QUOTE_DROPPED: u8 = 4;

pub const BLANK_DROPPED: u8 = 5;

pub const ZERO_PUT: u8 = 6;

pub const ONE_PUT: u8 = 7;

pub const END_ADDED: u8 = 8;

// The quotes of a field.
#[derive(Clone, Copy, PartialEq)]
pub enum Quotes {
    Unquoted,
    Open,
    Closed,
}

// The content of a field: none, some, or some and then a blank.
#[derive(Clone, Copy, PartialEq)]
pub enum Content {
    Empty,
    Filled,
    Spaced,
}

// Where a byte stands: the column (3 in the first line; then 2, 1, 0: number, load, mark), the quotes and the content of its field, and whether a CR has ended
// the line.
#[derive(Clone, Copy)]
pub struct Standing {
    pub column: u8,
    pub quotes: Quotes,
    pub content: Content,
    pub ended: bool,
}

// The spot after a byte, the bytes that are written for it (0 is none), and what was changed (0 is nothing).
// The bytes are no Options: a byte 0 of the sheet is written as none too (`specs/Clean`: `byte_out`), so that 0 says none in either form.
// The change is no enum: its number is the row of its sentence (`say_sheets/Lines`: `tidy_lines`), and `say_sheets` counts through the numbers in their order.
#[derive(Clone, Copy)]
pub struct Step {
    pub spot: Standing,
    pub mend: u8,
    pub byte: u8,
    pub feed: u8,
    pub change: u8,
}

// How often a change was made, and in which line first.
#[derive(Clone, Copy)]
pub struct Tidied {
    pub times: usize,
    pub line: usize,
}

// Whether fields can be parted by b.
#[tactic(auto, unfolding(crate::specs::Clean::is_separator))]
fn is_separator(b: u8) -> bool
    ensures { result ≡ is_separator b }
{
    if b == 44 {
        return true;
    }
    if b == 59 {
        return true;
    }
    b == 9
}

// What parts the fields of the sheet.
fn separator(s: &[u8]) -> u8
    ensures { result ≡ separator_in s.now }
{
    for &byte in s {
        if is_separator(byte) {
            return byte;
        }
    }
    COMMA
}

// The column after a separator.
#[tactic(auto, unfolding(crate::specs::Clean::next_column))]
fn next_column(c: u8) -> u8
    ensures { result ≡ next_column c }
{
    if c == 3 {
        return 3;
    }
    if c == 0 {
        return 0;
    }
    c - 1
}

// A byte that cannot be tidied.
fn spoil(p: Standing, b: u8) -> Step
    ensures { result ≡ spoiled p b }
{
    Step {
        spot: p,
        mend: QUOTE,
        byte: b,
        feed: 0,
        change: 0,
    }
}

// A blank.
#[tactic(auto, unfolding(crate::specs::Clean::on_blank))]
fn on_blank(p: Standing) -> Step
    ensures { result ≡ on_blank p }
{
    let mut spot = p;
    spot.ended = false;
    if spot.content == Content::Filled {
        spot.content = Content::Spaced;
    }
    Step {
        spot,
        mend: 0,
        byte: 0,
        feed: 0,
        change: BLANK_DROPPED,
    }
}

// A quote that is dropped.
fn drop_quote(p: Standing, quotes: Quotes) -> Step
    ensures { result ≡ quoted p quotes }
{
    let spot = Standing {
        column: p.column,
        quotes,
        content: p.content,
        ended: false,
    };
    Step {
        spot,
        mend: 0,
        byte: 0,
        feed: 0,
        change: QUOTE_DROPPED,
    }
}

// A quote.
#[tactic(auto, unfolding(crate::specs::Clean::on_quote))]
fn on_quote(p: Standing) -> Step
    ensures { result ≡ on_quote p }
{
    if p.quotes == Quotes::Open {
        return drop_quote(p, Quotes::Closed);
    }
    if p.quotes != Quotes::Unquoted {
        return spoil(p, QUOTE);
    }
    if p.content != Content::Empty {
        return spoil(p, QUOTE);
    }
    drop_quote(p, Quotes::Open)
}

// Whether b is an x that stands for a mark.
#[tactic(auto, unfolding(crate::specs::Clean::is_reach))]
fn is_reach(p: Standing, b: u8) -> bool
    ensures { result ≡ is_reach p b }
{
    if p.column != 0 {
        return false;
    }
    if p.content != Content::Empty {
        return false;
    }
    if b == 120 {
        return true;
    }
    b == 88
}

// Whether b cannot be content here.
#[tactic(auto, unfolding(crate::specs::Clean::is_late))]
fn is_late(p: Standing, b: u8) -> bool
    ensures { result ≡ is_late p b }
{
    if b == 0 {
        return true;
    }
    if p.quotes == Quotes::Closed {
        return true;
    }
    p.content == Content::Spaced
}

// A byte of a field's content.
#[tactic(auto, unfolding(crate::specs::Clean::on_content))]
fn on_content(p: Standing, b: u8) -> Step
    ensures { result ≡ on_content p b }
{
    if is_late(p, b) {
        return spoil(p, b);
    }
    let spot = Standing {
        column: p.column,
        quotes: p.quotes,
        content: Content::Filled,
        ended: false,
    };
    if is_reach(p, b) {
        return Step {
            spot,
            mend: 0,
            byte: 49,
            feed: 0,
            change: ONE_PUT,
        };
    }
    Step {
        spot,
        mend: 0,
        byte: b,
        feed: 0,
        change: 0,
    }
}

// What is written where a field ends.
#[tactic(auto, unfolding(crate::specs::Clean::mend_of))]
fn mend_of(p: Standing) -> u8
    ensures { result ≡ mend_of p }
{
    if p.quotes == Quotes::Open {
        return QUOTE;
    }
    if p.column != 0 {
        return 0;
    }
    if p.content != Content::Empty {
        return 0;
    }
    48
}

// The change that a separator is.
#[tactic(auto, unfolding(crate::specs::Clean::comma_change))]
fn separator_change(sep: u8) -> u8
    ensures { result ≡ comma_change sep }
{
    if sep == COMMA {
        return 0;
    }
    COMMA_PUT
}

// A separator.
#[tactic(auto, unfolding(crate::specs::Clean::on_separator))]
fn on_separator(sep: u8, p: Standing) -> Step
    ensures { result ≡ on_separator sep p }
{
    let column = next_column(p.column);
    let mend = mend_of(p);
    let change = separator_change(sep);
    let spot = Standing {
        column,
        quotes: Quotes::Unquoted,
        content: Content::Empty,
        ended: false,
    };
    Step {
        spot,
        mend,
        byte: COMMA,
        feed: 0,
        change,
    }
}

// A CR that ends a line.
#[tactic(auto, unfolding(crate::specs::Clean::on_cr))]
fn on_cr(p: Standing) -> Step
    ensures { result ≡ on_cr p }
{
    let mend = mend_of(p);
    let spot = Standing {
        column: p.column,
        quotes: Quotes::Unquoted,
        content: Content::Empty,
        ended: true,
    };
    Step {
        spot,
        mend,
        byte: CR,
        feed: 0,
        change: 0,
    }
}

// The spot where a cell's line begins.
fn line_spot() -> Standing
    ensures { result ≡ line_spot }
{
    Standing {
        column: 2,
        quotes: Quotes::Unquoted,
        content: Content::Empty,
        ended: false,
    }
}

// The LF after a CR.
fn feed(change: u8) -> Step
    ensures { result ≡ fed change }
{
    let spot = line_spot();
    Step {
        spot,
        mend: 0,
        byte: LF,
        feed: 0,
        change,
    }
}

// A line's end that has no CR.
#[tactic(auto, unfolding(crate::specs::Clean::on_lf))]
fn on_lf(p: Standing, change: u8) -> Step
    ensures { result ≡ on_lf p change }
{
    let mend = mend_of(p);
    let spot = line_spot();
    Step {
        spot,
        mend,
        byte: CR,
        feed: LF,
        change,
    }
}

// A byte after a CR.
#[tactic(auto, unfolding(crate::specs::Clean::after_cr))]
fn after_cr(p: Standing, b: u8) -> Step
    ensures { result ≡ after_cr p b }
{
    if b == LF {
        return feed(0);
    }
    spoil(p, b)
}

// A byte that is neither a separator nor in a line's end.
#[tactic(auto, unfolding(crate::specs::Clean::on_field))]
fn on_field(p: Standing, b: u8) -> Step
    ensures { result ≡ on_field p b }
{
    if b == BLANK {
        return on_blank(p);
    }
    if b == QUOTE {
        return on_quote(p);
    }
    if b == COMMA {
        return spoil(p, b);
    }
    on_content(p, b)
}

// A byte at its spot.
#[tactic(auto, unfolding(crate::specs::Clean::step_of))]
fn step_of(sep: u8, p: Standing, b: u8) -> Step
    ensures { result ≡ step_of sep p b }
{
    if p.ended {
        return after_cr(p, b);
    }
    if b == sep {
        return on_separator(sep, p);
    }
    if b == LF {
        return on_lf(p, END_MADE);
    }
    if b == CR {
        return on_cr(p);
    }
    on_field(p, b)
}

// Whether nothing of a line stands there yet.
#[tactic(auto, unfolding(crate::specs::Clean::is_fresh))]
fn is_fresh(p: Standing) -> bool
    ensures { result ≡ is_fresh p }
{
    if p.column != 2 {
        return false;
    }
    if p.quotes != Quotes::Unquoted {
        return false;
    }
    if p.content != Content::Empty {
        return false;
    }
    !p.ended
}

// What is written where the sheet ends.
#[tactic(auto, unfolding(crate::specs::Clean::end_of))]
fn end_of(p: Standing) -> Step
    ensures { result ≡ end_of p }
{
    if is_fresh(p) {
        let spot = line_spot();
        return Step {
            spot,
            mend: 0,
            byte: 0,
            feed: 0,
            change: 0,
        };
    }
    if p.ended {
        return feed(END_ADDED);
    }
    on_lf(p, END_ADDED)
}

// Where the sheet begins: after the mark of the byte order.
fn begin(s: &[u8]) -> usize
    ensures value { result ≡ begins s.now }
    ensures upper_bound { result ≤ 3 }
{
    let at = lines::eat_text(s, 0, b"\xEF\xBB\xBF");
    if at == 3 {
        return 3;
    }
    0
}

// A byte, unless it is 0, where there is room for it.
fn put_byte(out: &mut [u8], at: usize, b: u8) -> usize
    requires { at ≤ length out.old }
    ensures { Kept out.old at (byte_out b) out.new result }
{
    if b == 0 {
        return at;
    }
    if out.len() <= at {
        return at;
    }
    out[at] = b;
    at + 1
}

// The bytes of a step.
fn put_step(out: &mut [u8], at: usize, s: Step) -> usize
    requires { at ≤ length out.old }
    ensures { Kept out.old at (out_of s) out.new result }
{
    let a = put_byte(out, at, s.mend);
    let b = put_byte(out, a, s.byte);
    put_byte(out, b, s.feed)
}

// Some bytes of the sheet taken at once: the step that they make together, and how many they are.
#[derive(Clone, Copy)]
struct Taken {
    pub step: Step,
    pub count: usize,
}

// A field that is one byte or none, with its quotes and its separator: how many bytes that are, and what is written for its content.
#[derive(Clone, Copy)]
struct Field {
    pub count: usize,
    pub content: u8,
}

// Whether b is content in every column: neither a separator nor a blank, a quote or a byte of a line's end.
#[tactic(auto, unfolding(crate::specs::Fields::is_plain))]
fn is_plain(b: u8) -> bool
    ensures { result ≡ is_plain b }
{
    if b < 48 {
        return false;
    }
    b != 59
}

// What is written for the content b of a field.
#[tactic(auto, unfolding(crate::specs::Fields::content_of))]
fn content_of(column: u8, b: u8) -> u8
    ensures { result ≡ content_of column b }
{
    if column != 0 {
        return b;
    }
    if b == 120 {
        return 49;
    }
    if b == 88 {
        return 49;
    }
    b
}

// What is written for a field without content.
#[tactic(auto, unfolding(crate::specs::Fields::empty_of))]
fn empty_of(column: u8) -> u8
    ensures { result ≡ empty_of column }
{
    if column == 0 {
        return 48;
    }
    0
}

// A field without content, after its quotes: the byte c.
#[tactic(auto, unfolding(crate::specs::Fields::empty_field))]
fn empty_field(sep: u8, column: u8, c: u8) -> Option<Field>
    ensures { result ≡ empty_field sep column c }
{
    if c != sep {
        return None;
    }
    let content = empty_of(column);
    Some(Field { count: 3, content })
}

// A field after its open quote: the bytes b, c and d.
#[tactic(auto, unfolding(crate::specs::Fields::quoted_field))]
fn quoted_field(sep: u8, column: u8, b: u8, c: u8, d: u8) -> Option<Field>
    ensures { result ≡ quoted_field sep column b c d }
{
    if b == QUOTE {
        return empty_field(sep, column, c);
    }
    if !is_plain(b) {
        return None;
    }
    if c != QUOTE {
        return None;
    }
    if d != sep {
        return None;
    }
    let content = content_of(column, b);
    Some(Field { count: 4, content })
}

// A field that begins with a and b, and has no quotes.
#[tactic(auto, unfolding(crate::specs::Fields::bare_field))]
fn bare_field(sep: u8, column: u8, a: u8, b: u8) -> Option<Field>
    ensures { result ≡ bare_field sep column a b }
{
    if !is_plain(a) {
        return None;
    }
    if b != sep {
        return None;
    }
    let content = content_of(column, a);
    Some(Field { count: 2, content })
}

// The field that begins at i.
#[tactic(auto, unfolding(crate::specs::Fields::field_at))]
fn field_at(s: &[u8], i: usize, sep: u8, column: u8) -> Option<Field>
    ensures { result ≡ field_at sep column s.now i }
{
    if s.len() < 4 {
        return None;
    }
    if s.len() - 4 < i {
        return None;
    }
    let a = s[i];
    if a == QUOTE {
        return quoted_field(sep, column, s[i + 1], s[i + 2], s[i + 3]);
    }
    bare_field(sep, column, a, s[i + 1])
}

// The step that a field makes, with its separator.
#[tactic(auto, unfolding(crate::specs::Fields::field_step))]
fn field_step(column: u8, content: u8) -> Step
    ensures { result ≡ field_step column content }
{
    let after = next_column(column);
    let spot = Standing {
        column: after,
        quotes: Quotes::Unquoted,
        content: Content::Empty,
        ended: false,
    };
    Step {
        spot,
        mend: content,
        byte: COMMA,
        feed: 0,
        change: 0,
    }
}

// The byte at i alone.
fn take_one(s: &[u8], i: usize, sep: u8, p: Standing) -> Taken
    requires { i < length s.now }
    ensures { Stepped sep p s.now i result.step result.count }
{
    let step = step_of(sep, p, s[i]);
    Taken { step, count: 1 }
}

// Whether a field begins at a spot.
#[tactic(auto, unfolding(crate::specs::Fields::begins_field))]
fn begins_field(p: Standing) -> bool
    ensures { result ≡ begins_field p }
{
    if p.quotes != Quotes::Unquoted {
        return false;
    }
    if p.content != Content::Empty {
        return false;
    }
    !p.ended
}

// The field that begins at i, where a field begins.
#[tactic(auto, unfolding(crate::specs::Fields::next_field))]
fn next_field(s: &[u8], i: usize, sep: u8, p: Standing) -> Option<Field>
    ensures { result ≡ next_field sep p s.now i }
{
    if !begins_field(p) {
        return None;
    }
    field_at(s, i, sep, p.column)
}

// The field that begins at i, or the byte there alone.
fn take_next(s: &[u8], i: usize, sep: u8, p: Standing) -> Taken
    requires { (i < length s.now) × (is_separator sep ≡ true) }
    ensures { Stepped sep p s.now i result.step result.count }
{
    let Some(field) = next_field(s, i, sep, p) else {
        return take_one(s, i, sep, p);
    };
    let step = field_step(p.column, field.content);
    Taken {
        step,
        count: field.count,
    }
}

// The sheet made into the form of the format, as much of it as the lent memory holds; the answer is how many bytes that is.
pub fn clean(s: &[u8], out: &mut [u8]) -> usize
    ensures stored { out.new ≡ sets out.old 0 (take (length out.old) (cleaned s.now)) }
    ensures size { result ≡ length (take (length out.old) (cleaned s.now)) }
{
    let sep = separator(s);
    let mut spot = first_spot();
    let mut at: usize = 0;
    let mut i = begin(s);
    // A field or a byte alone is taken: the step differs from one to the next.
    while i < s.len() {
        let taken = take_next(s, i, sep, spot);
        let stepped = taken.step;
        at = put_step(out, at, stepped);
        spot = stepped.spot;
        i += taken.count;
    }
    put_step(out, at, end_of(spot))
}

// The spot where the sheet begins.
fn first_spot() -> Standing
    ensures { result ≡ first_spot }
{
    Standing {
        column: 3,
        quotes: Quotes::Unquoted,
        content: Content::Empty,
        ended: false,
    }
}

// Whether a step makes this change.
#[tactic(auto, unfolding(crate::specs::Clean::makes))]
fn makes_change(kind: u8, s: Step) -> bool
    ensures { result ≡ makes kind s }
{
    if kind == 0 {
        return false;
    }
    if s.change == kind {
        return true;
    }
    if kind != ZERO_PUT {
        return false;
    }
    s.mend == 48
}

// A step noted.
#[tactic(auto, unfolding(crate::specs::Clean::noted))]
fn note(kind: u8, s: Step, line: usize, c: Tidied) -> Tidied
    requires { c.times < 18446744073709551615 }
    ensures value { result ≡ noted kind s line c }
    ensures times_bound { result.times ≤ c.times + 1 }
{
    if !makes_change(kind, s) {
        return c;
    }
    if c.times == 0 {
        return Tidied { times: 1, line };
    }
    Tidied {
        times: c.times + 1,
        line: c.line,
    }
}

// The line after a byte.
#[tactic(auto, unfolding(crate::specs::Clean::line_after))]
fn line_after(line: usize, b: u8) -> usize
    requires { line < 18446744073709551615 }
    ensures value { result ≡ line_after line b }
    ensures upper_bound { result ≤ line + 1 }
{
    if b == LF {
        return line + 1;
    }
    line
}

// No change.
fn none_changed() -> Tidied
    ensures { result ≡ unchanged }
{
    Tidied { times: 0, line: 0 }
}

// Whether the mark of the byte order was dropped.
fn mark_change(s: &[u8]) -> Tidied
    ensures { result ≡ mark_change s.now }
{
    let from = begin(s);
    if from == 3 {
        return Tidied { times: 1, line: 1 };
    }
    none_changed()
}

// How often a change, by its number, was made in cleaning the sheet, and in which line first.
pub fn changed_in(s: &[u8], kind: u8) -> Tidied
    ensures { result ≡ changes_of s.now kind }
{
    if kind == MARK_DROPPED {
        return mark_change(s);
    }
    let sep = separator(s);
    let mut spot = first_spot();
    let mut line: usize = 1;
    let mut so_far = none_changed();
    let from = begin(s);
    for &byte in &s[from..] {
        let stepped = step_of(sep, spot, byte);
        so_far = note(kind, stepped, line, so_far);
        line = line_after(line, byte);
        spot = stepped.spot;
    }
    note(kind, end_of(spot), line, so_far)
}
