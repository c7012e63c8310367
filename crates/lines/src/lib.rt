// Texts, numbers and lines of a range sheet, met at a place of the input. A cursor is a place; after what is not there it is NOWHERE, where nothing stands.
#![tactic(auto)]

ghost use Rattle.std.specs.Prelude.{◌≡◌, [], ◌∷◌, ◌+◌, ◌-◌, ◌*◌, ◌≤◌, ◌<◌, length, drop, get_or, eqb};
ghost use Rattle.text.specs.Decimal.{decimal};
ghost use Rattle.lines.specs.Match.{eaten};
ghost use Rattle.lines.specs.Content.{more, scanned, number_read, mark_ok, row_of_marks, pair_at, four_in, no_marks, marks_read};
ghost use Rattle.lines.specs.Content.{line_read, columns_read, no_head, head_read};
ghost use Rattle.laws.specs.Sum.{bit};

// No place of any input.
pub const NOWHERE: usize = 18446744073709551615;

const COMMA: u8 = 44;

const CR: u8 = 13;

const LF: u8 = 10;

// What a line of a cell says, and the place after it.
#[derive(Clone, Copy)]
pub struct Line {
    pub load: u16,
    pub row: u32,
    pub next: usize,
}

// The byte b.
pub fn eat(s: &[u8], at: usize, b: u8) -> usize
    ensures { result ≡ eaten s.now at (b ∷ []) }
{
    if s.len() <= at {
        return NOWHERE;
    }
    if s[at] != b {
        return NOWHERE;
    }
    at + 1
}

// A number of any size as the decimal writer writes it.
fn eat_long(s: &[u8], at: usize, x: usize) -> usize
    ensures { result ≡ eaten s.now at (decimal x) }
{
    if x < 10 {
        return eat(s, at, 48 + x as u8);
    }
    let last = eat_long(s, at, x / 10);
    eat(s, last, 48 + (x % 10) as u8)
}

// A number as the decimal writer writes it; one or two digits are eaten without a call of itself.
fn eat_number(s: &[u8], at: usize, x: usize) -> usize
    ensures { result ≡ eaten s.now at (decimal x) }
{
    if 99 < x {
        return eat_long(s, at, x);
    }
    if 9 < x {
        let tens = eat(s, at, 48 + (x / 10) as u8);
        return eat(s, tens, 48 + (x % 10) as u8);
    }
    eat(s, at, 48 + x as u8)
}

// The number whose digits stand at `at`, of any bytes at all: it stops where no digit stands, and after five digits that count.
fn scan(s: &[u8], at: usize) -> usize
    ensures value { result ≡ scanned 0 (drop at s.now) }
    ensures upper_bound { result < 100000 }
{
    let mut v: usize = 0;
    for p in at..s.len() {
        let d = s[p];
        if !is_digit(v, d) {
            return v;
        }
        v = 10 * v + (d as usize - 48);
    }
    v
}

// Whether d is a digit and one more may be taken.
fn is_digit(v: usize, d: u8) -> bool
    ensures { result ≡ more v d }
{
    if 10000 <= v {
        return false;
    }
    if d < 48 {
        return false;
    }
    d <= 57
}

// A number and the place after it; NOWHERE where none stands there that is at most the bound and written without leading zeros.
#[derive(Clone, Copy)]
pub struct Number {
    pub value: usize,
    pub next: usize,
}

// The number at `at`, at most `most`, whatever stands there.
fn read_any(s: &[u8], at: usize, most: usize) -> Number
    ensures { result ≡ number_read s.now at most }
{
    let value = scan(s, at);
    if most < value {
        return Number {
            value,
            next: NOWHERE,
        };
    }
    let next = eat_number(s, at, value);
    Number { value, next }
}

// The digit at `at` that a number can begin with and go on; 0 where there is none.
fn first_digit(s: &[u8], at: usize) -> usize
    ensures upper_bound { result ≤ 9 }
    ensures at_in_bounds { 0 < result → (at < length s.now) × (get_or s.now at 0 ≡ 48 + result) }
{
    if s.len() <= at {
        return 0;
    }
    let d = s[at];
    if d < 49 {
        return 0;
    }
    if 57 < d {
        return 0;
    }
    d as usize - 48
}

// The number whose first digit stands at `at`, and is not 0: its digits are those that the decimal writer gives.
fn read_digits(s: &[u8], at: usize, first: usize) -> Number
    requires { (0 < first) × (first ≤ 9) × (at < length s.now) × (get_or s.now at 0 ≡ 48 + first) }
    ensures value_value { result.value ≡ scanned 0 (drop at s.now) }
    ensures next_value { result.next ≡ eaten s.now at (decimal result.value) }
{
    let mut value = first;
    for next in at + 1..s.len() {
        let d = s[next];
        if !is_digit(value, d) {
            return Number { value, next };
        }
        value = 10 * value + (d as usize - 48);
    }
    Number {
        value,
        next: s.len(),
    }
}

// The number at `at`, at most `most`.
pub fn read_number(s: &[u8], at: usize, most: usize) -> Number
    ensures { result ≡ number_read s.now at most }
{
    let first = first_digit(s, at);
    if first == 0 {
        return read_any(s, at, most);
    }
    let read = read_digits(s, at, first);
    if most < read.value {
        return Number {
            value: read.value,
            next: NOWHERE,
        };
    }
    read
}

// A text as it is.
pub fn eat_text(s: &[u8], at: usize, text: &[u8]) -> usize
    ensures { result ≡ eaten s.now at text.now }
{
    let mut p = at;
    for &byte in text {
        p = eat(s, p, byte);
    }
    p
}

// The row of some marks, and the place after them.
#[derive(Clone, Copy)]
struct Marks {
    pub row: u32,
    pub next: usize,
}

// The bit of a mark.
fn one(x: u8) -> u32
    ensures value { result ≡ bit (eqb x 49) }
    ensures upper_bound { result < 2 }
{
    if x == 49 {
        return 1;
    }
    0
}

// Whether a comma and a mark stand here, and all after them is well.
fn mark_ok(comma: u8, x: u8, ok: bool) -> bool
    ensures { result ≡ mark_ok comma x ok }
{
    if comma != COMMA {
        return false;
    }
    if x == 49 {
        return ok;
    }
    if x == 48 {
        return ok;
    }
    false
}

// The row of the marks from index `from` to n, at most three, the last first; 16 where they are not there.
fn last_marks(s: &[u8], at: usize, from: usize, n: usize) -> u32
    requires { (from ≤ n) × (n ≤ from + 3) × (n ≤ 32) × (at + 2 * n ≤ length s.now) }
    ensures { result ≡ row_of_marks (drop at s.now) from (n - from) }
{
    let mut row: u32 = 0;
    let mut ok = true;
    for b in (from..n).rev() {
        let x = s[at + 2 * b + 1];
        ok = mark_ok(s[at + 2 * b], x, ok);
        row = 2 * row + one(x);
    }
    if ok {
        return row;
    }
    16
}

// Two bytes as a number, the first the lower.
fn two_bytes(s: &[u8], at: usize) -> u64
    requires { at + 2 ≤ length s.now }
    ensures pair { result ≡ pair_at s.now at }
    ensures small { result < 65536 }
    ensures bytes { (get_or s.now at 0 < 256) × (get_or s.now (at + 1) 0 < 256) }
{
    s[at] as u64 + 256 * (s[at + 1] as u64)
}

// Four commas and marks in one word, the first the lowest: their row; 16 where they are no commas and marks.
fn four_in(w: u64) -> u32
    ensures { result ≡ four_in w }
{
    if w & 18374685380143218431 != 3471202379140706348 {
        return 16;
    }
    let y = (w - 3471202379140706348) >> 8;
    ((y + (y >> 15) + (y >> 30) + (y >> 45)) % 16) as u32
}

// The row of four marks from index b on; 16 where they are not there.
fn four_marks(s: &[u8], at: usize, b: usize) -> u32
    requires { at + 2 * b + 8 ≤ length s.now }
    ensures { result ≡ row_of_marks (drop at s.now) b 4 }
{
    let p = at + 2 * b;
    let high = two_bytes(s, p + 4) + 65536 * two_bytes(s, p + 6);
    let low = two_bytes(s, p) + 65536 * two_bytes(s, p + 2);
    four_in(low + 4294967296 * high)
}

// No marks.
fn no_marks() -> Marks
    ensures { result ≡ no_marks }
{
    Marks {
        row: 0,
        next: NOWHERE,
    }
}

// The n marks at `at`, the last first: the last few, then four at a time.
fn read_marks(s: &[u8], at: usize, n: usize) -> Marks
    requires { (0 < n) × (n ≤ 32) }
    ensures { result ≡ marks_read s.now at n }
{
    if s.len() < at {
        return no_marks();
    }
    if s.len() - at < 2 * n {
        return no_marks();
    }
    let fours = n / 4;
    let mut row = last_marks(s, at, 4 * fours, n);
    if row == 16 {
        return no_marks();
    }
    for i in (0..fours).rev() {
        let four = four_marks(s, at, 4 * i);
        if four == 16 {
            return no_marks();
        }
        row = 16 * row + four;
    }
    Marks {
        row,
        next: at + 2 * n,
    }
}

// The line of the cell at index k, on a site with n cells.
pub fn read_line(s: &[u8], at: usize, n: usize, k: usize) -> Option<Line>
    requires { (0 < n) × (n ≤ 32) × (k < 32) }
    ensures { result ≡ line_read s.now at n k }
{
    let digits = eat_number(s, at, k + 1);
    let a = eat(s, digits, COMMA);
    if a == NOWHERE {
        return None;
    }
    let v = read_number(s, a, 65535);
    let b = v.next;
    if b == NOWHERE {
        return None;
    }
    let m = read_marks(s, b, n);
    let cr = eat(s, m.next, CR);
    let end = eat(s, cr, LF);
    if end == NOWHERE {
        return None;
    }
    Some(Line {
        load: v.value as u16,
        row: m.row,
        next: end,
    })
}

// How many columns the first line has, and the place after it; no cells, and NOWHERE, where it is not of the format.
#[derive(Clone, Copy)]
pub struct Head {
    pub cells: usize,
    pub next: usize,
}

// The columns 1, 2, .. at `at`, as many as stand there, 32 at most.
fn read_columns(s: &[u8], at: usize) -> Head
    ensures { result ≡ columns_read s.now at }
{
    let mut p = at;
    for k in 0..32 {
        let comma = eat(s, p, COMMA);
        let q = eat_number(s, comma, k + 1);
        if q == NOWHERE {
            return Head { cells: k, next: p };
        }
        p = q;
    }
    Head { cells: 32, next: p }
}

// No first line.
// It only looks like `no_marks`: each is the nothing of its own type, and NOWHERE is no default of a number.
fn no_head() -> Head
    ensures { result ≡ no_head }
{
    Head {
        cells: 0,
        next: NOWHERE,
    }
}

// The first line.
pub fn read_head(s: &[u8]) -> Head
    ensures { result ≡ head_read s.now }
{
    let a = eat_text(s, 0, b"cell,load");
    if a == NOWHERE {
        return no_head();
    }
    let h = read_columns(s, a);
    if h.cells < 1 {
        return no_head();
    }
    let cr = eat(s, h.next, CR);
    let end = eat(s, cr, LF);
    if end == NOWHERE {
        return no_head();
    }
    Head {
        cells: h.cells,
        next: end,
    }
}
