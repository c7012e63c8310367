// Every fault of a table, each in the line that a check has for it, written into a lent buffer piece by piece, and how many they are. A function `put_..` puts
// its text at `at` and answers where the next byte goes. The clash rows of the site are made once, by the caller.
#![tactic(auto)]

ghost use Rattle.std.specs.Prelude.{◌≡◌, true, ◌&&◌, ◌+◌, ◌*◌, ◌≤◌, ◌<◌, ltb, length, Err};
ghost use Rattle.laws.specs.Bits.{bit_at, bit_in};
ghost use Rattle.laws.specs.Sum.{bit, sum, count};
ghost use Rattle.theory.specs.Greedy.{reserved};
ghost use Rattle.theory.specs.Verdict.{wrong_in};
ghost use Rattle.faults.specs.Faults.{barred_by, clash_by};
ghost use Rattle.site.specs.Record.{positions};
ghost use Rattle.site.specs.Reach.{net_of, clash_of};
ghost use Rattle.checker.specs.Check.{verdict_of};
ghost use Rattle.phrases.specs.Put.{Put};
ghost use Rattle.phrases.specs.Phrases.{phrase};
ghost use Rattle.phrases.specs.declared.Phrase.TheVariants.{Row};
ghost use Rattle.say_faults.specs.Lines.{fault_lines, things_row};
ghost use Rattle.say_faults.specs.Said.{judgeable, shown_in, fault_in, shown_said, piece_said, PieceOf};
ghost use Rattle.say_faults.specs.Said.{placed_at, table_faults, things_said};
ghost use Rattle.say_faults.specs.declared.Piece.TheVariants.{Clashing};

use checker::CheckError;
use phrases::{Phrase, put_phrase};
use positions::is_blocked;
use rowcounts::cell_count;
use say_verdicts::put_check;
use site::Site;
use words::has;

const THINGS: usize = 0;

// The faults that are written at once. AtBlocked: a position. Clashing: a position, a first cell. Positions and cells are counted from 0.
#[derive(Clone, Copy)]
pub enum Piece {
    AtBlocked(usize),
    Clashing(usize, usize),
    Miscounts,
}

// Whether a table can be judged: the site has no fault, and the table has a byte for each cell and position.
#[tactic(auto, unfolding(crate::specs::Said::judgeable))]
pub fn can_judge(site: Site, table: &[u8]) -> bool
    ensures { result ≡ judgeable site table.now }
{
    let Ok(()) = site.accepted() else {
        return false;
    };
    let cells = site.cells as usize;
    let n = (site.slots as usize) * (site.channels as usize);
    cells * n <= table.len()
}

// Whether cell i sends at position k, where that is blocked.
fn shown_blocked(site: Site, table: &[u8], k: usize, i: usize) -> bool
    requires { (judgeable site table.now ≡ true) × (k < positions site) × (i < site.cells) }
    ensures { result ≡ barred_by (net_of site) (reserved (positions site) table.now) k i }
{
    let blocked = site.blocked;
    if !is_blocked(&blocked, k) {
        return false;
    }
    let n = (site.slots as usize) * (site.channels as usize);
    table[i * n + k] == 1
}

// Whether the cells a and c, of which a is the lower, both send at position k and clash. The row is the clash row of a.
fn shown_clash(table: &[u8], n: usize, row: u32, k: usize, a: usize, c: usize) -> bool
    requires { (k < n) × (n ≤ 2048) × (a < 32) × (c < 32) × (a * n + n ≤ length table.now) × (c * n + n ≤ length table.now) }
    ensures { result ≡ (ltb a c && (reserved n table.now a k && (reserved n table.now c k && bit_at row c))) }
{
    if c <= a {
        return false;
    }
    if table[a * n + k] != 1 {
        return false;
    }
    if table[c * n + k] != 1 {
        return false;
    }
    has(row, c)
}

// Whether cell i is not reserved as often as its load says.
fn shown_count(site: Site, table: &[u8], i: usize) -> bool
    requires { (judgeable site table.now ≡ true) × (i < site.cells) }
    ensures { result ≡ wrong_in (net_of site) (reserved (positions site) table.now) i }
{
    let n = (site.slots as usize) * (site.channels as usize);
    let loads = site.loads;
    let load = loads[i] as usize;
    cell_count(table, n, i) != load
}

// Whether a piece has a fault of cell i.
fn shows(site: Site, table: &[u8], clash: [u32; 32], piece: Piece, i: usize) -> bool
    requires { (judgeable site table.now ≡ true) × (bit_in clash ≡ clash_of site) × PieceOf site piece × (i < site.cells) }
    ensures { result ≡ shown_in site table.now piece i }
{
    match piece {
        Piece::AtBlocked(k) => shown_blocked(site, table, k, i),
        Piece::Clashing(k, a) => shown_clash(
            table,
            (site.slots as usize) * (site.channels as usize),
            clash[a],
            k,
            a,
            i,
        ),
        Piece::Miscounts => shown_count(site, table, i),
    }
}

// The fault of cell i in a piece, as a check refuses it.
#[tactic(auto, using(crate::proofs::Ready::judged_table), unfolding(checker::specs::Check::verdict_of))]
fn answer(site: Site, table: &[u8], piece: Piece, i: usize) -> CheckError
    requires { (judgeable site table.now ≡ true) × PieceOf site piece × (i < site.cells) }
    ensures { Err result ≡ verdict_of (fault_in site table.now piece i) }
{
    match piece {
        Piece::AtBlocked(k) => CheckError::Blocked(k, i + 1),
        Piece::Clashing(k, a) => CheckError::Clash(k, a + 1, i + 1),
        Piece::Miscounts => CheckError::Count(
            i + 1,
            cell_count(table, (site.slots as usize) * (site.channels as usize), i),
        ),
    }
}

// The line of the fault of cell i in a piece; nothing where it has none.
fn put_shown(
    out: &mut [u8],
    at: usize,
    site: Site,
    table: &[u8],
    clash: [u32; 32],
    piece: Piece,
    i: usize,
) -> usize
    requires table_value { (judgeable site table.now ≡ true) × (bit_in clash ≡ clash_of site) × PieceOf site piece × (i < site.cells) }
    requires at_in_bounds { at + 2000 ≤ length out.old }
    ensures { Put out.old at (shown_said site table.now piece i) 2000 out.new result }
{
    if !shows(site, table, clash, piece, i) {
        return at;
    }
    put_check(out, at, site, Err(answer(site, table, piece, i)))
}

// The lines of a piece.
pub fn put_piece(
    out: &mut [u8],
    at: usize,
    site: Site,
    table: &[u8],
    clash: [u32; 32],
    piece: Piece,
) -> usize
    requires { (judgeable site table.now ≡ true) × (bit_in clash ≡ clash_of site) × PieceOf site piece × (at + 64000 ≤ length out.old) }
    ensures { Put out.old at (piece_said site table.now piece site.cells) 64000 out.new result }
{
    let cells = site.cells as usize;
    let mut next = at;
    for i in 0..cells {
        next = put_shown(out, next, site, table, clash, piece, i);
    }
    next
}

// 1 where a piece has a fault of cell i, else 0.
fn one_shown(site: Site, table: &[u8], clash: [u32; 32], piece: Piece, i: usize) -> usize
    requires { (judgeable site table.now ≡ true) × (bit_in clash ≡ clash_of site) × PieceOf site piece × (i < site.cells) }
    ensures { result ≡ bit (shown_in site table.now piece i) }
{
    if shows(site, table, clash, piece, i) {
        return 1;
    }
    0
}

// How many faults a piece has.
fn piece_count(site: Site, table: &[u8], clash: [u32; 32], piece: Piece) -> usize
    requires { (judgeable site table.now ≡ true) × (bit_in clash ≡ clash_of site) × PieceOf site piece }
    ensures { result ≡ count (shown_in site table.now piece) site.cells }
{
    let cells = site.cells as usize;
    let mut all: usize = 0;
    for i in 0..cells {
        all += one_shown(site, table, clash, piece, i);
    }
    all
}

// How many clashes a position has.
fn clashes_at(site: Site, table: &[u8], clash: [u32; 32], k: usize) -> usize
    requires { (judgeable site table.now ≡ true) × (bit_in clash ≡ clash_of site) × (k < positions site) }
    ensures { result ≡ sum (λ a. count (shown_in site table.now (Clashing k a)) site.cells) site.cells }
{
    let cells = site.cells as usize;
    let mut all: usize = 0;
    for a in 0..cells {
        all += piece_count(site, table, clash, Piece::Clashing(k, a));
    }
    all
}

// How many faults the positions have: reservations where it is blocked, and clashes.
fn placed_count(site: Site, table: &[u8], clash: [u32; 32]) -> usize
    requires { (judgeable site table.now ≡ true) × (bit_in clash ≡ clash_of site) }
    ensures { result ≡ sum (placed_at site table.now) (positions site) }
{
    let n = (site.slots as usize) * (site.channels as usize);
    let mut all: usize = 0;
    for k in 0..n {
        all += piece_count(site, table, clash, Piece::AtBlocked(k))
            + clashes_at(site, table, clash, k);
    }
    all
}

// How many faults a table has.
fn fault_count(site: Site, table: &[u8], clash: [u32; 32]) -> usize
    requires { (judgeable site table.now ≡ true) × (bit_in clash ≡ clash_of site) }
    ensures { result ≡ length (table_faults site table.now) }
{
    placed_count(site, table, clash) + piece_count(site, table, clash, Piece::Miscounts)
}

// Puts the last line.
fn put_number(out: &mut [u8], at: usize, number: usize) -> usize
    requires { at + 300 ≤ length out.old }
    ensures { Put out.old at (phrase fault_lines (Row things_row number 0 0 0)) 300 out.new result }
{
    put_phrase(
        out,
        at,
        b"not valid: @1 thing@a wrong\n|",
        Phrase::Row(THINGS, number, 0, 0, 0),
    )
}

// How many faults a table has, in words.
pub fn put_things(out: &mut [u8], at: usize, site: Site, table: &[u8], clash: [u32; 32]) -> usize
    requires { (judgeable site table.now ≡ true) × (bit_in clash ≡ clash_of site) × (at + 300 ≤ length out.old) }
    ensures { Put out.old at (things_said site table.now) 300 out.new result }
{
    let number = fault_count(site, table, clash);
    put_number(out, at, number)
}
