// The second table form: one word for each position, with bit i-1 where cell i transmits. Bits above I are silence.
//
// What planning costs stands in crates/stretches/src/lib.rt; the local room is the clash rows and a load for each cell.
// What the check costs: a run of equal words is passed at a compare a word, and its word is looked at once, in it only the cells that are set;
// the local room is the clash rows and a count for each cell. Where positions are blocked, each position is looked at once before that.
// The changes of form go over neighbouring places, eight rows at a time, without a branch.
#![tactic(auto)]

ghost use Rattle.std.specs.Prelude.{◌≡◌, ◌&&◌, not, ◌++◌, ◌+◌, ◌*◌, ◌≤◌, ◌<◌, ltb, eqb, length, get_or, drop};
ghost use Rattle.std.proofs.lemmas.List.Edits.{sets};
ghost use Rattle.laws.specs.Bits.{bit_at, bit_in};
ghost use Rattle.laws.specs.Part.{list_of};
ghost use Rattle.laws.specs.Search.{first};
ghost use Rattle.theory.specs.Net.{unblocked};
ghost use Rattle.theory.specs.Greedy.{reserved};
ghost use Rattle.theory.specs.Verdict.{lowest_barred, open_verdict, table_verdict};
ghost use Rattle.positions.specs.Blocked.{most_positions, blocked_at};
ghost use Rattle.site.specs.Reach.{is_open, net_in};
ghost use Rattle.checker.specs.Check.{verdict_of};
ghost use Rattle.checker.specs.Marks.{bar_net};
ghost use Rattle.wordforms.specs.Words.{sends_at};
ghost use Rattle.wordtable.specs.Tally.{clashing_word, differs, Room, Added, CountedTo, miscounted};
ghost use Rattle.wordtable.specs.Plan.{plan_words_answer, plan_words};
ghost use Rattle.wordtable.specs.Check.{check_words_answer};
ghost use Rattle.wordtable.specs.Forms.{form_answer, to_words, to_bytes};
ghost use Rattle.wordtable.specs.declared.FormError.TheVariants.{Record};

use checker::CheckError;
use planner::PlanError;
use positions::{is_blocked, none_blocked};
use site::{Fault, Site};
use square::low_bits;
use wordforms::{gather_words, scatter};
use words::lowest;

// Why a change of form is refused: 4, a lent part is short; or what is wrong with the record.
#[derive(Clone, Copy)]
pub enum FormError {
    TableShort,
    Record(Fault),
}

impl From<Fault> for FormError {
    ghost from_gives = { λ f e. e ≡ Record f };

    fn from(fault: Fault) -> FormError {
        FormError::Record(fault)
    }
}

// Plans the site into the lent words: the answer of the byte planner, and the words of its table.
#[tactic(auto, using(checker::proofs::Judged::sizes_known), unfolding(crate::specs::Plan::plan_words_answer, crate::specs::Plan::plan_words))]
pub fn plan_words(site: Site, words: &mut [u32]) -> Result<(), PlanError>
    ensures answer { result ≡ plan_words_answer site words.old }
    ensures words { words.new ≡ plan_words site words.old }
{
    site.accepted()?;
    let cells = site.cells as usize;
    let n = (site.slots as usize) * (site.channels as usize);
    if words.len() < n {
        return Err(PlanError::TableShort);
    }
    let clash = site.clash_rows();
    let loads = site.loads;
    let blocked = site.blocked;
    stretches::plan_stretches(words, &clash, loads, cells, n, &blocked)
}

// Adds `times` to the count of each cell of a word, and answers what those cells meet of their clash rows above them: not 0 exactly where two of them clash.
// Only cells that the word has are looked at, from the lowest up.
fn tally(counts: &mut [u32; 32], word: u32, times: u32, clash: &[u32; 32], cells: usize) -> u32
    requires cells_bound { cells ≤ 32 }
    requires room { Room cells times counts.old }
    ensures met { not (eqb result 0) ≡ clashing_word clash.now cells word }
    ensures counted { Added cells word times counts.old counts.new }
{
    let mut met: u32 = 0;
    let mut left = word & low_bits(cells);
    // From cell to cell of a word: no index is counted.
    while left != 0 {
        let i = u32::trailing_zeros(left) as usize;
        left = left & (left - 1);
        counts[i] = counts[i] + times;
        met = met | (clash[i] & left);
    }
    met
}

// The first position past p, of n, whose word is not that of p; n where there is none.
#[tactic(auto, using(laws::proofs::Search::found, laws::proofs::Search::missed, laws::proofs::Search::ended))]
fn run_end(words: &[u32], p: usize, n: usize) -> usize
    requires { (p < n) × (n ≤ length words.now) }
    ensures { result ≡ first (differs words.now p) (p + 1) n }
{
    let word = words[p];
    for k in p + 1..n {
        if words[k] != word {
            return k;
        }
    }
    n
}

// The lowest position with a clash; n where there is none, and then each cell is counted. Equal words that stand together are counted at once.
fn walk(counts: &mut [u32; 32], words: &[u32], n: usize, clash: &[u32; 32], cells: usize) -> usize
    requires cells_bound { (cells ≤ 32) × (n ≤ 2048) × (n ≤ length words.now) }
    requires counted_to { CountedTo cells words.now 0 counts.old }
    ensures lowest { result ≡ first (λ k. clashing_word clash.now cells (get_or words.now k 0)) 0 n }
    ensures counted { n ≤ result → CountedTo cells words.now n counts.new }
{
    let mut p: usize = 0;
    // From run to run: the step is as long as the run.
    while p < n {
        let to = run_end(words, p, n);
        let times = (to - p) as u32;
        let met = tally(counts, words[p], times, clash, cells);
        if met != 0 {
            return p;
        }
        p = to;
    }
    p
}

// The lowest cell that is not counted as often as its load says; the number of cells where there is none.
#[tactic(auto, using(laws::proofs::Search::found, laws::proofs::Search::missed, laws::proofs::Search::ended))]
fn lowest_wrong(counts: &[u32; 32], loads: [u16; 32], cells: usize) -> usize
    requires { cells ≤ 32 }
    ensures { result ≡ first (miscounted counts.now loads) 0 cells }
{
    for i in 0..cells {
        let load = loads[i] as u32;
        if counts[i] != load {
            return i;
        }
    }
    cells
}

// The verdict on n words that have no cell at a blocked position: their first clash, else their first wrong count.
#[tactic(auto, using(crate::proofs::Judged::open_laws))]
fn judge_open(
    words: &[u32],
    n: usize,
    clash: &[u32; 32],
    loads: [u16; 32],
    cells: usize,
) -> Result<(), CheckError>
    requires { (cells ≤ 32) × (n ≤ 2048) × (n ≤ length words.now) }
    ensures { result ≡ verdict_of (open_verdict (net_in cells n loads (bit_in clash.now) unblocked) (sends_at words.now)) }
{
    let mut counts = [0u32; 32];
    let p = walk(&mut counts, words, n, clash, cells);
    if p < n {
        let word = words[p];
        let a = words::first_in(word, clash, cells);
        let c = words::second_in(word, clash, cells, a);
        return Err(CheckError::Clash(p, a + 1, c + 1));
    }
    let i = lowest_wrong(&counts, loads, cells);
    if i < cells {
        return Err(CheckError::Count(i + 1, counts[i] as usize));
    }
    Ok(())
}

// Whether position p is blocked and its word has a cell. Where nobody sends, what is blocked is not asked.
fn is_barred(blocked: &[u64; 32], word: u32, p: usize, cells: usize) -> bool
    requires { (cells ≤ 32) × (p < most_positions) }
    ensures { result ≡ (blocked_at blocked.now p && ltb (first (bit_at word) 0 cells) cells) }
{
    if word == 0 {
        return false;
    }
    if is_blocked(blocked, p) {
        return lowest(word, 0, cells) < cells;
    }
    false
}

// The lowest blocked position whose word has a cell; n where there is none.
#[tactic(auto, using(crate::proofs::Judged::barred_search), unfolding(theory::specs::Verdict::lowest_barred))]
fn first_barred(words: &[u32], n: usize, blocked: &[u64; 32], cells: usize) -> usize
    requires { (cells ≤ 32) × (n ≤ most_positions) × (n ≤ length words.now) }
    ensures { result ≡ lowest_barred (bar_net cells n blocked.now) (sends_at words.now) }
{
    for p in 0..n {
        if is_barred(blocked, words[p], p, cells) {
            return p;
        }
    }
    n
}

// The same, without a look at the words where no position is blocked.
fn lowest_barred(words: &[u32], n: usize, blocked: &[u64; 32], cells: usize) -> usize
    requires { (cells ≤ 32) × (n ≤ most_positions) × (n ≤ length words.now) }
    ensures { result ≡ lowest_barred (bar_net cells n blocked.now) (sends_at words.now) }
{
    if none_blocked(blocked) {
        return n;
    }
    first_barred(words, n, blocked, cells)
}

// The verdict on n words: the first blocked position that has a cell, and the lowest cell there, else what is said without them.
#[tactic(auto, using(checker::proofs::Judged::barred_laws))]
fn judge(
    words: &[u32],
    n: usize,
    clash: &[u32; 32],
    loads: [u16; 32],
    cells: usize,
    blocked: &[u64; 32],
) -> Result<(), CheckError>
    requires { (cells ≤ 32) × (n ≤ 2048) × (n ≤ length words.now) }
    ensures { result ≡ verdict_of (table_verdict (net_in cells n loads (bit_in clash.now) (is_open blocked.now)) (sends_at words.now)) }
{
    let p = lowest_barred(words, n, blocked, cells);
    if p < n {
        let word = words[p];
        return Err(CheckError::Blocked(p, lowest(word, 0, cells) + 1));
    }
    judge_open(words, n, clash, loads, cells)
}

// Whether words are a valid table for a site; if not, their first cell at a blocked position, else their first clash, else their first wrong count.
// Refuses a site at fault, then too few words.
#[tactic(auto, using(checker::proofs::Judged::sizes_known), unfolding(crate::specs::Check::check_words_answer))]
pub fn check_words(site: Site, words: &[u32]) -> Result<(), CheckError>
    ensures { result ≡ check_words_answer site words.now }
{
    site.accepted()?;
    let cells = site.cells as usize;
    let n = (site.slots as usize) * (site.channels as usize);
    if words.len() < n {
        return Err(CheckError::TableShort);
    }
    let clash = site.clash_rows();
    let loads = site.loads;
    let blocked = site.blocked;
    judge(words, n, &clash, loads, cells, &blocked)
}

// What a change of form answers, by what is lent: refuses a site at fault, then a table or words that are too short.
#[tactic(auto, using(checker::proofs::Judged::sizes_known), unfolding(crate::specs::Forms::form_answer))]
fn answer_for(site: Site, table: &[u8], words: &[u32]) -> Result<(), FormError>
    ensures { result ≡ form_answer site table.now words.now }
{
    site.accepted()?;
    let cells = site.cells as usize;
    let n = (site.slots as usize) * (site.channels as usize);
    if table.len() < cells * n {
        return Err(FormError::TableShort);
    }
    if words.len() < n {
        return Err(FormError::TableShort);
    }
    Ok(())
}

// The words of a table. Refuses a site at fault, then a table or words that are too short.
#[tactic(auto, using(crate::proofs::Ways::form_known, crate::proofs::Ways::words_refused, crate::proofs::Ways::words_done))]
pub fn to_words(site: Site, table: &[u8], words: &mut [u32]) -> Result<(), FormError>
    ensures answer { result ≡ form_answer site table.now words.old }
    ensures words { words.new ≡ to_words site table.now words.old }
{
    answer_for(site, table, words)?;
    let cells = site.cells as usize;
    let n = (site.slots as usize) * (site.channels as usize);
    gather_words(words, table, n, cells);
    Ok(())
}

// The table of words, with 1 for a reservation and 0 elsewhere. Refuses a site at fault, then a table or words that are too short.
#[tactic(auto, using(crate::proofs::Ways::form_known, crate::proofs::Ways::bytes_refused, crate::proofs::Ways::bytes_done))]
pub fn to_bytes(site: Site, words: &[u32], table: &mut [u8]) -> Result<(), FormError>
    ensures answer { result ≡ form_answer site table.old words.now }
    ensures table { table.new ≡ to_bytes site words.now table.old }
{
    answer_for(site, table, words)?;
    let cells = site.cells as usize;
    let n = (site.slots as usize) * (site.channels as usize);
    scatter(table, words, n, cells);
    Ok(())
}
