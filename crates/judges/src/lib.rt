// The verdicts on a site: the load test, the judge of the chain, the judge of the class, and the least number of open channel-slots that do.
// All ask the clash rows and the word of the cells that count, those with load above 0.
// The judges go from one cell of a word to the next without a look at those between.
#![tactic(auto)]

ghost use Rattle.std.specs.Prelude.{◌≡◌};
ghost use Rattle.judges.specs.Judges.{load_answer, chain_answer, class_answer, least_answer};

use chainwords::{break_of, first_break, first_split, gap, split_of};
use demands::{demand, first_over, most_demand};
use loads::loaded;
use positions::open_count;
use site::{Fault, Site};

// The load test's verdict: it holds, or the lowest cell that is over, by number, and by how much.
#[derive(Clone, Copy)]
pub enum LoadVerdict {
    Holds,
    Over(usize, usize),
}

// The judge's verdict: chained, or the first triple a, b, c that breaks the chain, by number.
#[derive(Clone, Copy)]
pub enum ChainVerdict {
    Chained,
    Broken(usize, usize, usize),
}

// The verdict on the class: the site is nested, or the first cell i and its first two lower clashing cells a < b that do not clash, by number.
#[derive(Clone, Copy)]
pub enum ClassVerdict {
    InClass,
    Outside(usize, usize, usize),
}

// How many open channel-slots do: the least number that does, on a nested site; on any other so many are enough, and fewer may be.
#[derive(Clone, Copy)]
pub enum LeastVerdict {
    Least(usize),
    Enough(usize),
}

// The load test: the lowest cell with load above 0 whose demand is above the number of open positions, and by how much.
#[tactic(auto, using(crate::proofs::Laws::accepted), unfolding(crate::specs::Judges::load_answer))]
pub fn load_test(site: Site) -> Result<LoadVerdict, Fault>
    ensures { result ≡ load_answer site }
{
    site.accepted()?;
    let cells = site.cells as usize;
    let n = site.slots as usize * site.channels as usize;
    let blocked = site.blocked;
    let room = open_count(&blocked, n) as u32;
    let loads = site.loads;
    let clash = site.clash_rows();
    let who = loaded(&loads);
    let i = first_over(&loads, &clash, who, cells, room);
    if i < cells {
        let d = demand(&loads, clash[i], i);
        return Ok(LoadVerdict::Over(i + 1, (d - room) as usize));
    }
    Ok(LoadVerdict::Holds)
}

// The chain judge: the first triple of cells with load above 0 that breaks the chain.
#[tactic(auto, using(crate::proofs::Laws::accepted_cells), unfolding(crate::specs::Judges::chain_answer))]
pub fn chain(site: Site) -> Result<ChainVerdict, Fault>
    ensures { result ≡ chain_answer site }
{
    site.accepted()?;
    let cells = site.cells as usize;
    let loads = site.loads;
    let clash = site.clash_rows();
    let who = loaded(&loads);
    let a = first_break(&clash, who, cells);
    if a < cells {
        let c = break_of(clash[a], who, a, cells);
        let b = gap(clash[a], who, a, c);
        return Ok(ChainVerdict::Broken(a + 1, b + 1, c + 1));
    }
    Ok(ChainVerdict::Chained)
}

// The judge of the class: the first cell with load above 0 that has two lower clashing cells with load above 0 that do not clash.
#[tactic(auto, using(crate::proofs::Laws::accepted_cells), unfolding(crate::specs::Judges::class_answer))]
pub fn in_class(site: Site) -> Result<ClassVerdict, Fault>
    ensures { result ≡ class_answer site }
{
    site.accepted()?;
    let cells = site.cells as usize;
    let loads = site.loads;
    let clash = site.clash_rows();
    let who = loaded(&loads);
    let i = first_split(&clash, who, cells);
    if i < cells {
        let a = split_of(&clash, who, i);
        let b = gap(clash[a], who & clash[i], a, i);
        return Ok(ClassVerdict::Outside(a + 1, b + 1, i + 1));
    }
    Ok(ClassVerdict::InClass)
}

// How many open channel-slots do for the site's cells, loads and reach, whatever slots, channels and blocked positions it has now.
#[tactic(auto, using(crate::proofs::Laws::accepted_cells), unfolding(crate::specs::Judges::least_answer))]
pub fn least(site: Site) -> Result<LeastVerdict, Fault>
    ensures { result ≡ least_answer site }
{
    site.accepted()?;
    let cells = site.cells as usize;
    let loads = site.loads;
    let clash = site.clash_rows();
    let who = loaded(&loads);
    let n = most_demand(&loads, &clash, who, cells) as usize;
    if first_split(&clash, who, cells) < cells {
        return Ok(LeastVerdict::Enough(n));
    }
    Ok(LeastVerdict::Least(n))
}
