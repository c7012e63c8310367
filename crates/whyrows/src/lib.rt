// Which line of `why` an answer of the chain judge has, and which the answer that there is no room; and the number that an answer of `least` holds.
#![tactic(auto)]

ghost use Rattle.std.specs.Prelude.{◌≡◌, ltb};
ghost use Rattle.laws.specs.Choice.{pick};
ghost use Rattle.why.specs.Lines.{full_row, gave_up_row};
ghost use Rattle.why.specs.Said.{chain_phrase, least_number};

use judges::{ChainVerdict, LeastVerdict};
use phrases::Phrase;
use site::Fault;

const CHAINED: usize = 0;

const BROKEN: usize = 1;

const FULL: usize = 6;

const GAVE_UP: usize = 7;

// Chained, or the triple that breaks it.
pub fn chain_phrase(reply: Result<ChainVerdict, Fault>) -> Phrase
    ensures { result ≡ chain_phrase reply }
{
    match reply {
        Ok(ChainVerdict::Chained) => Phrase::Row(CHAINED, 0, 0, 0, 0),
        Ok(ChainVerdict::Broken(a, b, c)) => Phrase::Row(BROKEN, a, b, c, 0),
        Err(_) => Phrase::Silent,
    }
}

// The row of a no: full where the heaviest clash is above the open positions.
pub fn no_row(l: usize, n: usize) -> usize
    ensures { result ≡ pick (ltb n l) full_row gave_up_row }
{
    if n < l {
        return FULL;
    }
    GAVE_UP
}

// The number that `least` answers.
pub fn least_number(reply: Result<LeastVerdict, Fault>) -> usize
    ensures { result ≡ least_number reply }
{
    match reply {
        Ok(LeastVerdict::Least(n)) => n,
        Ok(LeastVerdict::Enough(n)) => n,
        Err(_) => 0,
    }
}
