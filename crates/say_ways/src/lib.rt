// Which sentence a clash has, by which of its two cells reaches the other, and which a number of changes has.
#![tactic(auto)]

ghost use Rattle.std.specs.Prelude.{◌≡◌};
ghost use Rattle.verdicts.specs.Said.{reach_named, way_sentence, clash_sentence, changes_sentence};

use phrases::Phrase;
use say_refusals::Sentence;
use site::{Site, within};
use words::has;

const CLASH_FORTH: usize = 1;

const CLASH_BACK: usize = 2;

const CLASH_BOTH: usize = 3;

const UNCHANGED: usize = 8;

const MENDED: usize = 9;

const CLASH_THIRD: usize = 18;

// Whether one cell reaches another, by their numbers.
fn reaches(site: Site, from: usize, to: usize) -> bool
    ensures { result ≡ reach_named site from to }
{
    if !within(from, 32) {
        return false;
    }
    if !within(to, 32) {
        return false;
    }
    let reach = site.reach;
    has(reach[from - 1], to - 1)
}

// Which of two cells that clash reaches the other.
fn way_sentence(
    forth: bool,
    back: bool,
    a: usize,
    c: usize,
    slot: usize,
    channel: usize,
) -> Sentence
    ensures { result ≡ way_sentence forth back a c slot channel }
{
    if forth {
        if back {
            return Sentence::Plain(Phrase::Row(CLASH_BOTH, a, c, slot, channel));
        }
        return Sentence::Plain(Phrase::Row(CLASH_FORTH, a, c, slot, channel));
    }
    if back {
        return Sentence::Plain(Phrase::Row(CLASH_BACK, a, c, slot, channel));
    }
    Sentence::Plain(Phrase::Row(CLASH_THIRD, a, c, slot, channel))
}

// Where a clash is, by slot and channel, and which of the two cells reaches the other; where neither does, both reach a third.
pub fn clash_sentence(site: Site, p: usize, a: usize, c: usize) -> Sentence
    ensures { result ≡ clash_sentence site p a c }
{
    let channels = site.channels as usize;
    if channels < 1 {
        return Sentence::Refusal(6, None);
    }
    if 65535 < p {
        return Sentence::Refusal(6, None);
    }
    let forth = reaches(site, a, c);
    let back = reaches(site, c, a);
    way_sentence(forth, back, a, c, p / channels + 1, p % channels + 1)
}

// How many changes there are, if any.
pub fn changes_sentence(number: usize) -> Sentence
    ensures { result ≡ changes_sentence number }
{
    if number == 0 {
        return Sentence::Plain(Phrase::Row(UNCHANGED, 0, 0, 0, 0));
    }
    Sentence::Plain(Phrase::Row(MENDED, number, 0, 0, 0))
}
