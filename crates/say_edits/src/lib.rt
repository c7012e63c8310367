// What is said of the edits of `duggfrask set`, but for a refusal's line, written into a lent buffer at `at`. The answer is where the next byte goes. The words
// themselves stand between these parts as they were typed.
#![tactic(auto)]

ghost use Rattle.std.specs.Prelude.{◌≡◌, ◌+◌, ◌≤◌, length};
ghost use Rattle.phrases.specs.Put.{Put};
ghost use Rattle.phrases.specs.Phrases.{phrase};
ghost use Rattle.say_edits.specs.Lines.{edit_lines};
ghost use Rattle.say_edits.specs.Said.{takes_row, part_phrase, part_said};

use editlist::Kind;
use phrases::{Phrase, put_phrase};

// The parts of a line.
#[derive(Clone, Copy)]
pub enum Part {
    NoneGiven,
    Quoted,
    NoName,
    After,
    Nothing,
    Stands,
    Closed,
    Blank,
    Colon,
    BadList(usize),
    Takes(Option<Kind>),
}

// Puts a part: a row of the table with its value.
fn put(out: &mut [u8], at: usize, what: Phrase) -> usize
    requires { at + 1000 ≤ length out.old }
    ensures { Put out.old at (phrase edit_lines what) 1000 out.new result }
{
    put_phrase(
        out,
        at,
        b"set: no edit is given; the edits are load, reach, clear, blocked, rule, slots and channels\n|\
          set: '|\
          ' is no edit; the edits are load, reach, clear, blocked, rule, slots and channels\n|\
          set: after |\
          \x20stands nothing|\
          \x20stands '|\
          '|\
          \x20|\
          : |\
          at character @1 stands no slot.channel of this site\n|\
          ; it takes CELL=LOAD\n|\
          ; it takes FROM-TO\n|\
          ; it takes a LIST or none\n|\
          ; it takes R\n|\
          ; it takes T\n|\
          ; it takes F\n|",
        what,
    )
}

// The row of what an edit takes; a name of no edit takes nothing, and has the row that says so.
fn takes_row(kind: Option<Kind>) -> usize
    ensures { result ≡ takes_row kind }
{
    match kind {
        None => 2,
        Some(Kind::OfLoad) => 10,
        Some(Kind::OfReach) => 11,
        Some(Kind::OfClear) => 11,
        Some(Kind::OfBlocked) => 12,
        Some(Kind::OfRule) => 13,
        Some(Kind::OfSlots) => 14,
        Some(Kind::OfChannels) => 15,
    }
}

// The row of a part, and its value.
fn part_phrase(part: Part) -> Phrase
    ensures { result ≡ part_phrase part }
{
    match part {
        Part::NoneGiven => Phrase::Row(0, 0, 0, 0, 0),
        Part::Quoted => Phrase::Row(1, 0, 0, 0, 0),
        Part::NoName => Phrase::Row(2, 0, 0, 0, 0),
        Part::After => Phrase::Row(3, 0, 0, 0, 0),
        Part::Nothing => Phrase::Row(4, 0, 0, 0, 0),
        Part::Stands => Phrase::Row(5, 0, 0, 0, 0),
        Part::Closed => Phrase::Row(6, 0, 0, 0, 0),
        Part::Blank => Phrase::Row(7, 0, 0, 0, 0),
        Part::Colon => Phrase::Row(8, 0, 0, 0, 0),
        Part::BadList(character) => Phrase::Row(9, character, 0, 0, 0),
        Part::Takes(kind) => Phrase::Row(takes_row(kind), 0, 0, 0, 0),
    }
}

// A part of a line.
pub fn put_part(out: &mut [u8], at: usize, part: Part) -> usize
    requires { at + 1000 ≤ length out.old }
    ensures { Put out.old at (part_said part) 1000 out.new result }
{
    put(out, at, part_phrase(part))
}
