// The text of a refusal, written into a lent buffer: the number, the place, and what the number means. And what an answer says: a phrase of its crate's own
// table, or a refusal. Each function puts its text at `at` and answers where the next byte goes.
#![tactic(auto)]

ghost use Rattle.std.specs.Prelude.{◌≡◌, ◌+◌, ◌≤◌, length};
ghost use Rattle.phrases.specs.Put.{Put};
ghost use Rattle.say_refusals.specs.Said.{meaning_phrase, meaning, head_phrase, head, refused_line};
ghost use Rattle.say_refusals.specs.Sentences.{sentence_in, sentence_room};

use phrases::{Phrase, put_phrase};

// The number of rows of meanings.
const MEANINGS: usize = 27;

const ALONE: usize = 0;

const BYTE: usize = 1;

const PLAN_BYTE: usize = 2;

const LINE: usize = 3;

const CELL: usize = 4;

const FLOW: usize = 5;

const POSITION: usize = 6;

// Where something is wrong: at a byte of the site file or of the plan file, counted from 0; in a line of a sheet, at a cell or at a flow, counted from 1; at a
// position, counted from 0.
#[derive(Clone, Copy)]
pub enum Place {
    Byte(usize),
    PlanByte(usize),
    Line(usize),
    Cell(usize),
    Flow(usize),
    Position(usize),
}

// What an answer says: a phrase of a table, or a refusal by its number, and its place where it has one.
#[derive(Clone, Copy)]
pub enum Sentence {
    Plain(Phrase),
    Refusal(usize, Option<Place>),
}

// The phrase of a number.
fn meaning_phrase(number: usize) -> Phrase
    ensures { result ≡ meaning_phrase number }
{
    if number < MEANINGS {
        return Phrase::Row(number, 0, 0, 0, 0);
    }
    Phrase::Row(0, 0, 0, 0, 0)
}

// What a number means. The row is the number.
fn put_meaning(out: &mut [u8], at: usize, number: usize) -> usize
    requires { at + 1000 ≤ length out.old }
    ensures { Put out.old at (meaning number) 1000 out.new result }
{
    put_phrase(
        out,
        at,
        b"the call was refused\n|\
          the size is out of range: a site has 1 to 32 cells, 1 to 128 slots and 1 to 16 channels\n|\
          a load or a flow is for a cell that the site does not have\n|\
          the reach has a cell that reaches itself, or a cell that the site does not have\n|\
          the table is too short\n|\
          the call was refused\n|\
          the call was refused\n|\
          the call was refused\n|\
          the file ends too early: inside a record, or before one that has to be there\n|\
          a record of another kind has to stand there\n|\
          the length of a record is not the one that belongs to it\n|\
          the reach pairs are out of order, or one stands twice\n|\
          the file goes on after its last record\n|\
          the lent output is too short\n|\
          a bit past the last position is set\n|\
          the burst or the period of a flow is not 1 to 65,535, or its repeats are not 1 to 4\n|\
          the flow needs a share above 65,535 fragments in a superframe, its repeats counted\n|\
          the sheet is malformed: a line is not as the format asks, or is missing, or is one too many\n|\
          more than 16 flows ask to be admitted\n|\
          the site is not nested when all its cells count, the spare ones too\n|\
          a blocked position is one that the site does not have: its slots and channels end before it\n|\
          the record of blocked positions blocks none\n|\
          the call was refused\n|\
          no numbering makes the site nested when all its cells count, the spare ones too\n|\
          the rule is not 1 or 2, or not 2 where a site file says it\n|\
          too large to search: the site has more than 64 open positions or more than 24 fragments in all\n|\
          the table is not the plan of the site as it is, so that one load can't be changed in it\n|",
        meaning_phrase(number),
    )
}

// The phrase of a number and a place.
fn head_phrase(number: usize, place: Option<Place>) -> Phrase
    ensures { result ≡ head_phrase number place }
{
    match place {
        None => Phrase::Row(ALONE, number, 0, 0, 0),
        Some(Place::Byte(offset)) => Phrase::Row(BYTE, number, offset, 0, 0),
        Some(Place::PlanByte(offset)) => Phrase::Row(PLAN_BYTE, number, offset, 0, 0),
        Some(Place::Line(line)) => Phrase::Row(LINE, number, line, 0, 0),
        Some(Place::Cell(cell)) => Phrase::Row(CELL, number, cell, 0, 0),
        Some(Place::Flow(flow)) => Phrase::Row(FLOW, number, flow, 0, 0),
        Some(Place::Position(position)) => Phrase::Row(POSITION, number, position, 0, 0),
    }
}

// The number, and the place.
fn put_head(out: &mut [u8], at: usize, number: usize, place: Option<Place>) -> usize
    requires { at + 1000 ≤ length out.old }
    ensures { Put out.old at (head number place) 1000 out.new result }
{
    put_phrase(
        out,
        at,
        b"refused @1: |\
          refused @1, byte @2 of the site file: |\
          refused @1, byte @2 of the plan file: |\
          refused @1, line @2: |\
          refused @1, cell @2: |\
          refused @1, flow @2: |\
          refused @1, position @2: |",
        head_phrase(number, place),
    )
}

// The line of a refusal.
pub fn put_refused(out: &mut [u8], at: usize, number: usize, place: Option<Place>) -> usize
    requires { at + 2000 ≤ length out.old }
    ensures { Put out.old at (refused_line number place) 2000 out.new result }
{
    let middle = put_head(out, at, number, place);
    put_meaning(out, middle, number)
}

// A sentence, with the table that its phrase is of.
pub fn put_sentence(out: &mut [u8], at: usize, table: &[u8], sentence: Sentence) -> usize
    requires { at + sentence_room table.now sentence ≤ length out.old }
    ensures { Put out.old at (sentence_in table.now sentence) (sentence_room table.now sentence) out.new result }
{
    match sentence {
        Sentence::Plain(phrase) => put_phrase(out, at, table, phrase),
        Sentence::Refusal(number, place) => put_refused(out, at, number, place),
    }
}
