// An answer of any call in words, written into a lent buffer at `at`: call is its number in the header, and a, b and c are the values. The answer is where
// the next byte goes.
#![tactic(auto)]

ghost use Rattle.std.specs.Prelude.{◌≡◌, ◌+◌, ◌≤◌, length};
ghost use Rattle.phrases.specs.Put.{Put};
ghost use Rattle.say_answers.specs.Said.{search_says, other_says, found_says, none_says, find_says, form_by, done_says};
ghost use Rattle.say_answers.specs.Said.{short_of, own_says, record_place, flow_place, place_given, answer_says, call_said};

use phrases::Phrase;
use say_refusals::{Place, Sentence, put_sentence};

const CLASH_CALL: usize = 2;

const LOAD_TEST_CALL: usize = 6;

const CHAIN_CALL: usize = 7;

const CLASS_CALL: usize = 8;

const LEAST_CALL: usize = 9;

const SEARCH_CALL: usize = 12;

const FIND_CALL: usize = 13;

const OVER_FULL_CALL: usize = 14;

const MEND_CALL: usize = 20;

const ADMIT_CALL: usize = 26;

const ADMIT_BESIDE_CALL: usize = 27;

const READ_SITE_CALL: usize = 28;

const READ_PLAN_CALL: usize = 30;

const LAST_CALL: usize = 38;

const CLASHES: usize = 39;

const OVER: usize = 40;

const BROKEN: usize = 41;

const SPLIT: usize = 42;

const ENOUGH: usize = 43;

const EXHAUSTED: usize = 44;

const LIMIT: usize = 45;

const SHOWN: usize = 46;

const MENDED: usize = 47;

const ANEW: usize = 48;

const SEARCHED: usize = 49;

const FULL: usize = 50;

const FULL_ANEW: usize = 51;

const FULL_SEARCHED: usize = 52;

const NOT_KNOWN: usize = 53;

const NO_ROOM: usize = 54;

const BOTH_SEND: usize = 55;

const COUNT: usize = 56;

const BLOCKED: usize = 57;

const SHORT: usize = 58;

const SHORT_LIST: usize = 59;

// A search that found no plan: none exists, or the limit is met.
fn search_row(a: usize) -> usize
    ensures { result ≡ search_says a }
{
    if a == 1 {
        return EXHAUSTED;
    }
    LIMIT
}

// The second form of a call; its first where it has no other.
fn other_row(call: usize, a: usize) -> usize
    ensures { result ≡ other_says call a }
{
    if call == CLASH_CALL {
        return CLASHES;
    }
    if call == LOAD_TEST_CALL {
        return OVER;
    }
    if call == CHAIN_CALL {
        return BROKEN;
    }
    if call == CLASS_CALL {
        return SPLIT;
    }
    if call == LEAST_CALL {
        return ENOUGH;
    }
    if call == SEARCH_CALL {
        return search_row(a);
    }
    if call == OVER_FULL_CALL {
        return SHOWN;
    }
    if call == MEND_CALL {
        return MENDED;
    }
    call
}

// A plan that was found, by its way.
fn found_row(b: usize) -> usize
    ensures { result ≡ found_says b }
{
    if b == 2 {
        return ANEW;
    }
    if b == 3 {
        return SEARCHED;
    }
    FIND_CALL
}

// That no plan exists, by its way.
fn none_row(b: usize) -> usize
    ensures { result ≡ none_says b }
{
    if b == 1 {
        return FULL;
    }
    if b == 2 {
        return FULL_ANEW;
    }
    FULL_SEARCHED
}

// A plan by any way: found, none, or not known.
fn find_row(a: usize, b: usize) -> usize
    ensures { result ≡ find_says a b }
{
    if a == 0 {
        return found_row(b);
    }
    if a == 1 {
        return none_row(b);
    }
    NOT_KNOWN
}

// The value that says which form it is: the first, and of `least` the second.
fn form_of(call: usize, a: usize, b: usize) -> usize
    ensures { result ≡ form_by call a b }
{
    if call == LEAST_CALL {
        return b;
    }
    a
}

// The row of a call that is done.
fn done_row(call: usize, a: usize, b: usize) -> usize
    ensures { result ≡ done_says call a b }
{
    if LAST_CALL < call {
        return 0;
    }
    if call == FIND_CALL {
        return find_row(a, b);
    }
    let form = form_of(call, a, b);
    if form == 0 {
        return call;
    }
    other_row(call, a)
}

// The row of 13: the list of the mender, or an output.
fn short_row(call: usize) -> usize
    ensures { result ≡ short_of call }
{
    if call == MEND_CALL {
        return SHORT_LIST;
    }
    SHORT
}

// The row of a refusal that comes with more than a place; 0 for any other.
fn own_row(call: usize, number: usize) -> usize
    ensures { result ≡ own_says call number }
{
    if number == 5 {
        return NO_ROOM;
    }
    if number == 6 {
        return BOTH_SEND;
    }
    if number == 7 {
        return COUNT;
    }
    if number == 22 {
        return BLOCKED;
    }
    if number == 13 {
        return short_row(call);
    }
    0
}

// The place in a record.
fn record_place(number: usize, a: usize) -> Option<Place>
    ensures { result ≡ record_place number a }
{
    if number == 2 {
        return Some(Place::Cell(a));
    }
    if number == 3 {
        return Some(Place::Cell(a));
    }
    if number == 20 {
        return Some(Place::Position(a));
    }
    None
}

// The place of an admission.
fn flow_place(number: usize, a: usize) -> Option<Place>
    ensures { result ≡ flow_place number a }
{
    if number == 15 {
        return Some(Place::Flow(a));
    }
    if number == 16 {
        return Some(Place::Flow(a));
    }
    if number == 2 {
        return None;
    }
    record_place(number, a)
}

// The place of any refusal.
fn place_of(call: usize, number: usize, a: usize) -> Option<Place>
    ensures { result ≡ place_given call number a }
{
    if number == 4 {
        return None;
    }
    if call == READ_SITE_CALL {
        return Some(Place::Byte(a));
    }
    if call == READ_PLAN_CALL {
        return Some(Place::PlanByte(a));
    }
    if number == 17 {
        return Some(Place::Line(a));
    }
    if call == ADMIT_CALL {
        return flow_place(number, a);
    }
    if call == ADMIT_BESIDE_CALL {
        return flow_place(number, a);
    }
    record_place(number, a)
}

// The sentence of an answer.
fn sentence_of(call: usize, number: usize, a: usize, b: usize, c: usize) -> Sentence
    ensures { result ≡ answer_says call number a b c }
{
    if number == 0 {
        return Sentence::Plain(Phrase::Row(done_row(call, a, b), a, b, c, 0));
    }
    let own = own_row(call, number);
    if own == 0 {
        return Sentence::Refusal(number, place_of(call, number, a));
    }
    Sentence::Plain(Phrase::Row(own, a, b, c, 0))
}

// An answer in words.
pub fn put_call(
    out: &mut [u8],
    at: usize,
    call: usize,
    number: usize,
    a: usize,
    b: usize,
    c: usize,
) -> usize
    requires { at + 2000 ≤ length out.old }
    ensures { Put out.old at (call_said call number a b c) 2000 out.new result }
{
    put_sentence(
        out,
        at,
        b"done\n|\
          the site record is in order\n|\
          the two cells do not clash\n|\
          the site with the new load stands beside the answer\n|\
          the site with the new reach stands beside the answer\n|\
          the site without this reach stands beside the answer\n|\
          the load test holds\n|\
          chained\n|\
          nested\n|\
          it takes @1 open channel-slot@a, and fewer are never enough\n|\
          the heaviest clash has load @1; its cells as one number: @2\n|\
          the plan is in the table\n|\
          a plan, which is in the table; tries made: @2\n|\
          a plan, which is in the table: by the planner\n|\
          these cells alone do not show that no plan exists; their load: @2\n|\
          the table is valid\n|\
          the plan is in the words\n|\
          the words are valid\n|\
          the words are written\n|\
          the table is written\n|\
          valid as it is: nothing to change\n|\
          the record has the new load, and the table is its plan\n|\
          the site in new numbers stands beside the answer, and so do both lists of numbers\n|\
          the rows are in the table in old numbers\n|\
          share @1 fragment@a in a superframe, queue at most @2 fragment@b, delay at most @3 slot@c\n|\
          share @1 fragment@a in a superframe, queue at most @2 fragment@b, delay at most @3 slot@c\n|\
          the number of the set is @1: flow 1 weighs 1, flow 2 weighs 2, flow 3 weighs 4, and so on\n|\
          the number of the set is @1: flow 1 weighs 1, flow 2 weighs 2, flow 3 weighs 4, and so on\n|\
          the site stands beside the answer\n|\
          the site file has @1 byte@a\n|\
          cells, slots and channels stand beside the answer, and the plan is in the table\n|\
          the plan file has @1 byte@a\n|\
          the site stands beside the answer\n|\
          the sheet has @1 byte@a\n|\
          the tidied sheet has @1 byte@a\n|\
          the text has @1 byte@a\n|\
          the text has @1 byte@a\n|\
          the text has @1 byte@a\n|\
          the library has version @1\n|\
          the two cells clash\n|\
          cell @1 is over by @2 fragment@b\n|\
          not chained: cells @1 and @3 clash, and cell @2 between them does not clash with cell @1\n|\
          not nested: cells @1 and @2 clash with cell @3, and not with one another\n|\
          @1 open channel-slot@a will do, and fewer may be enough\n|\
          no plan exists; tries made: @2\n|\
          not known, the limit is met; tries made: @2\n|\
          no plan exists: these cells clash with one another, and their load is above the open channel-slots: @2\n|\
          mended with @1 change@a\n|\
          a plan, which is in the table: by the planner, with the cells in new numbers\n|\
          a plan, which is in the table: by a search; tries made: @3\n|\
          no plan exists: some cells clash with one another and are over; as one number: @3\n|\
          no plan exists: by the planner, with the cells in new numbers\n|\
          no plan exists: by a search; tries made: @3\n|\
          not known; tries made: @3\n|\
          refused 5, cell @1: no room for @2 of its fragments\n|\
          refused 6, position @1: cells @2 and @3 clash, and both send at this position\n|\
          refused 7, cell @1: it sends more or less often in a superframe than its load says: @2 time@b\n|\
          refused 22, position @1: cell @2 sends at a blocked position\n|\
          refused 13: the lent output is too short; bytes needed: @1\n|\
          refused 13: the list of changes is too short; changes: @1\n|",
        sentence_of(call, number, a, b, c),
    )
}
