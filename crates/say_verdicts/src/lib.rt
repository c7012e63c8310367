// What is said of the answers that the desk asks for, written into a lent buffer. A function `.._sentence` chooses what is said; a function `put_..` puts it
// at `at` and answers where the next byte goes.
#![tactic(auto)]

ghost use Rattle.std.specs.Prelude.{◌≡◌, ◌+◌, ◌≤◌, length};
ghost use Rattle.phrases.specs.Put.{Put};
ghost use Rattle.say_refusals.specs.Sentences.{sentence};
ghost use Rattle.verdicts.specs.Lines.{verdict_lines};
ghost use Rattle.verdicts.specs.Said.{fault_sentence, record_sentence, byte_of, read_sentence, sheet_sentence, load_named, blocked_sentence};
ghost use Rattle.verdicts.specs.Said.{check_sentence, plan_sentence, bad_flow_row, share_sentence, mend_sentence};
ghost use Rattle.verdicts.specs.Said.{record_said, read_said, sheet_said, check_said, plan_said, share_said, mend_said, other_plan_line};
ghost use Rattle.verdicts.specs.Said.{bad_list_line, repeats_line};

use checker::CheckError;
use mender::MendError;
use phrases::Phrase;
use planner::PlanError;
use records::Refusal;
use say_refusals::{Place, Sentence, put_sentence};
use say_ways::{changes_sentence, clash_sentence};
use shares::{Fragments, ShareError, Slots};
use sheet::SheetError;
use site::{Fault, Site, within};
use verdicts::File;

const VALID: usize = 0;

const COUNT: usize = 4;

const PLANNED: usize = 5;

const NO_ROOM: usize = 6;

const KEPT_NO_ROOM: usize = 7;

const SHARE: usize = 10;

const BAD_SLOTS: usize = 11;

const BAD_BURST: usize = 12;

const BAD_PERIOD: usize = 13;

const BAD_REPEATS: usize = 14;

const OTHER_PLAN: usize = 15;

const BLOCKED: usize = 16;

const BAD_LIST: usize = 17;

const REPEATS_TAKEN: usize = 19;

// Puts a sentence: a row of the table with its values, or a refusal, or nothing.
fn put(out: &mut [u8], at: usize, what: Sentence) -> usize
    requires { at + 2000 ≤ length out.old }
    ensures { Put out.old at (sentence verdict_lines what) 2000 out.new result }
{
    put_sentence(
        out,
        at,
        b"valid\n|\
          refused 6: cells @1 and @2 clash (@1 reaches @2), and both send in slot @3, channel @4\n|\
          refused 6: cells @1 and @2 clash (@2 reaches @1), and both send in slot @3, channel @4\n|\
          refused 6: cells @1 and @2 clash (each reaches the other), and both send in slot @3, channel @4\n|\
          refused 7: cell @1 sends @2 time@b in a superframe, and its load is @3\n|\
          planned: @1 cell@a, @2 slot@b, @3 channel@c\n|\
          refused 5, cell @1: no room for @2 of its fragments; duggfrask why says what that means\n|\
          refused 5, cell @1: keeping these reservations leaves no room for @2 of its fragments; a fresh plan may do\n|\
          valid as it is: nothing to change\n|\
          mended with @1 change@a\n|\
          share @1 fragment@a in a superframe\nqueue at most @2 fragment@b\ndelay at most @3 slot@c\n|\
          refused 1: the slots are not 1 to 128\n|\
          refused 15: the burst is not 1 to 65,535\n|\
          refused 15: the period is not 1 to 65,535\n|\
          refused 15: the repeats are not 1 to 4\n|\
          refused: the plan is for @1 cell@a, @2 slot@b and @3 channel@c, and the site is of another size\n|\
          refused 22: cell @1 sends in slot @2, channel @3, which is blocked\n|\
          --blocked: at character @1 stands no slot.channel of this site\n|\
          refused 6: cells @1 and @2 clash (both reach a third cell), and both send in slot @3, channel @4\n|\
          repeats @1, since none were given\n|",
        what,
    )
}

// What is wrong with a record.
fn fault_sentence(fault: Fault) -> Sentence
    ensures { result ≡ fault_sentence fault }
{
    match fault {
        Fault::Size => Sentence::Refusal(1, None),
        Fault::Rule => Sentence::Refusal(24, None),
        Fault::Load(cell) => Sentence::Refusal(2, Some(Place::Cell(cell))),
        Fault::Reach(cell) => Sentence::Refusal(3, Some(Place::Cell(cell))),
        Fault::Blocked(position) => Sentence::Refusal(20, Some(Place::Position(position))),
    }
}

// What is wrong with a record that was asked; nothing to say where nothing is.
fn record_sentence(reply: Result<(), Fault>) -> Sentence
    ensures { result ≡ record_sentence reply }
{
    let Err(fault) = reply else {
        return Sentence::Plain(Phrase::Silent);
    };
    fault_sentence(fault)
}

// A byte of a file.
fn byte_of(file: File, offset: usize) -> Place
    ensures { result ≡ byte_of file offset }
{
    match file {
        File::SiteFile => Place::Byte(offset),
        File::PlanFile => Place::PlanByte(offset),
    }
}

// A file that was read, or its refusal.
fn read_sentence(file: File, reply: Result<(), Refusal>) -> Sentence
    ensures { result ≡ read_sentence file reply }
{
    match reply {
        Ok(()) => Sentence::Plain(Phrase::Silent),
        Err(refusal) => Sentence::Refusal(
            refusal.number as usize,
            Some(byte_of(file, refusal.place)),
        ),
    }
}

// A sheet that was read, or its refusal.
fn sheet_sentence(reply: Result<(), SheetError>) -> Sentence
    ensures { result ≡ sheet_sentence reply }
{
    match reply {
        Ok(()) => Sentence::Plain(Phrase::Silent),
        Err(SheetError::BadLine(line)) => Sentence::Refusal(17, Some(Place::Line(line))),
        Err(SheetError::Record(fault)) => fault_sentence(fault),
    }
}

// The load of a cell, by its number.
#[tactic(auto, unfolding(verdicts::specs::Said::load_named))]
fn load_of(site: Site, cell: usize) -> usize
    ensures { result ≡ load_named site cell }
{
    if cell < 1 {
        return 0;
    }
    if 32 < cell {
        return 0;
    }
    let loads = site.loads;
    loads[cell - 1] as usize
}

// A cell that sends at a blocked position, by slot and channel.
#[tactic(auto, unfolding(verdicts::specs::Said::blocked_sentence))]
fn blocked_sentence(site: Site, p: usize, cell: usize) -> Sentence
    ensures { result ≡ blocked_sentence site p cell }
{
    let channels = site.channels as usize;
    if channels < 1 {
        return Sentence::Refusal(22, None);
    }
    if 65535 < p {
        return Sentence::Refusal(22, None);
    }
    Sentence::Plain(Phrase::Row(BLOCKED, cell, p / channels + 1, p % channels + 1, 0))
}

// A table that is valid, or the first thing wrong with it.
fn check_sentence(site: Site, reply: Result<(), CheckError>) -> Sentence
    ensures { result ≡ check_sentence site reply }
{
    match reply {
        Ok(()) => Sentence::Plain(Phrase::Row(VALID, 0, 0, 0, 0)),
        Err(CheckError::TableShort) => Sentence::Refusal(4, None),
        Err(CheckError::Blocked(p, cell)) => blocked_sentence(site, p, cell),
        Err(CheckError::Clash(p, a, c)) => clash_sentence(site, p, a, c),
        Err(CheckError::Count(cell, times)) => Sentence::Plain(Phrase::Row(
            COUNT,
            cell,
            times,
            load_of(site, cell),
            0,
        )),
        Err(CheckError::Record(fault)) => fault_sentence(fault),
    }
}

// What was planned, or why not.
fn plan_sentence(site: Site, reply: Result<(), PlanError>) -> Sentence
    ensures { result ≡ plan_sentence site reply }
{
    match reply {
        Ok(()) => Sentence::Plain(Phrase::Row(
            PLANNED,
            site.cells as usize,
            site.slots as usize,
            site.channels as usize,
            0,
        )),
        Err(PlanError::TableShort) => Sentence::Refusal(4, None),
        Err(PlanError::NoRoom(cell, short)) => Sentence::Plain(Phrase::Row(
            NO_ROOM, cell, short, 0, 0,
        )),
        Err(PlanError::Record(fault)) => fault_sentence(fault),
    }
}

// The row that names which of a flow's numbers is wrong, the first that is: where the burst and the period are in range, the repeats are not.
#[tactic(auto, unfolding(verdicts::specs::Said::bad_flow_row))]
fn bad_flow_row(burst: usize, period: usize) -> usize
    ensures { result ≡ bad_flow_row burst period }
{
    if !within(burst, 65535) {
        return BAD_BURST;
    }
    if !within(period, 65535) {
        return BAD_PERIOD;
    }
    BAD_REPEATS
}

// A share with its bounds, or its refusal, for a flow with this burst and period.
fn share_sentence(
    burst: usize,
    period: usize,
    reply: Result<(Fragments, Fragments, Slots), ShareError>,
) -> Sentence
    ensures { result ≡ share_sentence burst period reply }
{
    match reply {
        Ok((share, queue, delay)) => Sentence::Plain(Phrase::Row(
            SHARE,
            share.0 as usize,
            queue.0 as usize,
            delay.0 as usize,
            0,
        )),
        Err(ShareError::OutOfRange) => Sentence::Plain(Phrase::Row(BAD_SLOTS, 0, 0, 0, 0)),
        Err(ShareError::BadFlow) => Sentence::Plain(Phrase::Row(
            bad_flow_row(burst, period),
            0,
            0,
            0,
            0,
        )),
        Err(ShareError::BigShare) => Sentence::Refusal(16, None),
    }
}

// A table that was mended, or why not.
fn mend_sentence(reply: Result<usize, MendError>) -> Sentence
    ensures { result ≡ mend_sentence reply }
{
    match reply {
        Ok(number) => changes_sentence(number),
        Err(MendError::TableShort) => Sentence::Refusal(4, None),
        Err(MendError::NoRoom(cell, short)) => Sentence::Plain(Phrase::Row(
            KEPT_NO_ROOM,
            cell,
            short,
            0,
            0,
        )),
        Err(MendError::ListShort(_)) => Sentence::Refusal(13, None),
        Err(MendError::Record(fault)) => fault_sentence(fault),
    }
}

// What is wrong with a record, or nothing. No twin of `put_sheet_read`: each chooses its sentence from another type of answer.
pub fn put_fault(out: &mut [u8], at: usize, reply: Result<(), Fault>) -> usize
    requires { at + 2000 ≤ length out.old }
    ensures { Put out.old at (record_said reply) 2000 out.new result }
{
    put(out, at, record_sentence(reply))
}

// A file that was read, or its refusal. No twin of `put_check` and `put_plan`: each chooses its sentence from another type of answer.
pub fn put_read(out: &mut [u8], at: usize, file: File, reply: Result<(), Refusal>) -> usize
    requires { at + 2000 ≤ length out.old }
    ensures { Put out.old at (read_said file reply) 2000 out.new result }
{
    put(out, at, read_sentence(file, reply))
}

// A sheet that was read, or its refusal.
pub fn put_sheet_read(out: &mut [u8], at: usize, reply: Result<(), SheetError>) -> usize
    requires { at + 2000 ≤ length out.old }
    ensures { Put out.old at (sheet_said reply) 2000 out.new result }
{
    put(out, at, sheet_sentence(reply))
}

// A table that is valid, or the first thing wrong with it.
pub fn put_check(out: &mut [u8], at: usize, site: Site, reply: Result<(), CheckError>) -> usize
    requires { at + 2000 ≤ length out.old }
    ensures { Put out.old at (check_said site reply) 2000 out.new result }
{
    put(out, at, check_sentence(site, reply))
}

// What was planned, or why not.
pub fn put_plan(out: &mut [u8], at: usize, site: Site, reply: Result<(), PlanError>) -> usize
    requires { at + 2000 ≤ length out.old }
    ensures { Put out.old at (plan_said site reply) 2000 out.new result }
{
    put(out, at, plan_sentence(site, reply))
}

// A plan that is of another size than the site.
pub fn put_other_plan(
    out: &mut [u8],
    at: usize,
    cells: usize,
    slots: usize,
    channels: usize,
) -> usize
    requires { at + 2000 ≤ length out.old }
    ensures { Put out.old at (other_plan_line cells slots channels) 2000 out.new result }
{
    put(
        out,
        at,
        Sentence::Plain(Phrase::Row(OTHER_PLAN, cells, slots, channels, 0)),
    )
}

// A list of blocked positions that is none: the character, counted from 1, at which its first item begins that is no item.
// `put_repeats` stays beside it: both are public, and one function for both would take a row of the table from its callers.
pub fn put_bad_list(out: &mut [u8], at: usize, character: usize) -> usize
    requires { at + 2000 ≤ length out.old }
    ensures { Put out.old at (bad_list_line character) 2000 out.new result }
{
    put(
        out,
        at,
        Sentence::Plain(Phrase::Row(BAD_LIST, character, 0, 0, 0)),
    )
}

// The repeats that were taken for a flow that gave none.
pub fn put_repeats(out: &mut [u8], at: usize, repeats: usize) -> usize
    requires { at + 2000 ≤ length out.old }
    ensures { Put out.old at (repeats_line repeats) 2000 out.new result }
{
    put(
        out,
        at,
        Sentence::Plain(Phrase::Row(REPEATS_TAKEN, repeats, 0, 0, 0)),
    )
}

// A share with its bounds, or its refusal, for a flow with this burst and period.
pub fn put_share(
    out: &mut [u8],
    at: usize,
    burst: usize,
    period: usize,
    reply: Result<(Fragments, Fragments, Slots), ShareError>,
) -> usize
    requires { at + 2000 ≤ length out.old }
    ensures { Put out.old at (share_said burst period reply) 2000 out.new result }
{
    put(out, at, share_sentence(burst, period, reply))
}

// A table that was mended, or why not.
pub fn put_mend(out: &mut [u8], at: usize, reply: Result<usize, MendError>) -> usize
    requires { at + 2000 ≤ length out.old }
    ensures { Put out.old at (mend_said reply) 2000 out.new result }
{
    put(out, at, mend_sentence(reply))
}
