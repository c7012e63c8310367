// The line of a site in an audit, written into a lent buffer at `at`. The answer is where the next byte goes.
#![tactic(auto)]

ghost use Rattle.std.specs.Prelude.{◌≡◌, [], ◌∷◌, ◌+◌, ◌≤◌, length};
ghost use Rattle.phrases.specs.Put.{Put};
ghost use Rattle.phrases.specs.Phrases.{phrase};
ghost use Rattle.say_audit.specs.Lines.{audit_lines};
ghost use Rattle.say_audit.specs.Said.{shown_byte, shown_name, takes_of_phrase, audited_said, line_end, mend_phrase, remark_phrase};
ghost use Rattle.say_audit.specs.Said.{last_byte, valid_said, after_said, wrong_said, checked_said, site_refused, plan_refused, other_size_said};
ghost use Rattle.say_audit.specs.Said.{unread_said, unread_plan};

use auditing::{Extent, Form, form_phrase};
use checker::CheckError;
use finder::{FindError, Way};
use mender::MendError;
use phrases::{Phrase, put_byte, put_phrase};
use records::Refusal;
use site::Site;
use verdicts::File;

// The first of the rows of the four forms.
const FORMS: usize = 0;

const TAKES: usize = 4;

const TAKES_TO: usize = 5;

const PLAN: usize = 6;

const MENDED: usize = 7;

const NO_ROOM: usize = 8;

const NOT_MENDED: usize = 9;

const END: usize = 10;

const TWO_WAY: usize = 11;

const OTHER_SIZE: usize = 12;

const COLON: usize = 13;

const UNREAD: usize = 14;

const UNREAD_PLAN: usize = 15;

// Puts a part of a line: a row of the table with its values, or nothing.
fn put(out: &mut [u8], at: usize, what: Phrase) -> usize
    requires { at + 700 ≤ length out.old }
    ensures { Put out.old at (phrase audit_lines what) 700 out.new result }
{
    put_phrase(
        out,
        at,
        b": @1 cell@a, @2 slot@b, @3 channel@c, rule @4, chained; |\
          : @1 cell@a, @2 slot@b, @3 channel@c, rule @4, nested; |\
          : @1 cell@a, @2 slot@b, @3 channel@c, rule @4, renumbered; |\
          : @1 cell@a, @2 slot@b, @3 channel@c, rule @4, neither; |\
          ; takes @1 of @2|\
          ; takes @1 to @2 of @3|\
          ; plan |\
          ; mended with @1 change@a|\
          ; mending leaves no room for cell @1|\
          ; not mended|\
          \n|\
          ; valid if only two-way ranges clashed\n|\
          ; plan refused: it is for @1 cell@a, @2 slot@b and @3 channel@c\n|\
          : |\
          : refused: this file can't be read\n|\
          ; plan refused: this file can't be read\n|",
        what,
    )
}

// A byte of a name as it is shown: one that is no character of a line is a question mark.
fn shown(byte: u8) -> u8
    ensures { result ≡ shown_byte byte }
{
    if byte < 32 {
        return 63;
    }
    if byte == 127 {
        return 63;
    }
    byte
}

// The name of a file, as it is shown.
pub fn put_shown(out: &mut [u8], at: usize, name: &[u8]) -> usize
    requires { at + length name.now ≤ length out.old }
    ensures { Put out.old at (shown_name name.now) (length name.now) out.new result }
{
    let mut next = at;
    for &byte in name {
        next = put_byte(out, next, shown(byte));
    }
    next
}

// How many channel-slots a site takes, of so many open ones.
fn takes_line(takes: Extent, room: usize) -> Phrase
    ensures { result ≡ takes_of_phrase takes room }
{
    if takes.needs == takes.enough {
        return Phrase::Row(TAKES, takes.needs, room, 0, 0);
    }
    Phrase::Row(TAKES_TO, takes.needs, takes.enough, room, 0)
}

// What is said of a site before its plan: sizes, rule and form, what is found for it, and what it takes.
pub fn put_audited(
    out: &mut [u8],
    at: usize,
    site: Site,
    form: Form,
    found: Result<Way, FindError>,
    takes: Extent,
    room: usize,
) -> usize
    requires { at + 3900 ≤ length out.old }
    ensures { Put out.old at (audited_said site form found takes room) 3900 out.new result }
{
    let next = put(out, at, form_phrase(FORMS, site, form));
    let next = say_find::put_last(out, next, found);
    put(out, next, takes_line(takes, room))
}

// The end of a line that says nothing of a plan. It, `put_unread` and `put_unread_plan` name the row that each means: a function of a row is no plainer.
pub fn put_line_end(out: &mut [u8], at: usize) -> usize
    requires { at + 700 ≤ length out.old }
    ensures { Put out.old at line_end 700 out.new result }
{
    put(out, at, Phrase::Row(END, 0, 0, 0, 0))
}

// How many changes mend the plan, or why none do.
fn mend_phrase(reply: Result<usize, MendError>) -> Phrase
    ensures { result ≡ mend_phrase reply }
{
    match reply {
        Ok(number) => Phrase::Row(MENDED, number, 0, 0, 0),
        Err(MendError::NoRoom(cell, _)) => Phrase::Row(NO_ROOM, cell, 0, 0, 0),
        Err(_) => Phrase::Row(NOT_MENDED, 0, 0, 0, 0),
    }
}

// The line's end, and before it that a one-way reading would pass the plan, where it would.
fn remark_phrase(unseen: bool) -> Phrase
    ensures { result ≡ remark_phrase unseen }
{
    if unseen {
        return Phrase::Row(TWO_WAY, 0, 0, 0, 0);
    }
    Phrase::Row(END, 0, 0, 0, 0)
}

// Where a text that begins at `at` has its last byte: what is put there takes the place of its line's end.
fn last_byte(at: usize, end: usize) -> usize
    requires { at ≤ end }
    ensures { (result ≡ last_byte at end) × (result ≤ end) }
{
    if at < end {
        return end - 1;
    }
    at
}

// A plan that is valid: the line ends there.
fn put_valid(out: &mut [u8], at: usize, site: Site, verdict: Result<(), CheckError>) -> usize
    requires { at + 2700 ≤ length out.old }
    ensures { Put out.old at (valid_said site verdict) 2700 out.new result }
{
    let next = put(out, at, Phrase::Row(PLAN, 0, 0, 0, 0));
    say_verdicts::put_check(out, next, site, verdict)
}

// What follows the first thing wrong with a plan: its changes, and the remark.
fn put_after(out: &mut [u8], at: usize, mended: Result<usize, MendError>, unseen: bool) -> usize
    requires { at + 1400 ≤ length out.old }
    ensures { Put out.old at (after_said mended unseen) 1400 out.new result }
{
    let next = put(out, at, mend_phrase(mended));
    put(out, next, remark_phrase(unseen))
}

// A plan that is not valid: the first thing wrong, without its line's end, and what follows.
fn put_wrong(
    out: &mut [u8],
    at: usize,
    site: Site,
    verdict: Result<(), CheckError>,
    mended: Result<usize, MendError>,
    unseen: bool,
) -> usize
    requires { at + 4100 ≤ length out.old }
    ensures { Put out.old at (wrong_said site verdict mended unseen) 4100 out.new result }
{
    let start = put(out, at, Phrase::Row(PLAN, 0, 0, 0, 0));
    let end = say_verdicts::put_check(out, start, site, verdict);
    put_after(out, last_byte(start, end), mended, unseen)
}

// What is said of the plan beside a site, to the line's end: valid, or the first thing wrong, how many changes mend it, and whether it would pass if only
// two-way ranges clashed.
pub fn put_checked(
    out: &mut [u8],
    at: usize,
    site: Site,
    verdict: Result<(), CheckError>,
    mended: Result<usize, MendError>,
    unseen: bool,
) -> usize
    requires { at + 4100 ≤ length out.old }
    ensures { Put out.old at (checked_said site verdict mended unseen) 4100 out.new result }
{
    if oneway::is_valid(verdict) {
        return put_valid(out, at, site, verdict);
    }
    put_wrong(out, at, site, verdict, mended, unseen)
}

// A site file that is refused. `put_plan_refused` stays beside it: one function of the file would need a table of the row before each file's refusal.
pub fn put_site_refused(out: &mut [u8], at: usize, reply: Result<(), Refusal>) -> usize
    requires { at + 2700 ≤ length out.old }
    ensures { Put out.old at (site_refused reply) 2700 out.new result }
{
    let next = put(out, at, Phrase::Row(COLON, 0, 0, 0, 0));
    say_verdicts::put_read(out, next, File::SiteFile, reply)
}

// A plan file that is refused.
pub fn put_plan_refused(out: &mut [u8], at: usize, reply: Result<(), Refusal>) -> usize
    requires { at + 2700 ≤ length out.old }
    ensures { Put out.old at (plan_refused reply) 2700 out.new result }
{
    let next = put(out, at, Phrase::Row(PLAN, 0, 0, 0, 0));
    say_verdicts::put_read(out, next, File::PlanFile, reply)
}

// A plan of another size than the site.
pub fn put_other_size(
    out: &mut [u8],
    at: usize,
    cells: usize,
    slots: usize,
    channels: usize,
) -> usize
    requires { at + 700 ≤ length out.old }
    ensures { Put out.old at (other_size_said cells slots channels) 700 out.new result }
{
    put(out, at, Phrase::Row(OTHER_SIZE, cells, slots, channels, 0))
}

// A site file that can't be read.
pub fn put_unread(out: &mut [u8], at: usize) -> usize
    requires { at + 700 ≤ length out.old }
    ensures { Put out.old at unread_said 700 out.new result }
{
    put(out, at, Phrase::Row(UNREAD, 0, 0, 0, 0))
}

// A plan file that can't be read.
pub fn put_unread_plan(out: &mut [u8], at: usize) -> usize
    requires { at + 700 ≤ length out.old }
    ensures { Put out.old at unread_plan 700 out.new result }
{
    put(out, at, Phrase::Row(UNREAD_PLAN, 0, 0, 0, 0))
}
