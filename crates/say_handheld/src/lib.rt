// What is said of a change of one load, written into a lent buffer at `at`. The answer is where the next byte goes.
#![tactic(auto)]

ghost use Rattle.std.specs.Prelude.{◌≡◌, ◌+◌, ◌≤◌, length};
ghost use Rattle.phrases.specs.Put.{Put};
ghost use Rattle.phrases.specs.Phrases.{phrase};
ghost use Rattle.say_handheld.specs.Lines.{handheld_lines};
ghost use Rattle.say_handheld.specs.Said.{change_said};

use handheld::ChangeError;
use phrases::{Phrase, put_phrase};

const CHANGED: usize = 0;

const NO_ROOM: usize = 1;

// Puts a line: a row of the table with its values.
fn put(out: &mut [u8], at: usize, what: Phrase) -> usize
    requires { at + 1000 ≤ length out.old }
    ensures { Put out.old at (phrase handheld_lines what) 1000 out.new result }
{
    put_phrase(
        out,
        at,
        b"planned: cell @1 now has load @2\n|\
          refused 5, cell @1: with this load there is no room for @2 of its fragments\n|",
        what,
    )
}

// A change of the load of a cell, by its number: what is now planned, or why not.
pub fn put_change(
    out: &mut [u8],
    at: usize,
    cell: usize,
    load: usize,
    reply: Result<(), ChangeError>,
) -> usize
    requires { at + 2000 ≤ length out.old }
    ensures { Put out.old at (change_said cell load reply) 2000 out.new result }
{
    match reply {
        Ok(()) => put(out, at, Phrase::Row(CHANGED, cell, load, 0, 0)),
        Err(ChangeError::TableShort) => say_refusals::put_refused(out, at, 4, None),
        Err(ChangeError::NotPlan) => say_refusals::put_refused(out, at, 26, None),
        Err(ChangeError::NoRoom(lacking, short)) => {
            put(out, at, Phrase::Row(NO_ROOM, lacking, short, 0, 0))
        }
        Err(ChangeError::Record(f)) => say_verdicts::put_fault(out, at, Err(f)),
    }
}
