// The text of the changes of a table, a slot of a cell at a time, written into a lent buffer. Each function puts its text at `at` and answers where
// the next byte goes. The list of changes is not asked for: the table as it was and the table as it is say the same.
#![tactic(auto)]

ghost use Rattle.std.specs.Prelude.{◌≡◌, ◌+◌, ◌*◌, ◌≤◌, length};
ghost use Rattle.theory.specs.Greedy.{sends};
ghost use Rattle.phrases.specs.Put.{Put};
ghost use Rattle.phrases.specs.Phrases.{phrase};
ghost use Rattle.say_changes.specs.Lines.{change_lines};
ghost use Rattle.say_changes.specs.Said.{channel_phrase, slot_said};

use phrases::{Phrase, put_phrase};

const ADDED: usize = 0;

const DROPPED: usize = 1;

// Puts a line: a row of the table with its values, or nothing.
fn put(out: &mut [u8], at: usize, what: Phrase) -> usize
    requires { at + 400 ≤ length out.old }
    ensures { Put out.old at (phrase change_lines what) 400 out.new result }
{
    put_phrase(
        out,
        at,
        b"cell @1: slot @2 channel @3 added\n|\
          cell @1: slot @2 channel @3 dropped\n|",
        what,
    )
}

// One channel of a slot, by its byte as it is and as it was; nothing where both are reservations, or neither is.
fn channel_phrase(is: u8, was: u8, cell: usize, slot: usize, channel: usize) -> Phrase
    ensures { result ≡ channel_phrase (sends is) (sends was) cell slot channel }
{
    if is == 1 {
        if was == 1 {
            return Phrase::Silent;
        }
        return Phrase::Row(ADDED, cell, slot, channel, 0);
    }
    if was == 1 {
        return Phrase::Row(DROPPED, cell, slot, channel, 0);
    }
    Phrase::Silent
}

// The text of the changes of a cell in one slot: `from` is where the slot's bytes begin in either table.
pub fn put_changes(
    out: &mut [u8],
    at: usize,
    old: &[u8],
    new: &[u8],
    from: usize,
    channels: usize,
    cell: usize,
    slot: usize,
) -> usize
    requires { (from + channels ≤ length old.now) × (from + channels ≤ length new.now) × (at + 400 * channels ≤ length out.old) }
    ensures { Put out.old at (slot_said old.now new.now from cell slot channels)
        (400 * channels) out.new result }
{
    let mut next = at;
    for f in 0..channels {
        let is = new[from + f];
        let was = old[from + f];
        next = put(out, next, channel_phrase(is, was, cell, slot, f + 1));
    }
    next
}
