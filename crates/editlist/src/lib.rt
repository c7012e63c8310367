// An edit of a site as it is typed, two words: `load 2=12`, `reach 1-2`, `clear 1-2`, `rule 2`, `slots 9`, `channels 3`, `blocked none`; and what it makes of
// a site. The list of `blocked LIST` is read by crate `blocklist`, with the sizes that the site has by then.
#![tactic(auto)]

ghost use Rattle.std.specs.Prelude.{◌≡◌};
ghost use Rattle.editlist.specs.Read.{is_text, kind_of, one_read, two_read, load_edit, value_read, read_edit};
ghost use Rattle.editlist.specs.Made.{edited_by};

use lines::{eat, eat_text, read_number};
use resize::{set_blocked, set_channels, set_rule, set_slots};
use site::{Edited, Site};

const EQUALS: u8 = 61;

const DASH: u8 = 45;

// The largest number that an edit may have.
const LARGEST: usize = 65535;

// The kinds of edits, by their names.
#[derive(Clone, Copy)]
pub enum Kind {
    OfLoad,
    OfReach,
    OfClear,
    OfBlocked,
    OfRule,
    OfSlots,
    OfChannels,
}

// One edit, but for a list.
#[derive(Clone, Copy)]
pub enum Edit {
    SetLoad(usize, u16),
    SetReach(usize, usize),
    ClearReach(usize, usize),
    SetRule(u16),
    SetSlots(u16),
    SetChannels(u16),
    Unblock,
}

// What two words are: an edit, or `blocked` with a list.
#[derive(Clone, Copy)]
pub enum EditRead {
    Done(Edit),
    Listed,
}

// Why two words are no edit: the first is the name of none, or the second is not what the edit takes.
#[derive(Clone, Copy)]
pub enum EditError {
    NoEdit,
    Bad,
}

// Whether a word is this text.
#[tactic(auto, unfolding(crate::specs::Read::is_text))]
fn is_text(s: &[u8], text: &[u8]) -> bool
    ensures { result ≡ is_text s.now text.now }
{
    eat_text(s, 0, text) == s.len()
}

// The kind of an edit, by its name.
#[tactic(auto, unfolding(crate::specs::Read::kind_of))]
pub fn kind_of(s: &[u8]) -> Option<Kind>
    ensures { result ≡ kind_of s.now }
{
    if is_text(s, b"load") {
        return Some(Kind::OfLoad);
    }
    if is_text(s, b"reach") {
        return Some(Kind::OfReach);
    }
    if is_text(s, b"clear") {
        return Some(Kind::OfClear);
    }
    if is_text(s, b"blocked") {
        return Some(Kind::OfBlocked);
    }
    if is_text(s, b"rule") {
        return Some(Kind::OfRule);
    }
    if is_text(s, b"slots") {
        return Some(Kind::OfSlots);
    }
    if is_text(s, b"channels") {
        return Some(Kind::OfChannels);
    }
    None
}

// A plain number up to 65,535 that is all of a word.
#[tactic(auto, unfolding(crate::specs::Read::one_read))]
fn read_one(s: &[u8]) -> Result<u16, EditError>
    ensures { result ≡ one_read s.now }
{
    let a = read_number(s, 0, LARGEST);
    let value = a.value;
    if LARGEST < value {
        return Err(EditError::Bad);
    }
    if a.next != s.len() {
        return Err(EditError::Bad);
    }
    Ok(value as u16)
}

// Two plain numbers up to 65,535 with a mark between that are all of a word.
#[tactic(auto, unfolding(crate::specs::Read::two_read))]
fn read_two(s: &[u8], mark: u8) -> Result<(usize, usize), EditError>
    ensures { result ≡ two_read s.now mark }
{
    let a = read_number(s, 0, LARGEST);
    let middle = eat(s, a.next, mark);
    let b = read_number(s, middle, LARGEST);
    if b.next != s.len() {
        return Err(EditError::Bad);
    }
    Ok((a.value, b.value))
}

// The edit of a load that `CELL=LOAD` states.
#[tactic(auto, unfolding(crate::specs::Read::load_edit))]
fn load_edit(cell: usize, load: usize) -> Result<Edit, EditError>
    ensures { result ≡ load_edit cell load }
{
    if LARGEST < load {
        return Err(EditError::Bad);
    }
    Ok(Edit::SetLoad(cell, load as u16))
}

// The word after an edit's name.
fn read_value(kind: Kind, s: &[u8]) -> Result<EditRead, EditError>
    ensures { result ≡ value_read kind s.now }
{
    let edit = match kind {
        Kind::OfLoad => {
            let (cell, load) = read_two(s, EQUALS)?;
            load_edit(cell, load)?
        }
        Kind::OfReach => {
            let (from, to) = read_two(s, DASH)?;
            Edit::SetReach(from, to)
        }
        Kind::OfClear => {
            let (from, to) = read_two(s, DASH)?;
            Edit::ClearReach(from, to)
        }
        Kind::OfBlocked => {
            if !is_text(s, b"none") {
                return Ok(EditRead::Listed);
            }
            Edit::Unblock
        }
        Kind::OfRule => Edit::SetRule(read_one(s)?),
        Kind::OfSlots => Edit::SetSlots(read_one(s)?),
        Kind::OfChannels => Edit::SetChannels(read_one(s)?),
    };
    Ok(EditRead::Done(edit))
}

// Reads an edit: its name, and the word after it.
#[tactic(auto, unfolding(crate::specs::Read::read_edit))]
pub fn read_edit(name: &[u8], value: &[u8]) -> Result<EditRead, EditError>
    ensures { result ≡ read_edit name.now value.now }
{
    let kind = kind_of(name).ok_or(EditError::NoEdit)?;
    read_value(kind, value)
}

// The site with an edit made, or why it is refused.
pub fn make_edit(site: Site, edit: Edit) -> Edited
    ensures { result ≡ edited_by site edit }
{
    match edit {
        Edit::SetLoad(cell, load) => site.set_load(cell, load),
        Edit::SetReach(from, to) => site.set_reach(from, to),
        Edit::ClearReach(from, to) => site.clear_reach(from, to),
        Edit::SetRule(rule) => set_rule(site, rule),
        Edit::SetSlots(slots) => set_slots(site, slots),
        Edit::SetChannels(channels) => set_channels(site, channels),
        Edit::Unblock => set_blocked(site, [0; 32]),
    }
}
