// The command of the desk that edits a site. Each edit is two arguments, its name and its word. They are made one after the other; the first that is refused
// ends it, and nothing is written.
ghost use Rattle.std.specs.Prelude.{◌≡◌, ◌≤◌, ◌<◌, ◌+◌, length};

use arguments::NUMBERS;
use blocklist::BadList;
use editlist::{EditError, EditRead, Kind};
use infiles::site_of;
use reply::{no, yes};
use say_edits::Part;
use site::{Edited, Site};

// A part of a line, as words.
fn say(rt: &HostRuntime, text: &mut [u8], part: Part)
    requires { 65536 ≤ length text.old }
{
    let end = say_edits::put_part(text, 0, part);
    reply::message(rt, text, end);
}

// The last part of a line of a command that is used wrongly.
fn say_wrong(rt: &HostRuntime, text: &mut [u8], part: Part)
    requires { 65536 ≤ length text.old }
{
    say(rt, text, part);
    reply::wrong(rt, b"", 0);
}

// An argument as it was typed.
fn say_word(rt: &HostRuntime, i: usize) {
    let mut word = [0u8; 65536];
    let n = arguments::put(rt, i, &mut word);
    reply::message(rt, &word, n);
}

// An edit's name that is none.
fn no_edit(rt: &HostRuntime, name: usize, text: &mut [u8])
    requires { 65536 ≤ length text.old }
{
    say(rt, text, Part::Quoted);
    say_word(rt, name);
    say_wrong(rt, text, Part::NoName);
}

// An edit's name with nothing after it.
fn no_word(rt: &HostRuntime, name: usize, kind: Kind, text: &mut [u8])
    requires { 65536 ≤ length text.old }
{
    say(rt, text, Part::After);
    say_word(rt, name);
    say(rt, text, Part::Nothing);
    say_wrong(rt, text, Part::Takes(Some(kind)));
}

// An edit's name with a word that it does not take.
fn bad_word(rt: &HostRuntime, name: usize, word: usize, kind: Kind, text: &mut [u8])
    requires { 65536 ≤ length text.old }
{
    say(rt, text, Part::After);
    say_word(rt, name);
    say(rt, text, Part::Stands);
    say_word(rt, word);
    say(rt, text, Part::Closed);
    say_wrong(rt, text, Part::Takes(Some(kind)));
}

// Whether two arguments are an edit; where they are not, the text is said.
fn edit_good(rt: &HostRuntime, name: usize, word: usize, count: usize, text: &mut [u8]) -> bool
    requires { 65536 ≤ length text.old }
{
    let mut first = [0u8; 65536];
    let n = arguments::put(rt, name, &mut first);
    let Some(kind) = editlist::kind_of(&first[..n]) else {
        no_edit(rt, name, text);
        return false;
    };
    if count <= word {
        no_word(rt, name, kind, text);
        return false;
    }
    let mut second = [0u8; 65536];
    let m = arguments::put(rt, word, &mut second);
    let read = editlist::read_edit(&first[..n], &second[..m]);
    if let Err(EditError::Bad) = read {
        bad_word(rt, name, word, kind, text);
        return false;
    }
    true
}

// Whether the arguments up to the last are edits; where one is not, the text of the first that is wrong is said.
fn edits_good(rt: &HostRuntime, count: usize, text: &mut [u8]) -> bool
    requires { 65536 ≤ length text.old }
{
    for name in (NUMBERS..count).step_by(2) {
        if !edit_good(rt, name, name + 1, count, text) {
            return false;
        }
    }
    true
}

// The words of an edit, before its refusal.
fn say_edit(rt: &HostRuntime, name: usize, word: usize, text: &mut [u8])
    requires { 65536 ≤ length text.old }
{
    say_word(rt, name);
    say(rt, text, Part::Blank);
    say_word(rt, word);
    say(rt, text, Part::Colon);
}

// The site after an edit; where it is refused, none, and the refusal is said.
fn made(rt: &HostRuntime, edited: Edited, name: usize, word: usize, text: &mut [u8]) -> Option<Site>
    requires { 65536 ≤ length text.old }
{
    if let Err(fault) = edited.answer {
        say_edit(rt, name, word, text);
        let end = say_verdicts::put_fault(text, 0, Err(fault));
        no(rt, text, end);
        return None;
    }
    Some(edited.site)
}

// A place counted from 1. No list has one past its 65,536 bytes.
pub fn from_one(at: usize) -> usize
    ensures counted { at ≤ 65536 → result ≡ at + 1 }
    ensures past { 65536 < at → result ≡ at }
{
    if 65536 < at {
        return at;
    }
    at + 1
}

// What is blocked, by a list that is read with the sizes that the site has by now.
fn listed(
    rt: &HostRuntime,
    site: Site,
    list: &[u8],
    name: usize,
    word: usize,
    text: &mut [u8],
) -> Option<Site>
    requires { 65536 ≤ length text.old }
{
    let read = blocklist::read_list(list, site.slots, site.channels);
    let blocked = read.blocked;
    if let Err(BadList(at)) = read.answer {
        say_edit(rt, name, word, text);
        say_wrong(rt, text, Part::BadList(from_one(at)));
        return None;
    }
    made(rt, resize::set_blocked(site, blocked), name, word, text)
}

// The site with one edit made; none where the edit is refused, and that is said. Words that are none were found before.
fn edit(rt: &HostRuntime, site: Site, name: usize, word: usize, text: &mut [u8]) -> Option<Site>
    requires { 65536 ≤ length text.old }
{
    let mut first = [0u8; 65536];
    let n = arguments::put(rt, name, &mut first);
    let mut second = [0u8; 65536];
    let m = arguments::put(rt, word, &mut second);
    match editlist::read_edit(&first[..n], &second[..m]) {
        Ok(EditRead::Done(edit)) => made(rt, editlist::make_edit(site, edit), name, word, text),
        Ok(EditRead::Listed) => listed(rt, site, &second[..m], name, word, text),
        Err(_) => None,
    }
}

// The site with all edits made, one after the other; none where one is refused.
fn edits(rt: &HostRuntime, site: Site, count: usize, text: &mut [u8]) -> Option<Site>
    requires { 65536 ≤ length text.old }
{
    let mut now = site;
    for name in (NUMBERS..count).step_by(2) {
        now = edit(rt, now, name, name + 1, text)?;
    }
    Some(now)
}

// Edits a site.
pub fn run_set(rt: &HostRuntime, input: &[u8], out: &mut [u8], text: &mut [u8])
    requires { 65536 ≤ length text.old }
{
    let count = arguments::count(rt);
    if count <= NUMBERS {
        say_wrong(rt, text, Part::NoneGiven);
        return;
    }
    if !edits_good(rt, count, text) {
        return;
    }
    let Some(site) = site_of(rt, input, text) else {
        return;
    };
    let Some(last) = edits(rt, site, count, text) else {
        return;
    };
    let Ok(size) = sitefile::write_site(last, out) else {
        reply::unwritten(rt);
        return;
    };
    yes(rt, out, size);
}
