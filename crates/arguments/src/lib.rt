// The arguments that the script `duggfrask` gives a program: 1 is the command, 2 and 3 are the names of its inputs, and its numbers follow, and a list.
#![tactic(auto)]

ghost use Rattle.std.specs.Prelude.{◌≤◌, length};

use std::env::{Env, FillError};

// The arguments that are the names of the inputs, and the first that is a number.
pub const FIRST_NAME: usize = 2;

pub const SECOND_NAME: usize = 3;

pub const NUMBERS: usize = 4;

// Of a command with three inputs and no numbers, the name of the third.
pub const THIRD_NAME: usize = 4;

// The most bytes of an argument that is a command or a number.
const WORD: usize = 64;

// The commands of the desk, each by its word: Plan is `plan`, ReportHead is `report-head`.
#[derive(Clone, Copy)]
pub enum Command {
    Admit,
    Audit,
    Carry,
    Check,
    Clashes,
    Counts,
    Diff,
    Find,
    Heading,
    Load,
    Mend,
    Picture,
    Plan,
    Renumber,
    ReportHead,
    ReportPart,
    Room,
    Search,
    Set,
    Share,
    Sheet,
    Show,
    Site,
    Tidy,
    Why,
}

// Puts argument i at the start of a buffer and says how many bytes it has: 0 where there is none, or where it does not fit.
pub fn put(rt: &impl Env, i: usize, buffer: &mut [u8]) -> usize
    ensures { result ≤ length buffer.new }
{
    match rt.arg(i, buffer) {
        Ok(n) => n,
        Err(_) => 0,
    }
}

// How many arguments there are, with the program's own name, which is argument 0.
pub fn count(rt: &impl Env) -> usize {
    let mut letter = [0u8; 1];
    for i in 0..usize::MAX {
        if let Err(FillError::NotPresent) = rt.arg(i, &mut letter) {
            return i;
        }
    }
    usize::MAX
}

// The command that argument 1 names, all of it; none where it is no command's word.
pub fn read_command(rt: &impl Env) -> Option<Command> {
    let mut word = [0u8; WORD];
    let n = put(rt, 1, &mut word);
    match &word[..n] {
        b"admit" => Some(Command::Admit),
        b"audit" => Some(Command::Audit),
        b"carry" => Some(Command::Carry),
        b"check" => Some(Command::Check),
        b"clashes" => Some(Command::Clashes),
        b"counts" => Some(Command::Counts),
        b"diff" => Some(Command::Diff),
        b"find" => Some(Command::Find),
        b"heading" => Some(Command::Heading),
        b"load" => Some(Command::Load),
        b"mend" => Some(Command::Mend),
        b"picture" => Some(Command::Picture),
        b"plan" => Some(Command::Plan),
        b"renumber" => Some(Command::Renumber),
        b"report-head" => Some(Command::ReportHead),
        b"report-part" => Some(Command::ReportPart),
        b"room" => Some(Command::Room),
        b"search" => Some(Command::Search),
        b"set" => Some(Command::Set),
        b"share" => Some(Command::Share),
        b"sheet" => Some(Command::Sheet),
        b"show" => Some(Command::Show),
        b"site" => Some(Command::Site),
        b"tidy" => Some(Command::Tidy),
        b"why" => Some(Command::Why),
        _ => None,
    }
}

// Argument i as a number; 0 where it is none up to 65,535. No call takes 0 for slots, channels, a rule, a burst, a period or repeats.
pub fn number(rt: &impl Env, i: usize) -> u16 {
    let mut word = [0u8; WORD];
    let n = put(rt, i, &mut word);
    let read = lines::read_number(&word, 0, 65535);
    let value = read.value;
    if read.next != n {
        return 0;
    }
    if 65535 < value {
        return 0;
    }
    value as u16
}

// One digit more of a number. Past the largest number it stays the largest.
fn tenfold(value: u64, digit: u64) -> u64
    requires { digit ≤ 9 }
{
    if 1844674407370955160 < value {
        return 18446744073709551615;
    }
    let ten = value * 10;
    if 18446744073709551615 - ten < digit {
        return 18446744073709551615;
    }
    ten + digit
}

// A digit as a number; 10 where a byte is none.
fn digit(byte: u8) -> u64
    ensures { result ≤ 10 }
{
    if byte < 48 {
        return 10;
    }
    if 57 < byte {
        return 10;
    }
    byte as u64 - 48
}

// The tries of a search, argument 4. The script gives digits alone, and after them the word has zeros, which are none.
pub fn tries(rt: &impl Env) -> u64 {
    let mut word = [0u8; WORD];
    put(rt, NUMBERS, &mut word);
    let mut value: u64 = 0;
    for i in 0..WORD {
        let next = digit(word[i]);
        if 9 < next {
            return value;
        }
        value = tenfold(value, next);
    }
    value
}
