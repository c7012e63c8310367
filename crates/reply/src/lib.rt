// How a program answers the script `duggfrask`, whose head says what stands on which descriptor: the result on standard output and a second one on
// descriptor 5, words on standard error, and the status, one byte, on descriptor 3; and how it reads an input. A descriptor but the first three is opened by
// its name in /dev/fd. What is read or written is no value, so these functions have no contract but that they are safe, and that no more is read than fits.
#![tactic(auto)]

ghost use Rattle.std.specs.Prelude.{◌≤◌, length};

use inputs::Input;
use std::fs::OpenOptions;
use std::io::{Print, Read, Write};

const STATUS: &str = "/dev/fd/3";

const SECOND_RESULT: &str = "/dev/fd/5";

// The descriptor of the sheet's lines of an audit.
const SHEET_RESULT: &str = "/dev/fd/7";

// As much of a buffer as there is.
pub fn within_buffer(end: usize, buffer: &[u8]) -> usize
    ensures { result ≤ length buffer.now }
{
    end.min(buffer.len())
}

// Writes the first bytes of a buffer to one of the standard streams; whether all of them were written.
fn put(to: &impl Print, buffer: &[u8], end: usize) -> bool {
    let end = within_buffer(end, buffer);
    to.write_all(&buffer[..end]).is_ok()
}

// The same to another descriptor, by its name, after what was written there before.
fn put_to(rt: &HostRuntime, name: &str, buffer: &[u8], end: usize) -> bool {
    let end = within_buffer(end, buffer);
    match OpenOptions::new().append(true).open(rt, name) {
        Ok(mut file) => file.write_all(&buffer[..end]).is_ok(),
        Err(_) => false,
    }
}

// The first bytes of a buffer, as a part of the result; whether all of them were written.
pub fn result(rt: &HostRuntime, bytes: &[u8], end: usize) -> bool {
    put(&rt.stdout(), bytes, end)
}

// The first bytes of a buffer, as the second result, of a command that has two; whether all of them were written.
pub fn second_result(rt: &HostRuntime, bytes: &[u8], end: usize) -> bool {
    put_to(rt, SECOND_RESULT, bytes, end)
}

// The first bytes of a buffer, as a part of the third result, of a command that has three; whether all of them were written.
pub fn third_result(rt: &HostRuntime, bytes: &[u8], end: usize) -> bool {
    put_to(rt, SHEET_RESULT, bytes, end)
}

// The first bytes of a buffer, as words; whether all of them were written.
pub fn message(rt: &HostRuntime, text: &[u8], end: usize) -> bool {
    put(&rt.stderr(), text, end)
}

// The name of an input, argument i, which the script gives as it is to be said; and where its bytes show another file than the one asked for, what it is. A
// name has at most 4,096 bytes.
pub fn named(rt: &HostRuntime, i: usize, input: &[u8], asked: Input) {
    let mut text = [0u8; 4096];
    let n = arguments::put(rt, i, &mut text);
    message(rt, &text, n);
    let end = inputs::put_file(&mut text, 0, inputs::input_of(input), asked);
    message(rt, &text, end);
}

// Done, or yes.
pub fn fine(rt: &HostRuntime) {
    put_to(rt, STATUS, b"0", 1);
}

// No, or refused, and the text that says why.
pub fn no(rt: &HostRuntime, text: &[u8], end: usize) {
    message(rt, text, end);
    put_to(rt, STATUS, b"1", 1);
}

// Not known.
pub fn unknown(rt: &HostRuntime) {
    put_to(rt, STATUS, b"3", 1);
}

// Used wrongly, and the text that says how.
pub fn wrong(rt: &HostRuntime, text: &[u8], end: usize) {
    message(rt, text, end);
    put_to(rt, STATUS, b"2", 1);
}

// A result that could not be written whole is none.
pub fn unwritten(rt: &HostRuntime) {
    no(rt, b"duggfrask: the result could not be written\n", 43);
}

// Done, or yes, with a result and no text.
pub fn yes(rt: &HostRuntime, bytes: &[u8], size: usize) {
    if !result(rt, bytes, size) {
        unwritten(rt);
        return;
    }
    fine(rt);
}

// How many bytes of an input were read, and whether it ended there.
#[derive(Clone, Copy)]
pub struct Taken {
    pub size: usize,
    pub ended: bool,
}

// Reads until a buffer is full, the input ends or a read fails.
pub fn take(from: &mut impl Read, buffer: &mut [u8]) -> Taken
    ensures { result.size ≤ length buffer.new }
{
    let mut size = 0;
    // Each read says how many bytes it gave.
    while size < buffer.len() {
        match from.read(&mut buffer[size..]) {
            Ok(0) => return Taken { size, ended: true },
            Ok(n) => size += n,
            Err(_) => return Taken { size, ended: false },
        }
    }
    Taken { size, ended: false }
}

// Reads standard input until a buffer is full, it ends or a read fails.
pub fn take_standard(rt: &HostRuntime, buffer: &mut [u8]) -> Taken
    ensures { result.size ≤ length buffer.new }
{
    take(&mut rt.stdin(), buffer)
}
