// The sheet of flows, read: a first line, then a line for each flow, at most 16 of them.
#![tactic(auto)]

ghost use Rattle.std.specs.Prelude.{◌≡◌, ◌≤◌, drop};
ghost use Rattle.flowlist.specs.List.{no_flows};
ghost use Rattle.flowsheet.specs.Read.{field_read, flow_read, bad_flows, too_many, flows_from, read_flows};

use flowlist::{Flow, FlowList, empty, push};
use lines::{NOWHERE, Number, eat, eat_text, read_number};

// Why a sheet of flows is refused: its first bad line, from 1; or there are more than 16 flows.
#[derive(Clone, Copy)]
pub enum FlowsError {
    BadLine(usize),
    TooMany,
}

// The flows, or no flows beside a refusal.
#[derive(Clone, Copy)]
pub struct FlowsRead {
    pub flows: FlowList,
    pub answer: Result<(), FlowsError>,
}

// What a line of a flow says, and the place after it.
#[derive(Clone, Copy)]
struct FlowRead {
    pub flow: Flow,
    pub next: usize,
}

// A number at most 65,535, and the byte that has to stand after it.
fn read_field(s: &[u8], at: usize, after: u8) -> Number
    ensures { result ≡ field_read s.now at after }
{
    let v = read_number(s, at, 65535);
    let next = eat(s, v.next, after);
    Number {
        value: v.value,
        next,
    }
}

// The line of a flow.
fn read_flow(s: &[u8], at: usize) -> Option<FlowRead>
    ensures { result ≡ flow_read s.now at }
{
    let cell = read_field(s, at, 44);
    let burst = read_field(s, cell.next, 44);
    let period = read_field(s, burst.next, 44);
    let repeats = read_field(s, period.next, 44);
    let value = read_field(s, repeats.next, 13);
    let end = eat(s, value.next, 10);
    if end == NOWHERE {
        return None;
    }
    let flow = Flow {
        cell: cell.value as u16,
        burst: burst.value as u16,
        period: period.value as u16,
        repeats: repeats.value as u16,
        value: value.value as u16,
    };
    Some(FlowRead { flow, next: end })
}

// A malformed sheet.
fn bad_at(line: usize) -> FlowsRead
    ensures { result ≡ bad_flows line }
{
    FlowsRead {
        flows: empty(),
        answer: Err(FlowsError::BadLine(line)),
    }
}

// More flows than can be taken.
fn too_many() -> FlowsRead
    ensures { result ≡ too_many }
{
    FlowsRead {
        flows: empty(),
        answer: Err(FlowsError::TooMany),
    }
}

// The lines of the flows at `at`, up to the end.
fn read_lines(s: &[u8], at: usize) -> FlowsRead
    ensures { result ≡ flows_from 16 no_flows (drop at s.now) }
{
    let mut l = empty();
    let mut p = at;
    // From line to line, and these differ in length: no index is counted.
    while p < s.len() {
        if 16 <= l.count {
            return too_many();
        }
        let Some(line) = read_flow(s, p) else {
            return bad_at(l.count + 2);
        };
        l = push(l, line.flow);
        p = line.next;
    }
    FlowsRead {
        flows: l,
        answer: Ok(()),
    }
}

// Reads a sheet of flows.
pub fn read_flows(bytes: &[u8]) -> FlowsRead
    ensures read { result ≡ read_flows bytes.now }
    ensures few { result.flows.count ≤ 16 }
{
    let at = eat_text(bytes, 0, b"cell,burst,period,repeats,value\r\n");
    if at == NOWHERE {
        return bad_at(1);
    }
    read_lines(bytes, at)
}
