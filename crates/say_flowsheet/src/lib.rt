// What is said of a sheet of flows that was read, written into a lent buffer at `at`. The answer is where the next byte goes.
#![tactic(auto)]

ghost use Rattle.std.specs.Prelude.{◌≡◌, ◌+◌, ◌≤◌, length};
ghost use Rattle.phrases.specs.Put.{Put};
ghost use Rattle.say_flowsheet.specs.Said.{flow_sheet_said};

use flowsheet::FlowsError;
use say_refusals::{Place, put_refused};

// A sheet of flows that was read, or its refusal.
pub fn put_flow_sheet(out: &mut [u8], at: usize, reply: Result<(), FlowsError>) -> usize
    requires { at + 2000 ≤ length out.old }
    ensures { Put out.old at (flow_sheet_said reply) 2000 out.new result }
{
    match reply {
        Ok(()) => at,
        Err(FlowsError::BadLine(line)) => put_refused(out, at, 17, Some(Place::Line(line))),
        Err(FlowsError::TooMany) => put_refused(out, at, 18, None),
    }
}
