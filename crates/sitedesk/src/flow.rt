// The commands of the desk on flows: the share of one, and which of a sheet of them to take.
ghost use Rattle.std.specs.Prelude.{◌≤◌, length};

use arguments::{NUMBERS, SECOND_NAME, number};
use flowlist::FlowList;
use infiles::site_of;
use inputs::Input;
use reply::{no, yes};
use shares::{Fragments, Repeats, ShareError, Slots};
use site::Site;

// Whether no repeats were given.
fn none_given(rt: &HostRuntime) -> bool {
    arguments::count(rt) <= NUMBERS + 3
}

// The share of a flow; one that says nothing of repeats has the default.
fn share_of(
    rt: &HostRuntime,
    slots: u16,
    burst: u16,
    period: u16,
) -> Result<(Fragments, Fragments, Slots), ShareError> {
    let t = Slots(slots as u32);
    let c = Fragments(burst as u32);
    let p = Slots(period as u32);
    if none_given(rt) {
        return shares::share(t, c, p);
    }
    shares::share_of(t, c, p, Repeats(number(rt, NUMBERS + 3) as u32))
}

// The share of a flow, in English. Where no repeats were given, the first line says which were taken.
pub fn run_share(rt: &HostRuntime, text: &mut [u8])
    requires { 65536 ≤ length text.old }
{
    let slots = number(rt, NUMBERS);
    let burst = number(rt, NUMBERS + 1);
    let period = number(rt, NUMBERS + 2);
    let answer = share_of(rt, slots, burst, period);
    let Ok(_) = answer else {
        let end = say_verdicts::put_share(text, 0, burst as usize, period as usize, answer);
        no(rt, text, end);
        return;
    };
    if none_given(rt) {
        let at = say_verdicts::put_repeats(text, 0, shares::default_repeats().0 as usize);
        let end = say_verdicts::put_share(text, at, burst as usize, period as usize, answer);
        yes(rt, text, end);
        return;
    }
    let end = say_verdicts::put_share(text, 0, burst as usize, period as usize, answer);
    yes(rt, text, end);
}

// Which of the flows to take, a line for each: on top of the loads of the site, or with these set aside.
fn decide(rt: &HostRuntime, site: Site, flows: FlowList, beside: bool, text: &mut [u8])
    requires { (65536 ≤ length text.old) × (flows.count ≤ 16) }
{
    let count = flows.count;
    let (taken, end) = if beside {
        let answer = admission::decide_beside(site, flows, count);
        let end = say_flows::put_beside(text, 0, site, flows, count, answer);
        (answer.is_ok(), end)
    } else {
        let answer = admission::decide(site, flows, count);
        let end = say_flows::put_admit(text, 0, site, flows, count, answer);
        (answer.is_ok(), end)
    };
    if taken {
        yes(rt, text, end);
    } else {
        no(rt, text, end);
    }
}

// Which flows of a sheet to take: on top of the loads of the site, or with these set aside. A sheet of flows may end after any line, so what a failing read cut
// off would pass for a shorter sheet: `ended` is whether it was read to its end. Every other file says how long it is.
pub fn run_admit(rt: &HostRuntime, input: &[u8], second: &[u8], ended: bool, text: &mut [u8])
    requires { 65536 ≤ length text.old }
{
    let Some(site) = site_of(rt, input, text) else {
        return;
    };
    let flows = flowsheet::read_flows(second);
    let said = flows.answer;
    let Ok(()) = said else {
        reply::named(rt, SECOND_NAME, second, Input::FlowSheet);
        let end = say_flowsheet::put_flow_sheet(text, 0, said);
        no(rt, text, end);
        return;
    };
    if !ended {
        no(
            rt,
            b"duggfrask: the sheet of flows could not be read to its end\n",
            59,
        );
        return;
    }
    let beside = number(rt, NUMBERS) == 1;
    decide(rt, site, flows.flows, beside, text);
}
