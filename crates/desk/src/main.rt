// The desk's program, run by the script `duggfrask`, whose head says how the two speak: argument 1 is the command, 2 and 3 are the names of its inputs,
// and its numbers follow, and a list; and `infiles` where its inputs are.
// What it says and writes is made by proved functions over slices; here it is only read and written, by way of `reply`.
//
// Every buffer has 65,536 bytes: the table of the largest site has as many, 32 cells by 2,048 positions.
// What is said at once has far fewer, and so has every good input. Of a longer one only the first 65,536 bytes are read, and they are refused.
#![tactic(auto)]

ghost use Rattle.std.specs.Prelude.{◌≤◌, length};

use arguments::{Command, NUMBERS, number};
use infiles::{FIRST, SECOND, THIRD, read_input};
use reply::no;

// Does what the command says. `ended` is whether the second input was read to its end.
fn answer(
    rt: &HostRuntime,
    command: Command,
    input: &[u8],
    second: &[u8],
    ended: bool,
    third: &[u8],
    old: &mut [u8],
    table: &mut [u8],
    out: &mut [u8],
    text: &mut [u8],
)
    requires in_bounds { 65536 ≤ length table.old }
    requires in_bounds_2 { 65536 ≤ length text.old }
    requires input_len_bound { length input.now ≤ 65536 }
{
    match command {
        Command::Admit => sitedesk::flow::run_admit(rt, input, second, ended, text),
        Command::Audit => auditdesk::run_audit(rt),
        Command::Carry => plandesk::number::run_carry(rt, input, second, old, table, out, text),
        Command::Check if number(rt, NUMBERS) == 1 => {
            showdesk::list::run_check_all(rt, input, second, table, text)
        }
        Command::Check => plandesk::plan::run_check(rt, input, second, table, text),
        Command::Clashes => showdesk::list::run_clashes(rt, input, text),
        Command::Counts => auditdesk::run_counts(rt, input, text),
        Command::Diff => showdesk::list::run_diff(rt, input, second, third, old, table, text),
        Command::Find => plandesk::find::run_find(rt, input, table, out, text),
        Command::Heading => auditdesk::run_heading(rt, text),
        Command::Load => plandesk::plan::run_load(rt, input, second, old, table, out, text),
        Command::Mend => plandesk::plan::run_mend(rt, input, second, old, table, out, text),
        Command::Picture => showdesk::show::run_picture(rt, input, second, table, text),
        Command::Plan => plandesk::plan::run_plan(rt, input, table, out, text),
        Command::Renumber => plandesk::number::run_renumber(rt, input, out, text),
        Command::ReportHead => showdesk::report::run_report_head(rt, input, text),
        Command::ReportPart => showdesk::report::run_report_part(rt, input, text),
        Command::Room => plandesk::room::run_room(rt, input, table, text),
        Command::Search => plandesk::plan::run_search(rt, input, table, out, text),
        Command::Set => sitedesk::set::run_set(rt, input, out, text),
        Command::Share => sitedesk::flow::run_share(rt, text),
        Command::Sheet => sitedesk::sheets::run_sheet(rt, input, out, text),
        Command::Show => showdesk::show::run_show(rt, input, second, table, text),
        Command::Site => sitedesk::sheets::run_site(rt, input, out, text),
        Command::Tidy => sitedesk::sheets::run_tidy(rt, input, out, text),
        Command::Why => plandesk::find::run_why(rt, input, table, text),
    }
}

// Reads the inputs, and answers.
fn main(rt: HostRuntime) {
    let mut input = [0u8; 65536];
    let first = read_input(&rt, FIRST, true, &mut input);
    let mut second = [0u8; 65536];
    let next = read_input(&rt, SECOND, first.own, &mut second);
    let mut third = [0u8; 65536];
    let last = read_input(&rt, THIRD, first.own & next.own, &mut third);
    let Some(command) = arguments::read_command(&rt) else {
        no(&rt, b"duggfrask: there is no such command\n", 36);
        return;
    };
    let mut table = [0u8; 65536];
    let mut old = [0u8; 65536];
    let mut out = [0u8; 65536];
    let mut text = [0u8; 65536];
    answer(
        &rt,
        command,
        &input[..first.size],
        &second[..next.size],
        next.ended,
        &third[..last.size],
        &mut old,
        &mut table,
        &mut out,
        &mut text,
    );
}
