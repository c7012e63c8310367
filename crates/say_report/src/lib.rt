// The page of a report, written into a lent buffer at `at`: its head, and the rows between which its texts stand. The answer is where the next byte goes.
#![tactic(auto)]

ghost use Rattle.std.specs.Prelude.{◌+◌, ◌*◌, ◌≤◌, length};
ghost use Rattle.phrases.specs.Put.{Put};
ghost use Rattle.phrases.specs.Phrases.{phrase};
ghost use Rattle.say_report.specs.Lines.{report_lines};
ghost use Rattle.say_report.specs.Page.{report_line, report_look, report_title, report_size, report_head};

use escaping::put_escaped;
use phrases::{Phrase, put_phrase};
use site::Site;
use text::put_text;

const DOCUMENT: usize = 0;

const STYLE: usize = 1;

const BODY: usize = 2;

const SIZE: usize = 3;

// Puts a row of the table, with its values.
fn put(out: &mut [u8], at: usize, what: Phrase) -> usize
    requires { at + 3000 ≤ length out.old }
    ensures { Put out.old at (phrase report_lines what) 3000 out.new result }
{
    put_phrase(
        out,
        at,
        b"<!DOCTYPE html>\n<html lang=\"en\">\n<head>\n<meta charset=\"utf-8\"/>\n<meta name=\"viewport\" content=\"width=device-width\"/>\n<title>|\
          </title>\n<style>|\
          </style>\n</head>\n<body>\n<h1>|\
          </h1>\n<p>@1 cell@a, @2 slot@b, @3 channel@c, rule @4</p>\n|\
          <section>\n<h2>What can be said of the site</h2>\n<pre>|\
          <section>\n<h2>The plan is not valid</h2>\n<pre>|\
          <section>\n<h2>The plan, cell by cell</h2>\n<pre>|\
          <section>\n<h2>The given plan, cell by cell</h2>\n<pre>|\
          <section>\n<h2>The flows</h2>\n<pre>|\
          <section>\n<h2>What mends the plan</h2>\n<pre>|\
          </pre>\n</section>\n|\
          <section class=\"picture\">\n<h2>The site and its plan</h2>\n|\
          </section>\n|\
          <section>\n<h2>The plan, cell by cell</h2>\n<p>No plan is found.</p>\n</section>\n|\
          </body>\n</html>\n|",
        what,
    )
}

// A row of the page by its number.
pub fn put_report_row(out: &mut [u8], at: usize, row: usize) -> usize
    requires { at + 3000 ≤ length out.old }
    ensures { Put out.old at (report_line row) 3000 out.new result }
{
    put(out, at, Phrase::Row(row, 0, 0, 0, 0))
}

// How the page looks.
fn put_look(out: &mut [u8], at: usize) -> usize
    requires { at + 1000 ≤ length out.old }
    ensures { Put out.old at report_look 1000 out.new result }
{
    put_text(
        out,
        at,
        b"\n@page { size: A4; margin: 15mm; }\n\
          body { font-family: sans-serif; line-height: 1.4; max-width: 60em; margin: 1em auto; padding: 0 1em; color: black; background: white; }\n\
          h1 { font-size: 1.4em; overflow-wrap: anywhere; }\n\
          h2 { font-size: 1.1em; break-after: avoid; }\n\
          pre { font-size: 0.85em; white-space: pre-wrap; overflow-wrap: anywhere; }\n\
          svg { max-width: 100%; height: auto; }\n\
          .picture { break-inside: avoid; }\n\
          @media print { body { max-width: none; margin: 0; padding: 0; } pre { orphans: 4; widows: 4; } svg { max-height: 240mm; } }\n",
    )
}

// The page up to its heading, with the name as its title.
fn put_title(out: &mut [u8], at: usize, name: &[u8]) -> usize
    requires { at + 10000 + 6 * length name.now ≤ length out.old }
    ensures { Put out.old at (report_title name.now) (10000 + 6 * length name.now) out.new result }
{
    let next = put_report_row(out, at, DOCUMENT);
    let next = put_escaped(out, next, name);
    let next = put_report_row(out, next, STYLE);
    let next = put_look(out, next);
    put_report_row(out, next, BODY)
}

// The size of the site.
fn put_size(out: &mut [u8], at: usize, site: Site) -> usize
    requires { at + 3000 ≤ length out.old }
    ensures { Put out.old at (phrase report_lines (report_size site)) 3000 out.new result }
{
    let cells = site.cells as usize;
    let slots = site.slots as usize;
    let channels = site.channels as usize;
    let rule = site.rule as usize;
    put(out, at, Phrase::Row(SIZE, cells, slots, channels, rule))
}

// The head of the page: the name as its title and its heading, and the size of the site.
pub fn put_report_head(out: &mut [u8], at: usize, name: &[u8], site: Site) -> usize
    requires { at + 13000 + 12 * length name.now ≤ length out.old }
    ensures { Put out.old at (report_head name.now site) (13000 + 12 * length name.now) out.new result }
{
    let begun = put_title(out, at, name);
    let next = put_escaped(out, begun, name);
    put_size(out, next, site)
}
