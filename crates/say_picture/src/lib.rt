// The head and the end of a picture, written into a lent buffer at `at`: the answer is where the next byte goes.
#![tactic(auto)]

ghost use Rattle.std.specs.Prelude.{◌≡◌, ◌+◌, ◌≤◌, length};
ghost use Rattle.site.specs.Means.{Sized};
ghost use Rattle.phrases.specs.Put.{Put};
ghost use Rattle.phrases.specs.Phrases.{phrase};
ghost use Rattle.theory.specs.Net.{room};
ghost use Rattle.site.specs.Reach.{net_of};
ghost use Rattle.drawing.specs.Picture.{picture_head, fact_lines, picture_tail, tall_of, head_said, facts_phrase, tail_said};

use phrases::{Phrase, put_phrase};
use say_range::cell_step;
use say_slots::{channel_high, every_slot, slot_wide};
use site::Site;

const HEAD_ROWS: usize = 47;

const TAIL_ROWS: usize = 11;

// Puts a row of the head.
fn put_head_row(out: &mut [u8], at: usize, what: Phrase) -> usize
    requires { at + 1000 ≤ length out.old }
    ensures { Put out.old at (phrase picture_head what) 1000 out.new result }
{
    put_phrase(
        out,
        at,
        b"<svg xmlns=\"http://www.w3.org/2000/svg\" class=\"dugg\" width=\"190mm\" height=\"@1mm\" viewBox=\"0 0 1900 |\
          @10\" |\
          font-family=\"sans-serif\" font-size=\"24\">\n<title>Duggfrask</title>\n<style>\n|\
          .dugg .paper{fill:#fff}\n.dugg .tunnel{stroke:#bbb;stroke-width:8}\n.dugg text{fill:#000}\n|\
          .dugg .arc,.dugg .arrow,.dugg .third{fill:none;stroke:#000;stroke-width:4}\n|\
          .dugg .arrow{stroke-dasharray:14 6;marker-end:url(#dugg-tip)}\n|\
          .dugg .third{stroke-width:5;stroke-linecap:round;stroke-dasharray:1 11}\n|\
          .dugg .cell,.dugg rect,.dugg .sends{fill:#000}\n.dugg .heavy{fill:none;stroke:#000;stroke-width:4}\n|\
          .dugg .spare{fill:#fff;stroke:#000;stroke-width:3;stroke-dasharray:5 3}\n|\
          .dugg .load{fill:#000;stroke:#000;stroke-width:2}\n.dugg .over{font-size:36px;font-weight:bold}\n|\
          .dugg .on{fill:#fff}\n.dugg .on,.dugg .off,.dugg .tiny,.dugg .over{text-anchor:middle}\n|\
          .dugg .end{text-anchor:end}\n|\
          .dugg .title{font-size:30px;font-weight:bold}\n.dugg .tiny,.dugg .small{font-size:19px}\n|\
          .dugg .before{fill:#ddd;stroke:#000;stroke-width:2}\n.dugg .clear{fill:#ddd}\n|\
          .dugg .blocked{fill:#999}\n.dugg .wrong{fill:url(#dugg-bold)}\n|\
          .dugg .room{fill:none;stroke:#000;stroke-width:4;stroke-dasharray:4 8}\n|\
          .dugg .edge{fill:none;stroke:#999;stroke-width:1}\n.dugg rect{shape-rendering:crispEdges}\n|\
          .dugg .grid{fill:url(#dugg-grid);stroke:#000;stroke-width:2}\n|\
          .dugg .box{fill:none;stroke:#000;stroke-width:2}\n|\
          </style>\n<defs>\n<pattern id=\"dugg-bold\" width=\"16\" height=\"16\" patternUnits=\"userSpaceOnUse\">\n|\
          <path d=\"M0 0h16v16h-16z\" fill=\"#d50\"/>\n|\
          <path d=\"M0 0l16 16M0 16l16 -16\" stroke=\"#fff\" stroke-width=\"5\"/></pattern>\n|\
          <pattern id=\"dugg-grid\" x=\"150\" width=\"@2\" height=\"9\" patternUnits=\"userSpaceOnUse\">\n|\
          <path d=\"M0 0v9\" stroke=\"#999\" stroke-width=\"1\"/></pattern>\n|\
          <marker id=\"dugg-tip\" viewBox=\"0 0 10 10\" refX=\"9\" refY=\"5\" markerWidth=\"5\" markerHeight=\"5\" |\
          orient=\"auto\"><path d=\"M0 0L10 5L0 10z\"/></marker>\n</defs>\n|\
          <path class=\"paper\" d=\"M0 0h1900v@10h-1900z\"/>\n|\
          <text class=\"title\" x=\"30\" y=\"90\">Range map: @4 cell@d</text>\n|\
          <path class=\"tunnel\" d=\"M100 250h@3\"/>\n|\
          <path class=\"box\" d=\"M100 620h@3\"/>\n|\
          <text class=\"small end\" x=\"92\" y=\"644\">load</text>\n|\
          <path class=\"arc key\" d=\"M30 686Q60 646 90 686\"/>\n|\
          <text class=\"small\" x=\"100\" y=\"684\">reach each other</text>\n|\
          <path class=\"arrow key\" d=\"M270 670Q300 710 330 670\"/>\n|\
          <text class=\"small\" x=\"340\" y=\"684\">reaches one way</text>\n|\
          <path class=\"third key\" d=\"M510 686Q540 646 570 686\"/>\n|\
          <text class=\"small\" x=\"580\" y=\"684\">clash by a third cell</text>\n|\
          <circle class=\"spare\" cx=\"792\" cy=\"678\" r=\"12\"/>\n|\
          <text class=\"small\" x=\"812\" y=\"684\">no load</text>\n|\
          <circle class=\"cell\" cx=\"912\" cy=\"678\" r=\"9\"/>\n<circle class=\"heavy\" cx=\"912\" cy=\"678\" r=\"14\"/>\n|\
          <text class=\"small\" x=\"934\" y=\"684\">heaviest clash</text>\n|\
          <path class=\"load\" d=\"M1090 668h24v20h-24z\"/>\n<text class=\"small\" x=\"1124\" y=\"684\">load</text>\n|\
          <path class=\"before\" d=\"M1190 668h24v20h-24z\"/>\n|\
          <text class=\"small\" x=\"1224\" y=\"684\">earlier cells that clash with it</text>\n|\
          <path class=\"room\" d=\"M1518 678h44\"/>\n<text class=\"small\" x=\"1572\" y=\"684\">room</text>\n|\
          <text class=\"over\" x=\"1655\" y=\"690\">!</text>\n|\
          <text class=\"small\" x=\"1670\" y=\"684\">more than the room</text>\n|",
        what,
    )
}

// Puts how the site is.
fn put_fact(out: &mut [u8], at: usize, what: Phrase) -> usize
    requires { at + 1000 ≤ length out.old }
    ensures { Put out.old at (phrase fact_lines what) 1000 out.new result }
{
    put_phrase(
        out,
        at,
        b"<text class=\"end\" x=\"1870\" y=\"90\">rule @1, @2 of @3 channel-slots blocked</text>\n|",
        what,
    )
}

// Puts a row of the end.
fn put_tail_row(out: &mut [u8], at: usize, what: Phrase) -> usize
    requires { at + 1000 ≤ length out.old }
    ensures { Put out.old at (phrase picture_tail what) 1000 out.new result }
{
    put_phrase(
        out,
        at,
        b"<text class=\"title\" x=\"30\" y=\"745\">Slot map: @1 slot@a across, @2 channel@b down</text>\n|\
          <text class=\"small end\" x=\"140\" y=\"780\">slot</text>\n|\
          <path class=\"sends\" d=\"M150 @3h40v24h-40z\"/>\n<text class=\"small\" x=\"200\" y=\"@4\">sends</text>\n|\
          <path class=\"clear\" d=\"M300 @3h40v24h-40z\"/>\n<path class=\"box\" d=\"M300 @3h40v24h-40z\"/>\n|\
          <text class=\"small\" x=\"350\" y=\"@4\">keeps clear</text>\n|\
          <path class=\"blocked\" d=\"M500 @3h40v24h-40z\"/>\n<path class=\"box\" d=\"M500 @3h40v24h-40z\"/>\n|\
          <text class=\"small\" x=\"550\" y=\"@4\">blocked</text>\n|\
          <path class=\"box\" d=\"M660 @3h40v24h-40z\"/>\n<text class=\"small\" x=\"710\" y=\"@4\">silent</text>\n|\
          <path class=\"wrong key\" d=\"M810 @3h40v24h-40z\"/>\n|\
          <text class=\"small\" x=\"860\" y=\"@4\">sends, and clashes or is blocked</text>\n|\
          </svg>\n|",
        what,
    )
}

// How high the picture is, in millimetres.
fn tall(site: Site) -> usize
    requires { Sized site }
    ensures { result ≡ tall_of site }
{
    let high = channel_high(site);
    let channels = site.channels as usize;
    let cells = site.cells as usize;
    let step = channels * high + 12;
    (790 + cells * step + 50) / 10
}

// The head: the style, the tunnel, and what the lines of the range map mean.
pub fn put_picture_head(out: &mut [u8], at: usize, site: Site) -> usize
    requires { Sized site × (at + 47000 ≤ length out.old) }
    ensures { Put out.old at (head_said site 47) 47000 out.new result }
{
    let height = tall(site);
    let cells = site.cells as usize;
    let grid = every_slot(site) * slot_wide(site);
    let long = cells * cell_step(site);
    let mut next = at;
    for k in 0..HEAD_ROWS {
        next = put_head_row(out, next, Phrase::Row(k, height, grid, long, cells));
    }
    next
}

// How the site is: its rule, what is blocked of it, and all of it. So many channel-slots are open.
pub fn put_facts(out: &mut [u8], at: usize, site: Site, free: usize) -> usize
    requires { Sized site × (free ≡ room (net_of site)) × (at + 1000 ≤ length out.old) }
    ensures { Put out.old at (phrase fact_lines (facts_phrase site)) 1000 out.new result }
{
    let n = (site.slots as usize) * (site.channels as usize);
    put_fact(out, at, Phrase::Row(0, site.rule as usize, n - free, n, 0))
}

// The end: what the marks of the slot map mean.
pub fn put_picture_tail(out: &mut [u8], at: usize, site: Site) -> usize
    requires { Sized site × (at + 11000 ≤ length out.old) }
    ensures { Put out.old at (tail_said site 11) 11000 out.new result }
{
    let height = tall(site);
    let slots = site.slots as usize;
    let channels = site.channels as usize;
    let y = height * 10 - 36;
    let mut next = at;
    for k in 0..TAIL_ROWS {
        next = put_tail_row(out, next, Phrase::Row(k, slots, channels, y, y + 19));
    }
    next
}
