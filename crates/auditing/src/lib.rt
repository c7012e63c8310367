// What an audit says of a site in a word or a number: chained, nested, renumbered or neither; and how many channel-slots it takes.
#![tactic(auto)]

ghost use Rattle.std.specs.Prelude.{◌≡◌, ◌≤◌};
ghost use Rattle.auditing.specs.Form.{by_numbering, by_class, by_chain, form_of};
ghost use Rattle.why.specs.Said.{least_number};
ghost use Rattle.auditing.specs.Row.{form_row, form_phrase};
ghost use Rattle.auditing.specs.Takes.{open_here, load_of_clash, enough_by, by_form, takes_of};

use finder::{FindError, Way};
use judges::{ChainVerdict, ClassVerdict};
use numbering::RenumberError;
use phrases::Phrase;
use positions::open_count;
use site::{Fault, Site};
use whyrows::least_number;

// The first that holds: chained; nested; a numbering of all cells makes it nested; none of these.
#[derive(Clone, Copy)]
pub enum Form {
    Chained,
    Nested,
    Renumbered,
    Neither,
}

// The channel-slots that a site takes: with fewer than it needs no plan exists, and with enough one does.
#[derive(Clone, Copy)]
pub struct Extent {
    pub needs: usize,
    pub enough: usize,
}

// The form by the numbering, of a site that is not nested.
fn by_numbering(reply: Result<(), RenumberError>) -> Form
    ensures { result ≡ by_numbering reply }
{
    match reply {
        Ok(()) => Form::Renumbered,
        Err(_) => Form::Neither,
    }
}

// The form of a site that is not chained.
fn by_class(other: Form, reply: Result<ClassVerdict, Fault>) -> Form
    ensures { result ≡ by_class other reply }
{
    match reply {
        Ok(ClassVerdict::InClass) => Form::Nested,
        Ok(ClassVerdict::Outside(_, _, _)) => other,
        Err(_) => Form::Neither,
    }
}

fn by_chain(other: Form, reply: Result<ChainVerdict, Fault>) -> Form
    ensures { result ≡ by_chain other reply }
{
    match reply {
        Ok(ChainVerdict::Chained) => Form::Chained,
        Ok(ChainVerdict::Broken(_, _, _)) => other,
        Err(_) => Form::Neither,
    }
}

// Which of the four a site is.
#[tactic(auto, unfolding(crate::specs::Form::form_of))]
pub fn form_of(site: Site) -> Form
    ensures { result ≡ form_of site }
{
    let found = numbering::renumber(site);
    let answer = found.answer;
    let class = judges::in_class(site);
    let chain = judges::chain(site);
    let anew = by_numbering(answer);
    let unchained = by_class(anew, class);
    by_chain(unchained, chain)
}

// The row of a form, of the four of a table that begin at `first`.
fn form_row(first: usize, form: Form) -> usize
    requires { first ≤ 1000 }
    ensures { result ≡ form_row first form }
{
    match form {
        Form::Chained => first,
        Form::Nested => first + 1,
        Form::Renumbered => first + 2,
        Form::Neither => first + 3,
    }
}

// That row, with the sizes and the rule.
pub fn form_phrase(first: usize, site: Site, form: Form) -> Phrase
    requires { first ≤ 1000 }
    ensures { result ≡ form_phrase first site form }
{
    let cells = site.cells as usize;
    let slots = site.slots as usize;
    let channels = site.channels as usize;
    let rule = site.rule as usize;
    Phrase::Row(form_row(first, form), cells, slots, channels, rule)
}

// How many positions of a site are open; none where something is wrong with the record.
#[tactic(auto, using(judges::proofs::Laws::accepted_positions), unfolding(crate::specs::Takes::open_here))]
pub fn open_here(site: Site) -> usize
    ensures { result ≡ open_here site }
{
    let Ok(()) = site.accepted() else {
        return 0;
    };
    let n = (site.slots as usize) * (site.channels as usize);
    let blocked = site.blocked;
    open_count(&blocked, n)
}

// The load of the heaviest clash.
fn load_of_clash(reply: Result<(usize, u32), Fault>) -> usize
    ensures { result ≡ load_of_clash reply }
{
    match reply {
        Ok((load, _)) => load,
        Err(_) => 0,
    }
}

// What is enough for a site that no numbering makes nested: what the load test asks for, and no more than the site has where it has a plan.
fn enough_by(planned: bool, least: usize, room: usize) -> usize
    ensures { result ≡ enough_by planned least room }
{
    if !planned {
        return least;
    }
    if least < room {
        return least;
    }
    room
}

// One number of a site that is nested, or that a numbering makes so, and another of any other site.
fn by_form(form: Form, known: usize, other: usize) -> usize
    ensures { result ≡ by_form known other form }
{
    match form {
        Form::Chained => known,
        Form::Nested => known,
        Form::Renumbered => known,
        Form::Neither => other,
    }
}

// How many channel-slots a site of this form takes, for which this was found.
#[tactic(auto, unfolding(crate::specs::Takes::takes_of))]
pub fn takes_of(site: Site, form: Form, found: Result<Way, FindError>) -> Extent
    ensures { result ≡ takes_of site form found }
{
    let heaviest = heaviest::heaviest(site);
    let needs = load_of_clash(heaviest);
    let reply = judges::least(site);
    let least = least_number(reply);
    let open = open_here(site);
    let enough = enough_by(found.is_ok(), least, open);
    let enough = by_form(form, needs, enough);
    Extent { needs, enough }
}
