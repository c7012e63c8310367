// The head of a site file: kind 1, or kind 5 with the rule, read and written.
#![tactic(auto)]

ghost use Rattle.std.specs.Prelude.{◌≡◌, ◌≤◌, length, Ok};
ghost use Rattle.std.proofs.lemmas.List.Edits.{sets};
ghost use Rattle.records.specs.Reasons.{first_reason};
ghost use Rattle.sitehead.specs.Head.{rule_of_head, ruled_reasons, site_head_answer, site_head, head_length};

use records::{
    AFTER_HEAD, Length, Refusal, head_answer, open, put_head, put_start, put_two_bytes, refuse,
    two_bytes,
};
use site::size_ok;

// The kind and the length of a head with a rule.
const RULED_KIND: u16 = 5;

const RULED_LENGTH: u16 = 10;

const AFTER_RULED: usize = 2 + RULED_LENGTH as usize;

// A head of kind 5: its record at the start of the file, I, T and F in range, and rule 2.
#[tactic(auto, using(crate::proofs::Head::ruled))]
fn ruled_head(s: &[u8]) -> Result<(), Refusal>
    ensures { result ≡ first_reason (ruled_reasons s.now) }
{
    open(s, 0, RULED_KIND, Length::Exact(RULED_LENGTH))?;
    let cells = two_bytes(s, 4);
    let slots = two_bytes(s, 6);
    let channels = two_bytes(s, 8);
    if !size_ok(cells, slots, channels) {
        return Err(refuse(1, 0));
    }
    if two_bytes(s, 10) != 2 {
        return Err(refuse(24, 0));
    }
    Ok(())
}

// The head: of kind 5 where it says so, and else of kind 1.
pub fn site_head(s: &[u8]) -> Result<(), Refusal>
    ensures { result ≡ site_head_answer s.now }
{
    if s.len() < 4 {
        return Err(refuse(8, 0));
    }
    let kind = two_bytes(s, 2);
    if kind == RULED_KIND {
        return ruled_head(s);
    }
    head_answer(s)
}

// The rule that a good head states.
pub fn rule_of(s: &[u8]) -> u16
    requires { site_head_answer s.now ≡ Ok tt }
    ensures { result ≡ rule_of_head s.now }
{
    let kind = two_bytes(s, 2);
    if kind == RULED_KIND {
        return two_bytes(s, 10);
    }
    1
}

// How many bytes the head takes.
pub fn head_len(rule: u16) -> usize
    ensures value { result ≡ head_length rule }
    ensures upper_bound { result ≤ 12 }
{
    if rule != 2 {
        return AFTER_HEAD;
    }
    AFTER_RULED
}

// The head, at the start of the file: of kind 5 for rule 2, and else of kind 1.
pub fn put_site_head(out: &mut [u8], cells: u16, slots: u16, channels: u16, rule: u16)
    requires { head_length rule ≤ length out.old }
    ensures { out.new ≡ sets out.old 0 (site_head rule cells slots channels) }
{
    if rule != 2 {
        put_head(out, cells, slots, channels);
        return;
    }
    put_start(out, 0, RULED_LENGTH, RULED_KIND);
    put_two_bytes(out, 4, cells);
    put_two_bytes(out, 6, slots);
    put_two_bytes(out, 8, channels);
    put_two_bytes(out, 10, rule);
}
