// The edits of a site beside a load and a reach: its slots, its channels, its rule, and what is blocked. What is blocked stays the same slots and channels.
#![tactic(auto)]

ghost use Rattle.std.specs.Prelude.{◌≡◌, not, ◌&&◌, ◌≤◌, ◌<◌, ltb, length};
ghost use Rattle.positions.specs.Blocked.{most_positions, word_in, set_of};
ghost use Rattle.resize.specs.Sizes.{pair_in, pair_blocked, moved_at, gone_at, first_gone, sizes_fault, sized_of, set_slots_of, set_channels_of};
ghost use Rattle.resize.specs.Others.{rule_edit_fault, set_rule_of, blocked_edit_fault, set_blocked_of};

use positions::{bit_weight, first_past, is_blocked};
use site::{Edited, Fault, Site, rule_ok, size_ok};

// How many positions a set has room for.
const MOST: usize = 2048;

// Whether a site with so many slots and channels has this slot and channel, both from 0.
fn pair_in(slots: usize, channels: usize, slot: usize, channel: usize) -> bool
    ensures { result ≡ pair_in slots channels slot channel }
{
    if slots <= slot {
        return false;
    }
    channel < channels
}

// Whether the site has this slot and channel, and they are blocked.
fn pair_blocked(set: &[u64; 32], slots: usize, channels: usize, slot: usize, channel: usize) -> bool
    requires { (slots ≤ 128) × (channels ≤ 16) }
    ensures { result ≡ pair_blocked set.now slots channels slot channel }
{
    if !pair_in(slots, channels, slot, channel) {
        return false;
    }
    is_blocked(set, slot * channels + channel)
}

// Word j of what is blocked, in the positions of a site with `to` channels.
fn moved_word(set: &[u64; 32], slots: usize, channels: usize, to: usize, j: usize) -> u64
    requires { (slots ≤ 128) × (channels ≤ 16) × (0 < to) × (j < 32) }
    ensures { result ≡ word_in (moved_at set.now slots channels to) j }
{
    let mut y: u64 = 0;
    for b in 0..64 {
        let k = 64 * j + b;
        let t = pair_blocked(set, slots, channels, k / to, k % to);
        y = y | bit_weight(t, b);
    }
    y
}

// What is blocked, in the positions of a site with `to` channels.
fn move_set(out: &mut [u64; 32], set: &[u64; 32], slots: usize, channels: usize, to: usize)
    requires { (slots ≤ 128) × (channels ≤ 16) × (0 < to) × (length out.old ≡ 32) }
    ensures { out.new ≡ set_of (moved_at set.now slots channels to) }
{
    for j in 0..32 {
        out[j] = moved_word(set, slots, channels, to, j);
    }
}

// Whether position k of a site with `from` channels is blocked, and would be gone with these slots and channels.
fn gone_at(set: &[u64; 32], from: usize, slots: usize, channels: usize, k: usize) -> bool
    requires { (0 < from) × (k < most_positions) }
    ensures { result ≡ gone_at set.now from slots channels k }
{
    if !is_blocked(set, k) {
        return false;
    }
    !pair_in(slots, channels, k / from, k % from)
}

// The lowest blocked position that would be gone; 2,048 where there is none.
#[tactic(auto, using(laws::proofs::Search::found, laws::proofs::Search::missed, laws::proofs::Search::ended), unfolding(crate::specs::Sizes::first_gone))]
fn first_gone(set: &[u64; 32], from: usize, slots: usize, channels: usize) -> usize
    requires { 0 < from }
    ensures { result ≡ first_gone set.now from slots channels }
{
    for k in 0..MOST {
        if gone_at(set, from, slots, channels, k) {
            return k;
        }
    }
    MOST
}

// Why other sizes are refused: the record's fault, a size out of range, or a blocked position that would be gone.
#[tactic(auto, using(crate::proofs::Laws::some_channels), unfolding(crate::specs::Sizes::sizes_fault))]
fn sizes_fault(site: Site, slots: u16, channels: u16) -> Result<(), Fault>
    ensures { result ≡ sizes_fault site slots channels }
{
    site.accepted()?;
    if !size_ok(site.cells, slots, channels) {
        return Err(Fault::Size);
    }
    let blocked = site.blocked;
    let gone = first_gone(
        &blocked,
        site.channels as usize,
        slots as usize,
        channels as usize,
    );
    if gone < MOST {
        return Err(Fault::Blocked(gone));
    }
    Ok(())
}

// The site with other slots and channels.
#[tactic(auto, using(crate::proofs::Laws::sizes_asked), unfolding(crate::specs::Sizes::sized_of, site::specs::Edit::answered))]
fn sized(mut site: Site, slots: u16, channels: u16) -> Edited
    ensures { result ≡ sized_of site slots channels }
{
    let answer = sizes_fault(site, slots, channels);
    if answer.is_ok() {
        let blocked = site.blocked;
        move_set(
            &mut site.blocked,
            &blocked,
            site.slots as usize,
            site.channels as usize,
            channels as usize,
        );
        site.slots = slots;
        site.channels = channels;
    }
    Edited { site, answer }
}

// Sets the slots of a site.
pub fn set_slots(site: Site, slots: u16) -> Edited
    ensures { result ≡ set_slots_of site slots }
{
    sized(site, slots, site.channels)
}

// Sets the channels of a site.
pub fn set_channels(site: Site, channels: u16) -> Edited
    ensures { result ≡ set_channels_of site channels }
{
    sized(site, site.slots, channels)
}

// Why a rule is refused: the record's fault, or it is none.
#[tactic(auto, unfolding(crate::specs::Others::rule_edit_fault))]
fn rule_edit_fault(site: Site, rule: u16) -> Result<(), Fault>
    ensures { result ≡ rule_edit_fault site rule }
{
    site.accepted()?;
    if !rule_ok(rule) {
        return Err(Fault::Rule);
    }
    Ok(())
}

// Sets the rule of a site.
#[tactic(auto, unfolding(crate::specs::Others::set_rule_of, site::specs::Edit::answered))]
pub fn set_rule(mut site: Site, rule: u16) -> Edited
    ensures { result ≡ set_rule_of site rule }
{
    let answer = rule_edit_fault(site, rule);
    if answer.is_ok() {
        site.rule = rule;
    }
    Edited { site, answer }
}

// Why a set of blocked positions is refused: the record's fault, or the site does not have one of them.
#[tactic(auto, unfolding(crate::specs::Others::blocked_edit_fault))]
fn blocked_edit_fault(site: Site, blocked: [u64; 32]) -> Result<(), Fault>
    ensures { result ≡ blocked_edit_fault site blocked }
{
    site.accepted()?;
    let past = first_past(&blocked, site.slots as usize * site.channels as usize);
    if past < MOST {
        return Err(Fault::Blocked(past));
    }
    Ok(())
}

// Sets what is blocked, in the place of what was.
#[tactic(auto, unfolding(crate::specs::Others::set_blocked_of, site::specs::Edit::answered))]
pub fn set_blocked(mut site: Site, blocked: [u64; 32]) -> Edited
    ensures { result ≡ set_blocked_of site blocked }
{
    let answer = blocked_edit_fault(site, blocked);
    if answer.is_ok() {
        site.blocked = blocked;
    }
    Edited { site, answer }
}
