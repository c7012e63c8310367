// The share of a flow (000, inequality 5), with repeats, and the bounds on its queue and its delay. Slots, fragments and repeats are three units:
// no function here adds one to another.
#![tactic(auto)]

ghost use Rattle.std.specs.Prelude.{◌≡◌, ◌+◌, ◌*◌, ◌≤◌, ◌<◌};
ghost use Rattle.site.specs.Record.{up_to};
ghost use Rattle.shares.specs.Share.{rounded_up, share_of, most_repeats, default_repeats};

use site::within;

// A number of time-slots.
#[derive(Clone, Copy)]
pub struct Slots(pub u32);

// A number of fragments.
#[derive(Clone, Copy)]
pub struct Fragments(pub u32);

// How many times each fragment is sent.
#[derive(Clone, Copy)]
pub struct Repeats(pub u32);

// The most repeats that a flow may ask for.
const MOST_REPEATS: usize = 4;

// The repeats of a caller that gives none.
const DEFAULT_REPEATS: u32 = 2;

// Why there is no share: T is out of range, the burst, the period or the repeats are, or the share is above 65,535.
#[derive(Clone, Copy)]
pub enum ShareError {
    OutOfRange,
    BadFlow,
    BigShare,
}

// a / b rounded up: one more than the quotient where something is left over. Nothing is added to a, which may be fragments times slots.
#[tactic(auto, unfolding(crate::specs::Share::rounded_up))]
fn rounded_up(a: u32, b: u32) -> u32
    requires { (0 < b) × (a ≤ 8388480) }
    ensures { result ≡ rounded_up a b }
{
    let q = a / b;
    if a % b == 0 {
        return q;
    }
    q + 1
}

// What the bursts come to in a superframe.
fn share_for(burst: Fragments, period: Slots, slots: Slots) -> Fragments
    requires { (0 < period.0) × (burst.0 * slots.0 ≤ 8388480) }
    ensures { result.0 ≡ rounded_up (burst.0 * slots.0) period.0 }
{
    Fragments(rounded_up(burst.0 * slots.0, period.0))
}

// The fragments that are sent when each is sent so many times.
fn repeated(once: Fragments, repeats: Repeats) -> Fragments
    requires { repeats.0 * once.0 ≤ 33553920 }
    ensures { result.0 ≡ repeats.0 * once.0 }
{
    Fragments(repeats.0 * once.0)
}

// How long a burst takes at a share.
fn time_for(burst: Fragments, share: Fragments, slots: Slots) -> Slots
    requires { (0 < share.0) × (burst.0 * slots.0 ≤ 8388480) }
    ensures { result.0 ≡ rounded_up (burst.0 * slots.0) share.0 }
{
    Slots(rounded_up(burst.0 * slots.0, share.0))
}

// Whether a flow may ask for so many repeats: from 1 to 4.
fn repeats_fit(repeats: Repeats) -> bool
    ensures { result ≡ up_to most_repeats repeats.0 }
{
    within(repeats.0 as usize, MOST_REPEATS)
}

// The share of a flow, the bound on its queue and the bound on its delay: T is `slots`. The bounds have the share of one sending in them, whatever the repeats.
#[tactic(auto, using(crate::proofs::Laws::flows), unfolding(crate::specs::Share::share_of))]
pub fn share_of(
    slots: Slots,
    burst: Fragments,
    period: Slots,
    repeats: Repeats,
) -> Result<(Fragments, Fragments, Slots), ShareError>
    ensures { result ≡ share_of slots.0 burst.0 period.0 repeats.0 }
{
    if !within(slots.0 as usize, 128) {
        return Err(ShareError::OutOfRange);
    }
    if !within(burst.0 as usize, 65535) {
        return Err(ShareError::BadFlow);
    }
    if !within(period.0 as usize, 65535) {
        return Err(ShareError::BadFlow);
    }
    if !repeats_fit(repeats) {
        return Err(ShareError::BadFlow);
    }
    let once = share_for(burst, period, slots);
    let s = repeated(once, repeats);
    if 65535 < s.0 {
        return Err(ShareError::BigShare);
    }
    let queue = Fragments(burst.0 + once.0);
    let time = time_for(burst, once, slots);
    let delay = Slots(slots.0 + time.0);
    Ok((s, queue, delay))
}

// The repeats that are taken for a caller that gives none.
pub fn default_repeats() -> Repeats
    ensures { result ≡ record { 0 = default_repeats } }
{
    Repeats(DEFAULT_REPEATS)
}

// The same for a caller that gives no repeats.
pub fn share(
    slots: Slots,
    burst: Fragments,
    period: Slots,
) -> Result<(Fragments, Fragments, Slots), ShareError>
    ensures { result ≡ share_of slots.0 burst.0 period.0 default_repeats }
{
    share_of(slots, burst, period, Repeats(DEFAULT_REPEATS))
}
