// Which of at most 16 flows a site admits: the best set of them whose shares, summed by cell, pass the load test.
// The lent list is taken apart by `flowlist`; all else works on numbers and small arrays.
#![tactic(auto)]

ghost use Rattle.std.specs.Prelude.{◌≡◌, ℕ, ◌-◌, ◌≤◌, ◌<◌, true, false, length, get_or, IfSome, IfNone};
ghost use Rattle.std.proofs.lemmas.List.Edits.{sets};
ghost use Rattle.laws.specs.Bits.{bit_in};
ghost use Rattle.laws.specs.Part.{list_of};
ghost use Rattle.laws.specs.Search.{first};
ghost use Rattle.theory.specs.Net.{everyone};
ghost use Rattle.theory.specs.Verdict.{class_verdict};
ghost use Rattle.positions.specs.Blocked.{open_in};
ghost use Rattle.chainwords.specs.Chain.{Mirrored, chain_in};
ghost use Rattle.flowlist.specs.List.{zero_flow};
ghost use Rattle.admission.specs.Admit.{share_in, amount, bad_in, refused_in, asked_by, first_bad_in, is_nested, answer_in, admit_answer};
ghost use Rattle.admission.specs.Beside.{as_beside, beside_in, beside_answer};
ghost use Rattle.admission.specs.Code.{left_in, past_room, chosen_in};
ghost use Rattle.admission.specs.declared.AdmitError.TheVariants.{Record};
ghost use Rattle.admission.specs.declared.BesideError.TheVariants.{Admit};

use chainwords::first_split;
use demands::demand;
use flowlist::{Flow, FlowList, gather};
use positions::open_count;
use shares::{Fragments, Repeats, ShareError, Slots, share_of};
use site::{Fault, Site, within};

// Why no set is answered. A flow is named by its number, from 1.
#[derive(Clone, Copy)]
pub enum AdmitError {
    TooMany,
    NotNested,
    BadCell(usize),
    BadFlow(usize),
    BigShare(usize),
    Record(Fault),
}

impl From<Fault> for AdmitError {
    ghost from_gives = { λ f e. e ≡ Record f };

    fn from(fault: Fault) -> AdmitError {
        AdmitError::Record(fault)
    }
}

// Why no set is answered on top of the loads that the site has: these alone are over, in which cell and by how much; or an admission's refusal.
#[derive(Clone, Copy)]
pub enum BesideError {
    Over(usize, usize),
    Admit(AdmitError),
}

impl From<Fault> for BesideError {
    ghost from_gives = { λ f e. e ≡ Admit (Record f) };

    fn from(fault: Fault) -> BesideError {
        BesideError::Admit(AdmitError::Record(fault))
    }
}

impl From<AdmitError> for BesideError {
    ghost from_gives = { λ r e. e ≡ Admit r };

    fn from(refused: AdmitError) -> BesideError {
        BesideError::Admit(refused)
    }
}

// What the search takes of a flow: the place of its cell, and its share.
#[derive(Clone, Copy)]
struct Asked {
    cell: u16,
    share: u16,
}

// The share of a flow, with its repeats, on a site of so many slots: for callers that have the flow by value.
pub fn share_in(slots: u16, f: Flow) -> Result<(Fragments, Fragments, Slots), ShareError>
    ensures { result ≡ share_in slots f }
{
    share_of(
        Slots(slots as u32),
        Fragments(f.burst as u32),
        Slots(f.period as u32),
        Repeats(f.repeats as u32),
    )
}

// One flow; none where it is refused.
#[tactic(auto, using(crate::proofs::Asking::one_flow), unfolding(crate::specs::Admit::bad_in))]
fn ask(cells: u16, slots: u16, f: Flow) -> Option<Asked>
    ensures answer { result ≡ asked_by cells slots f }
    ensures none { IfNone result (bad_in cells slots f ≡ true) }
    ensures some { IfSome result (λ a. (bad_in cells slots f ≡ false) × (a.cell ≡ f.cell - 1) × (a.share ≡ amount (share_in slots f))) }
{
    if !within(f.cell as usize, cells as usize) {
        return None;
    }
    match share_in(slots, f) {
        Ok(asks) => {
            let cell = f.cell - 1;
            let needed = asks.0;
            let share = needed.0 as u16;
            Some(Asked { cell, share })
        }
        Err(_) => None,
    }
}

// The flows of a list, one by one, up to the first that is refused: its place, and what the search takes of those before it.
#[tactic(auto, using(crate::proofs::Asking::searched), unfolding(crate::specs::Admit::first_bad_in))]
fn ask_all(
    cells: u16,
    slots: u16,
    l: FlowList,
    count: usize,
    own: &mut [u16; 16],
    shares: &mut [u16; 16],
    values: &mut [u16; 16],
) -> usize
    requires { (count ≤ 16) × (length own.old ≡ 16) × (length shares.old ≡ 16) × (length values.old ≡ 16) }
    ensures bad { result ≡ first_bad_in cells slots (λ k. get_or l.list k zero_flow) count }
    ensures cells { own.new ≡ sets own.old 0 (list_of (λ k. (get_or l.list k zero_flow).cell - 1) result) }
    ensures shares { shares.new ≡ sets shares.old 0 (list_of (λ k. amount (share_in slots (get_or l.list k zero_flow))) result) }
    ensures values { values.new ≡ sets values.old 0 (list_of (λ k. (get_or l.list k zero_flow).value) result) }
{
    let list = l.list;
    for i in 0..count {
        let f = list[i];
        let Some(a) = ask(cells, slots, f) else {
            return i;
        };
        own[i] = a.cell;
        shares[i] = a.share;
        values[i] = f.value;
    }
    count
}

// Why a flow is refused: its cell, or its share.
#[tactic(auto, unfolding(crate::specs::Admit::refused_in))]
fn refusal(cells: u16, slots: u16, f: Flow, number: usize) -> AdmitError
    ensures { result ≡ refused_in cells slots f number }
{
    if !within(f.cell as usize, cells as usize) {
        return AdmitError::BadCell(number);
    }
    match share_in(slots, f) {
        Err(ShareError::BigShare) => AdmitError::BigShare(number),
        Err(ShareError::OutOfRange) => AdmitError::BadFlow(number),
        Err(ShareError::BadFlow) => AdmitError::BadFlow(number),
        Ok(_) => AdmitError::BadFlow(number),
    }
}

// Whether a site is in the class, all its cells counted. Each row has what the others have of its cell.
fn nested(clash: &[u32; 32], cells: usize) -> bool
    requires { (cells ≤ 32) × Mirrored clash.now }
    ensures { result ≡ is_nested (class_verdict (chain_in cells (bit_in clash.now)) everyone) }
{
    cells <= first_split(clash, 4294967295, cells)
}

// What the loads leave of the room, cell by cell, up to the first cell that is over: its place, or the number of cells where none is. A demand is asked once.
#[tactic(auto, using(crate::proofs::Asking::searched))]
fn rooms_beside(
    loads: &[u16; 32],
    clash: &[u32; 32],
    cells: usize,
    room: u32,
    rooms: &mut [u32; 32],
) -> usize
    requires { (cells ≤ 32) × (length rooms.old ≡ 32) }
    ensures over { result ≡ first (past_room loads.now clash.now room) 0 cells }
    ensures rooms { rooms.new ≡ sets rooms.old 0 (list_of (left_in loads.now clash.now room) result) }
{
    for i in 0..cells {
        let d = demand(loads, clash[i], i);
        if room < d {
            return i;
        }
        rooms[i] = room - d;
    }
    cells
}

// How many of the first n positions are open.
fn open_room(blocked: &[u64; 32], n: usize) -> u32
    requires { n ≤ 2048 }
    ensures { (result ≡ open_in blocked.now n) × (result ≤ 2048) }
{
    open_count(blocked, n) as u32
}

// What is answered once the site is in the class and each cell has its room: the first flow that is refused, or else the best set.
fn chosen(
    cells: u16,
    slots: u16,
    l: FlowList,
    count: usize,
    clash: &[u32; 32],
    rooms: &[u32; 32],
) -> Result<u32, AdmitError>
    requires count_bound { (count ≤ 16) × (1 ≤ cells) × (cells ≤ 32) }
    requires by_index { (i : ℕ) → i < 32 → get_or rooms.now i 0 ≤ 65535 }
    ensures { result ≡ chosen_in cells slots (λ k. get_or l.list k zero_flow) count clash.now rooms.now }
{
    let mut own = [0u16; 16];
    let mut shares = [0u16; 16];
    let mut values = [0u16; 16];
    let bad = ask_all(cells, slots, l, count, &mut own, &mut shares, &mut values);
    if bad < count {
        let list = l.list;
        return Err(refusal(cells, slots, list[bad], bad + 1));
    }
    let set = bestset::best_set(rooms, clash, &own, &shares, &values, count);
    Ok(set)
}

// The answer with the site's loads set aside: for callers that have the flows by value.
#[tactic(auto, unfolding(crate::specs::Admit::answer_from))]
pub fn decide(site: Site, l: FlowList, count: usize) -> Result<u32, AdmitError>
    ensures { result ≡ answer_in site (λ k. get_or l.list k zero_flow) count }
{
    site.accepted()?;
    if 16 < count {
        return Err(AdmitError::TooMany);
    }
    let cells = site.cells;
    let clash = site.clash_rows();
    if !nested(&clash, cells as usize) {
        return Err(AdmitError::NotNested);
    }
    let n = site.slots as usize * site.channels as usize;
    let blocked = site.blocked;
    let room = open_room(&blocked, n);
    let rooms = [room; 32];
    chosen(cells, site.slots, l, count, &clash, &rooms)
}

// An admission's answer, as a call on top of the loads gives it.
fn as_beside(answer: Result<u32, AdmitError>) -> Result<u32, BesideError>
    ensures { result ≡ as_beside answer }
{
    Ok(answer?)
}

// The answer on top of the site's loads: for callers that have the flows by value.
// Cells without a load are asked too: in the class the lowest cell that is over has a load, and so it is the one that the load test names.
#[tactic(auto, unfolding(crate::specs::Beside::beside_in, crate::specs::Admit::answer_from))]
pub fn decide_beside(site: Site, l: FlowList, count: usize) -> Result<u32, BesideError>
    ensures { result ≡ beside_in site (λ k. get_or l.list k zero_flow) count }
{
    site.accepted()?;
    if 16 < count {
        return Err(BesideError::Admit(AdmitError::TooMany));
    }
    let cells = site.cells as usize;
    let clash = site.clash_rows();
    if !nested(&clash, cells) {
        return Err(BesideError::Admit(AdmitError::NotNested));
    }
    let n = site.slots as usize * site.channels as usize;
    let blocked = site.blocked;
    let room = open_room(&blocked, n);
    let loads = site.loads;
    let mut rooms = [0u32; 32];
    let i = rooms_beside(&loads, &clash, cells, room, &mut rooms);
    if i < cells {
        let d = demand(&loads, clash[i], i);
        return Err(BesideError::Over(i + 1, (d - room) as usize));
    }
    as_beside(chosen(site.cells, site.slots, l, count, &clash, &rooms))
}

// The set of greatest value that the site carries, its own loads set aside; of equals, the set with the smallest number.
pub fn admit(site: Site, flows: &[Flow]) -> Result<u32, AdmitError>
    ensures { result ≡ admit_answer site flows.now }
{
    let count = flows.len();
    let l = gather(flows);
    decide(site, l, count)
}

// The set of greatest value that the site carries on top of its own loads; of equals, the set with the smallest number.
// It only looks like `admit`: the two gather the flows, and then decide a different question with an error of its own type.
pub fn admit_beside(site: Site, flows: &[Flow]) -> Result<u32, BesideError>
    ensures { result ≡ beside_answer site flows.now }
{
    let count = flows.len();
    let l = gather(flows);
    decide_beside(site, l, count)
}
