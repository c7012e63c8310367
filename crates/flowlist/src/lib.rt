// A lent list of flow records, taken apart: its first 16 flows, in an array that is passed by value.
#![tactic(auto)]

ghost use Rattle.std.specs.Prelude.{◌≡◌, ◌<◌, ◌≤◌, length};
ghost use Rattle.flowlist.specs.List.{flow_at, no_flows, with_flow, gathered, few};

// A flow as it is handed in: its cell by number, its burst in fragments, its period in slots, its repeats, and what it is worth.
#[repr(C)]
#[derive(Clone, Copy)]
pub struct Flow {
    pub cell: u16,
    pub burst: u16,
    pub period: u16,
    pub repeats: u16,
    pub value: u16,
}

// At most 16 flows, and zeros after them.
#[derive(Clone, Copy)]
pub struct FlowList {
    pub list: [Flow; 16],
    pub count: usize,
}

// Room for 16 flows: zeros.
fn blank() -> [Flow; 16]
    ensures { result ≡ no_flows.list }
{
    let none = Flow {
        cell: 0,
        burst: 0,
        period: 0,
        repeats: 0,
        value: 0,
    };
    [none; 16]
}

// No flows yet.
pub fn empty() -> FlowList
    ensures { result ≡ no_flows }
{
    let list = blank();
    FlowList { list, count: 0 }
}

// One flow more.
pub fn push(l: FlowList, f: Flow) -> FlowList
    requires { l.count < 16 }
    ensures { result ≡ with_flow l f }
{
    let at = l.count;
    let mut next = l;
    next.list[at] = f;
    next.count = at + 1;
    next
}

// One flow of the list, by value.
fn flow_at(flows: &[Flow], k: usize) -> Flow
    requires { k < length flows.now }
    ensures { result ≡ flow_at flows.now k }
{
    flows[k]
}

// The list of the first n flows of an array.
fn counted(list: [Flow; 16], n: usize) -> FlowList
    ensures { result ≡ record { list = list; count = n } }
{
    FlowList { list, count: n }
}

// The first 16 flows: each is stored at its place in an array of zeros.
pub fn gather(flows: &[Flow]) -> FlowList
    ensures { result ≡ gathered flows.now (few (length flows.now)) }
{
    let n = flows.len().min(16);
    let mut list = blank();
    for i in 0..n {
        list[i] = flow_at(flows, i);
    }
    counted(list, n)
}
