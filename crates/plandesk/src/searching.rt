// A search that says on standard error how far it is: the proved search is called with rising limits. A larger limit alters no answer, so the answer and the
// table are those of the last limit, however often it was called before.
ghost use Rattle.std.specs.Prelude.{◌≡◌, ◌≤◌, ◌<◌, length};
ghost use Rattle.search.specs.Search.{search_answer, search_table};
ghost use Rattle.plandesk.specs.Met.{is_limit};

use search::SearchError;
use site::Site;

// The first limit: the fraction of a second that nobody minds.
const FIRST: u64 = 100000000;

// Whether the limit was met.
fn met(reply: Result<u64, SearchError>) -> bool
    ensures { result ≡ is_limit reply }
{
    matches!(reply, Err(SearchError::Limit(_)))
}

// The limit after this one: twice as much, or the last.
fn next(step: u64, limit: u64) -> u64
    requires { (0 < step) × (step < limit) }
    ensures { (step < result) × (result ≤ limit) }
{
    if limit / 2 < step {
        return limit;
    }
    step * 2
}

// The search with this limit. What was not decided by a smaller one is said on the way.
pub fn search_shown(
    rt: &HostRuntime,
    site: Site,
    limit: u64,
    table: &mut [u8],
    text: &mut [u8],
) -> Result<u64, SearchError>
    requires { 1000 ≤ length text.old }
    ensures answer { result ≡ search_answer site limit table.old }
    ensures table { table.new ≡ search_table site limit table.old }
{
    let mut step = FIRST;
    // Each limit is computed from the one before it.
    while step < limit {
        let reply = search::search(site, step, table);
        if !met(reply) {
            return reply;
        }
        let end = say_search::put_on(text, 0, step);
        reply::message(rt, text, end);
        step = next(step, limit);
    }
    search::search(site, limit, table)
}
