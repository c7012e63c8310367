// The one-way reading of a site, under which only two-way ranges clash; and the plans that it would pass, though they are not valid.
#![tactic(auto)]

ghost use Rattle.std.specs.Prelude.{◌≡◌};
ghost use Rattle.oneway.specs.TwoWay.{two_way_rows, two_way, is_clash, is_valid, unseen_in};

use checker::CheckError;
use site::Site;

// The rows with the bits that stand both ways: bit b of row a where row b has bit a too.
fn both_ways(reach: [u32; 32]) -> [u32; 32]
    ensures { result ≡ two_way_rows reach }
{
    let back = square::turned(reach);
    let mut rows = [0u32; 32];
    for a in 0..32 {
        rows[a] = reach[a] & back[a];
    }
    rows
}

// The site in which each reach is cleared that has no reach back. All else stays, the rule too.
pub fn two_way(mut site: Site) -> Site
    ensures { result ≡ two_way site }
{
    let reach = site.reach;
    let rows = both_ways(reach);
    site.reach = rows;
    site
}

// Whether the checker names a clash.
fn is_clash(reply: Result<(), CheckError>) -> bool
    ensures { result ≡ is_clash reply }
{
    match reply {
        Ok(_) => false,
        Err(CheckError::TableShort) => false,
        Err(CheckError::Blocked(_, _)) => false,
        Err(CheckError::Clash(_, _, _)) => true,
        Err(CheckError::Count(_, _)) => false,
        Err(CheckError::Record(_)) => false,
    }
}

// Whether the checker finds nothing wrong.
pub fn is_valid(reply: Result<(), CheckError>) -> bool
    ensures { result ≡ is_valid reply }
{
    reply.is_ok()
}

// Whether a plan has a clash, and is valid where only two-way ranges clash.
#[tactic(auto, unfolding(crate::specs::TwoWay::unseen_in))]
pub fn unseen(site: Site, table: &[u8]) -> bool
    ensures { result ≡ unseen_in site table.now }
{
    let verdict = checker::check(site, table);
    if !is_clash(verdict) {
        return false;
    }
    let read = checker::check(two_way(site), table);
    is_valid(read)
}
