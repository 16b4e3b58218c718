//! Totals that are as great as is needed to tell whether they exceed their limits.
ghost use Rattle.std.specs.Prelude.{◌≡◌, ◌+◌, min};
ghost use Rattle.check_rules.specs.Totals.{sized, member_total};
ghost use Rattle.design_totals.specs.Capped.{capped_totals, no_totals, joined};

use check_rules::{LARGEST_DESIGN, MAX_ENDPOINTS};
use design_tree::{Direction, Member};

/// Stands for every size above the greatest one of a top.
pub const TOO_LARGE: usize = LARGEST_DESIGN + 1;

/// Stands for every count of endpoints above the greatest one of a side.
pub const TOO_MANY: usize = MAX_ENDPOINTS + 1;

/// What a body has, its instances included.
#[derive(Clone, Copy, Debug)]
pub struct CappedTotals {
    /// The size, at most `TOO_LARGE`.
    pub size: usize,
    /// The endpoints to the server, at most `TOO_MANY`.
    pub to_server: usize,
    /// The endpoints to the client, at most `TOO_MANY`.
    pub to_client: usize,
}

/// The totals of what has nothing.
pub fn nothing_yet() -> CappedTotals
    ensures { result ≡ no_totals }
{
    CappedTotals {
        size: 0,
        to_server: 0,
        to_client: 0,
    }
}

/// The totals of elements alone, so many of them.
pub fn elements(count: u128) -> CappedTotals
    ensures { result ≡ capped_totals (sized count) }
{
    CappedTotals {
        size: capped_size(count),
        to_server: 0,
        to_client: 0,
    }
}

/// The totals of a member, which is an endpoint.
pub fn endpoint(member: &Member) -> CappedTotals
    ensures { result ≡ capped_totals (member_total member.now) }
{
    match member.direction {
        Direction::ToHardware => CappedTotals {
            size: 0,
            to_server: 1,
            to_client: 0,
        },
        Direction::FromHardware => CappedTotals {
            size: 0,
            to_server: 0,
            to_client: 1,
        },
    }
}

/// Both together.
pub fn together(a: CappedTotals, b: CappedTotals) -> CappedTotals
    ensures { result ≡ joined a b }
{
    CappedTotals {
        size: capped_sum(TOO_LARGE, a.size, b.size),
        to_server: capped_sum(TOO_MANY, a.to_server, b.to_server),
        to_client: capped_sum(TOO_MANY, a.to_client, b.to_client),
    }
}

/// A size, with `TOO_LARGE` for every greater one.
fn capped_size(count: u128) -> usize
    ensures { result ≡ min TOO_LARGE count }
{
    if count < TOO_LARGE as u128 {
        count as usize
    } else {
        TOO_LARGE
    }
}

/// The sum of two counts, with a cap for every greater one.
fn capped_sum(cap: usize, a: usize, b: usize) -> usize
    ensures { result ≡ min cap (a + b) }
{
    if a >= cap || b >= cap - a { cap } else { a + b }
}
