//! The endpoints that are named are those that are counted.
ghost use Rattle.endpoint_counts.specs.Counts.{EachCounted, EachFew};

/// The requests that are reached from the top of a design have as many endpoints of each side as its totals
/// say, whatever rules it breaks, and are no more than its size. It does nothing when it runs.
pub fn endpoint_counts_law()
    ensures { EachCounted }
{}

/// A design that breaks no rule of the checks has at most 32 endpoints to the server and at most 32 to the
/// client, and at most 1,024 requests that are reached. It does nothing when it runs.
pub fn few_endpoints_law()
    ensures { EachFew }
{}
