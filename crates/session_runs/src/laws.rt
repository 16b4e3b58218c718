//! The law of whole sessions.
ghost use Rattle.session_runs.specs.Runs.{SessionsSettle};
ghost use Rattle.session_runs.specs.Words.{HandedIsPrefix, HandedIsWhole};

/// In a session without joins that ends with more quiet cycles than 1 + W for each value that was put, where W is the greatest weight of a
/// to-server channel, nothing is missing: nothing is queued, each value that was put went in, each that went out was handed, and what was
/// transferred on each channel is the whole stream of what was transferred on the to-server channels.
pub fn sessions_settle<C>()
    ensures { SessionsSettle C }
{}

/// In a session of any row, at each moment, what was handed of a channel so far is the beginning of the row's stream function of the values
/// that were taken: values are taken into rings before the to-server channels, which offer their fronts, and handed out of rings behind the
/// to-client channels (`begins`). Where nothing is left in the rings and the session has settled, it is all of that stream (`whole`).
pub fn handed_words_begin_the_stream<C>()
    ensures begins { HandedIsPrefix C }
    ensures whole { HandedIsWhole C }
{}
