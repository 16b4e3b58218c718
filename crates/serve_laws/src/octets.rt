//! What is sent on a connection.
ghost use Rattle.std.specs.Prelude.{◌≡◌, ℕ, List, ◌++◌};
ghost use Rattle.serve_acts.specs.Acts.{Act};
ghost use Rattle.serve_acts.specs.Histories.{octets_put_on, sent_to, unsent};
ghost use Rattle.serve_acts.specs.Legal.{IsLegal};
ghost use Rattle.serve_acts.specs.Log.{log};
ghost use Rattle.serve_acts.specs.Prefixes.{Begins};
ghost use Rattle.serve_acts.specs.Served.{Served};
ghost use Rattle.serve_laws.specs.Sendings.{sent_in};

/// Every octet. The octets that the links took for a connection, joined, followed by those that wait, are
/// the octets of the frames that were put on it. So those that were taken are a prefix of them, and they are
/// what the log's sends to it hold.
pub fn every_octet_law<S>()
    ensures balanced { (served : Served S) (conn : ℕ) (t : List Act) → IsLegal served t
        → sent_to conn t ++ unsent served.replies conn t ≡ octets_put_on served.replies conn t }
    ensures sent { (served : Served S) (conn : ℕ) (t : List Act) → IsLegal served t
        → Begins (sent_to conn t) (octets_put_on served.replies conn t) }
    ensures logged { (served : Served S) (conn : ℕ) (t : List Act)
        → sent_in conn (log served.replies t) ≡ sent_to conn t }
{}
