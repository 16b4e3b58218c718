//! What is put of replies, and when a call is answered OK.
ghost use Rattle.std.specs.Prelude.{◌≡◌, ℕ, Bool, true, List};
ghost use Rattle.std.specs.List.{list_any};
ghost use Rattle.hpack.specs.declared.header.Header.{Header};
ghost use Rattle.h2_history.specs.Puts.{Put};
ghost use Rattle.serve_acts.specs.Acts.{Act};
ghost use Rattle.serve_acts.specs.Calls.{is_of, calls, is_taken};
ghost use Rattle.serve_acts.specs.Histories.{history, sent_to};
ghost use Rattle.serve_acts.specs.Legal.{IsLegal};
ghost use Rattle.serve_acts.specs.Prefixes.{Begins};
ghost use Rattle.serve_acts.specs.Served.{Served};
ghost use Rattle.serve_acts.specs.Streams.{data_put, given, held};
ghost use Rattle.serve_laws.specs.Replying.{Fits};
ghost use Rattle.serve_laws.specs.Wire.{puts_in, content, holds_ok};
ghost use Rattle.serve_laws.specs.Written.{AreReplies, ReadsFrames};

/// What was given to a stream to send is the DATA that was put on it, followed by what it still holds.
/// Where its reply has ended or was cut, what was put is a prefix of what was given: no octet is put twice,
/// and none is left out. The DATA of the stream in the connection's history is this DATA.
pub fn reply_law<S>()
    ensures fits { (served : Served S) (conn stream : ℕ) (t : List Act) → IsLegal served t
        → Fits (given served.replies conn stream t) (data_put conn stream t) (held served.replies conn stream t) }
    ensures prefix { (served : Served S) (conn stream : ℕ) (t : List Act) → IsLegal served t
        → Begins (data_put conn stream t) (given served.replies conn stream t) }
    ensures history { (served : Served S) (conn stream : ℕ) (t : List Act)
        → content stream (puts_in (history served.replies conn t)) ≡ data_put conn stream t }
{}

/// OK is taken. Where the frames that were sent whole hold a header list that says OK, on the stream of a
/// call of SendToServer, its value was taken. `taken_once_law` and `arrival_law` say the rest: one value
/// of the stream was taken, and it is the call's.
pub fn ok_law<S>()
    ensures taken { (served : Served S) (read : List ℕ → List Put) (says_ok : List Header → Bool) → AreReplies served.replies says_ok
        → (conn stream : ℕ) (t : List Act) → IsLegal served t
        → ReadsFrames read (history served.replies conn t)
        → list_any (is_of conn stream) (calls t) ≡ true → holds_ok says_ok stream (read (sent_to conn t)) ≡ true
        → is_taken conn stream t ≡ true }
{}
