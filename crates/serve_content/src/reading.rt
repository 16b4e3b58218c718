//! The reader of requests and of their content.
ghost use Rattle.std.specs.Prelude.{ℕ, List};
ghost use Rattle.esi_types.specs.declared.directory.Directory.{Directory};
ghost use Rattle.serve_acts.specs.Legal.{IsLegal};
ghost use Rattle.serve_acts.specs.Served.{Served};
ghost use Rattle.serve_content.specs.Content.{Serves, content_of};
ghost use Rattle.serve_reader.specs.Reader.{reader_of};
ghost use Rattle.serve_rule.specs.Moves.{Moves};
ghost use Rattle.serve_rule.specs.Turns.{Turn, session};

/// Where the server's channels are the endpoints of a directory, each session is legal that reads requests
/// by the histories of its connections, and in them what the rules of calls say that they ask for.
#[tactic(auto, using(serve_rule::specs::SessionLaws::session_legal))]
pub fn content_law<S>()
    ensures legal { (directory : Directory) (served : Served S) (serves : Serves directory served) (listing : List ℕ) (moves : Moves served) (turns : List Turn)
        → IsLegal served (session served (reader_of served (content_of directory served serves listing)) moves turns) }
{}
