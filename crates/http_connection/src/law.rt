//! What holds of every connection.
ghost use Rattle.std.specs.Prelude.{List, ℕ, Option};
ghost use Rattle.outside_traits.specs.Told.{WireTold};
ghost use Rattle.http_connection.specs.Seen.{Seen};
ghost use Rattle.http_connection.specs.Talking.{IsTalking};
ghost use Rattle.http_connection.specs.Law.{KeepsWord};

/// Whatever passed on a connection, in whatever pieces its bytes came and whenever its answers were told: what was
/// handed out and written is what its bytes hold.
pub fn connections_keep_their_word()
    ensures { (first : WireTold) (now : Seen) (bodies : List (List ℕ)) (texts : List (Option (List ℕ)))
        → IsTalking first now bodies texts → KeepsWord first now bodies texts }
{}
