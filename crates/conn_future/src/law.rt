//! What holds of every connection over a wire that does not wait.
ghost use Rattle.std.specs.Prelude.{List, ℕ, Option};
ghost use Rattle.outside_traits.specs.Told.{WireTold};
ghost use Rattle.conn_future.specs.Talking.{Seen, IsTalking};
ghost use Rattle.conn_future.specs.Law.{KeepsWord};

/// Whatever passed on a connection, whenever its wire could move something and whenever its answers were told: what was
/// handed out and written is what its bytes hold.
pub fn tasks_keep_their_word()
    ensures { (first : WireTold) (now : Seen) (bodies : List (List ℕ)) (texts : List (Option (List ℕ)))
        → IsTalking first now bodies texts → KeepsWord first now bodies texts }
{}
