ghost use Rattle.std.specs.Prelude.{◌≡◌};

use session_forms::Installed;
use session_values::Actor;

/// Where an event is: who acts, and the nearest scope with its handlers.
#[derive(Clone, Copy)]
pub struct Scene<'a> {
    pub actor: Actor<'a>,
    pub installed: &'a Installed,
}

/// Who acts in a scope.
pub fn scene_of<'a>(actor: Actor<'a>, installed: &'a Installed) -> Scene<'a>
    ensures actor { result.actor ≡ actor.entry }
    ensures installed { result.installed.now ≡ installed.now }
{
    Scene { actor, installed }
}
