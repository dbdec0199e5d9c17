//! The reason of a code.
ghost use Rattle.std.specs.Prelude.{◌≡◌};
ghost use Rattle.jsonrpc_calls.specs.Heard as spec;

use behaviour_tree::Reason;

/// The reason that has a code, a refusal with just that code where no reason has a name for it.
#[tactic(auto, using(crate::proofs::Codes::unequal))]
pub fn reason_of(code: i64) -> Reason
    ensures { result ≡ spec.reason_of code }
{
    if code == -32_601 {
        return Reason::UnknownOperation;
    }
    if code == -32_602 {
        return Reason::NotConforming;
    }
    if code == -32_001 {
        return Reason::Correlation;
    }
    if code == -32_002 {
        return Reason::BoxFull;
    }
    if code == -32_003 {
        return Reason::RunFull;
    }
    if code == -32_004 {
        return Reason::Stopped;
    }
    if code == -32_005 {
        return Reason::SessionEnded;
    }
    Reason::Other(code)
}
