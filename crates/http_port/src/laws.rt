//! What holds of every way in which the bytes of a connection come.
ghost use Rattle.std.specs.Prelude.{◌≡◌, IfNone, IfSome};
ghost use Rattle.http_port.specs.Connections.{Reading};
ghost use Rattle.http_port.specs.Laws.{GivesAFront, GivesAll};
ghost use Rattle.http_port.specs.Walks.{length_of_open, LeadsOn};

use crate::scan::START;
use crate::verdict::{Verdict, judge};

/// However the bytes of a connection are cut into pieces, a reader gives of them what they hold, in order.
pub fn cuts_do_not_matter()
    ensures front { GivesAFront }
    ensures all { GivesAll }
{}

/// Whatever bytes a connection has, there is a reading of them.
pub fn each_connection_has_a_reading(bytes: &[u8])
    ensures { ∥ Reading bytes.now ∥₁ }
{
    let mut at = 0;
    while let Some(length) = request_in_front(&bytes[at..]) {
        at += length;
    }
}

/// The length of the request in front, where it is whole and the connection stays open behind it.
#[tactic(auto, using(crate::proofs::PartLemmas::scan_start))]
fn request_in_front(bytes: &[u8]) -> Option<usize>
    ensures none { IfNone result ∥ Reading bytes.now ∥₁ }
    ensures some { IfSome result (λ length. LeadsOn bytes.now length) }
{
    let mut scan = START;
    let verdict = judge(bytes, &mut scan);
    length_of_open(bytes.len(), verdict)
}

/// The length of an admitted request, where so many bytes hold all of it and it does not close the connection.
fn length_of_open(len: usize, verdict: Verdict) -> Option<usize>
    ensures { result ≡ length_of_open len verdict }
{
    match verdict {
        Verdict::Pending | Verdict::Refuses(_) => None,
        Verdict::Admits(admission) => {
            let length = admission.head as usize + admission.body as usize;
            if len < length || admission.close {
                None
            } else {
                Some(length)
            }
        }
    }
}
