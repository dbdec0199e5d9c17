ghost use Rattle.std.specs.Prelude.{◌≡◌};
ghost use Rattle.session_calculus.specs.Terms as spec;
ghost use Rattle.session_forms.specs.View.{members_view, term_view};

use crate::term::{Strand, Term};

impl Term {
    /// Whether a strand stands in this form, which runs in the strand `own`.
    #[cycle(stands)]
    pub fn stands_in(&self, strand: u64, own: u64) -> bool
        ensures { result ≡ spec.stands_in strand own (term_view self.now) }
    {
        strand == own || self.is_within(strand)
    }

    /// Whether a strand is a member of a parallel in this form.
    #[cycle(stands)]
    fn is_within(&self, strand: u64) -> bool
        ensures { result ≡ spec.is_within strand (term_view self.now) }
    {
        match self {
            Term::Seq { head, .. } => head.is_within(strand),
            Term::Par(strands) => is_among(strands, strand),
            Term::Scope { body, .. } => body.is_within(strand),
            Term::Exec { body, .. } => body.is_within(strand),
            Term::Fail { body, .. } => body.is_within(strand),
            Term::Prot(body) => body.is_within(strand),
            Term::Done | Term::Place(_) | Term::Thrown(_) => false,
            Term::Wait(_) | Term::DeadWait(_) => false,
        }
    }
}

/// Whether a strand is one of these members, or stands in one of them.
#[cycle(stands)]
fn is_among(strands: &[Strand], strand: u64) -> bool
    ensures { result ≡ spec.is_among strand (members_view strands.now) }
{
    for member in strands {
        if member.form.stands_in(strand, member.number) {
            return true;
        }
    }
    false
}
