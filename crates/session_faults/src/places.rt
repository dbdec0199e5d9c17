ghost use Rattle.std.specs.Prelude.{◌≡◌, false, MatchOption};
ghost use Rattle.session_calculus.specs.Terms.{is_among};
ghost use Rattle.session_forms.specs.View.{members_view};
ghost use Rattle.session_faults.specs.Places.{StandsFirst};

use session_forms::Strand;

/// The place of the first member that a strand stands in.
pub fn place_of(strands: &[Strand], strand: u64) -> Option<usize>
    ensures { MatchOption result (is_among strand (members_view strands.now) ≡ false)
        (λ place. StandsFirst strand strands.now place) }
{
    for (place, member) in strands.iter().enumerate() {
        if member.form.stands_in(strand, member.number) {
            return Some(place);
        }
    }
    None
}
