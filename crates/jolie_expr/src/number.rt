ghost use Rattle.std.specs.Prelude.{◌≡◌, ◌+ℤ◌, ◌-ℤ◌, ◌*ℤ◌, int_div, None, if◌then◌else◌};
ghost use Rattle.behaviour_tree.specs.Numbers as spec;

use jolie_trees::Root;

/// The sum of two numbers.
#[tactic(auto, using(crate::proofs::Ranges::int_fits, crate::proofs::Ranges::int_passes, crate::proofs::Ranges::long_fits, crate::proofs::Ranges::long_passes))]
pub fn plus(a: &Root, b: &Root) -> Option<Root>
    ensures { result ≡ spec.on_numbers ◌+ℤ◌ a.now b.now }
{
    match (a, b) {
        (Root::Int(a), Root::Int(b)) => Some(Root::Int(a.checked_add(*b)?)),
        (Root::Int(a), Root::Long(b)) => Some(Root::Long(i64::from(*a).checked_add(*b)?)),
        (Root::Long(a), Root::Int(b)) => Some(Root::Long(a.checked_add(i64::from(*b))?)),
        (Root::Long(a), Root::Long(b)) => Some(Root::Long(a.checked_add(*b)?)),
        _ => None,
    }
}

/// The difference of two numbers.
#[tactic(auto, using(crate::proofs::Ranges::int_fits, crate::proofs::Ranges::int_passes, crate::proofs::Ranges::long_fits, crate::proofs::Ranges::long_passes))]
pub fn minus(a: &Root, b: &Root) -> Option<Root>
    ensures { result ≡ spec.on_numbers ◌-ℤ◌ a.now b.now }
{
    match (a, b) {
        (Root::Int(a), Root::Int(b)) => Some(Root::Int(a.checked_sub(*b)?)),
        (Root::Int(a), Root::Long(b)) => Some(Root::Long(i64::from(*a).checked_sub(*b)?)),
        (Root::Long(a), Root::Int(b)) => Some(Root::Long(a.checked_sub(i64::from(*b))?)),
        (Root::Long(a), Root::Long(b)) => Some(Root::Long(a.checked_sub(*b)?)),
        _ => None,
    }
}

/// The product of two numbers.
#[tactic(auto, using(crate::proofs::Ranges::int_fits, crate::proofs::Ranges::int_passes, crate::proofs::Ranges::long_fits, crate::proofs::Ranges::long_passes))]
pub fn times(a: &Root, b: &Root) -> Option<Root>
    ensures { result ≡ spec.on_numbers ◌*ℤ◌ a.now b.now }
{
    match (a, b) {
        (Root::Int(a), Root::Int(b)) => Some(Root::Int(a.checked_mul(*b)?)),
        (Root::Int(a), Root::Long(b)) => Some(Root::Long(i64::from(*a).checked_mul(*b)?)),
        (Root::Long(a), Root::Int(b)) => Some(Root::Long(a.checked_mul(i64::from(*b))?)),
        (Root::Long(a), Root::Long(b)) => Some(Root::Long(a.checked_mul(*b)?)),
        _ => None,
    }
}

/// The quotient of two ints, cut towards zero.
fn int_quotient(a: i32, b: i32) -> Option<Root>
    ensures { result ≡ (if spec.is_zero b then None else spec.int_root (int_div a b)) }
{
    Some(Root::Int(a.checked_div(b)?))
}

/// The quotient of two longs, cut towards zero.
fn long_quotient(a: i64, b: i64) -> Option<Root>
    ensures { result ≡ (if spec.is_zero b then None else spec.long_root (int_div a b)) }
{
    Some(Root::Long(a.checked_div(b)?))
}

/// What a division of ints leaves over. Only a zero divisor has none: the smallest int leaves 0 over at -1, though its
/// quotient is out of range.
fn int_rest(a: i32, b: i32) -> Option<Root>
    ensures { result ≡ (if spec.is_zero b then None else spec.int_root (spec.left_over a b)) }
{
    if b == 0 {
        return None;
    }
    Some(Root::Int(a.wrapping_rem(b)))
}

/// What a division of longs leaves over.
fn long_rest(a: i64, b: i64) -> Option<Root>
    ensures { result ≡ (if spec.is_zero b then None else spec.long_root (spec.left_over a b)) }
{
    if b == 0 {
        return None;
    }
    Some(Root::Long(a.wrapping_rem(b)))
}

/// The quotient of two numbers, cut towards zero.
pub fn over(a: &Root, b: &Root) -> Option<Root>
    ensures { result ≡ spec.on_divisor int_div a.now b.now }
{
    match (a, b) {
        (Root::Int(a), Root::Int(b)) => int_quotient(*a, *b),
        (Root::Int(a), Root::Long(b)) => long_quotient(i64::from(*a), *b),
        (Root::Long(a), Root::Int(b)) => long_quotient(*a, i64::from(*b)),
        (Root::Long(a), Root::Long(b)) => long_quotient(*a, *b),
        _ => None,
    }
}

/// What a division of two numbers leaves over.
pub fn rest(a: &Root, b: &Root) -> Option<Root>
    ensures { result ≡ spec.on_divisor spec.left_over a.now b.now }
{
    match (a, b) {
        (Root::Int(a), Root::Int(b)) => int_rest(*a, *b),
        (Root::Int(a), Root::Long(b)) => long_rest(i64::from(*a), *b),
        (Root::Long(a), Root::Int(b)) => long_rest(*a, i64::from(*b)),
        (Root::Long(a), Root::Long(b)) => long_rest(*a, *b),
        _ => None,
    }
}
