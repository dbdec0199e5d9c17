ghost use Rattle.std.specs.Prelude.{◌≡◌, length, map, option_map};
ghost use Rattle.std.specs.Option.{option_copied};
ghost use Rattle.behaviour_tree.specs.Conforms as spec;
ghost use Rattle.behaviour_tree.specs.View.{type_view};

use crate::types::TypeDef;

/// The type behind its names, none where they lead nowhere or in a circle.
pub fn behind_names<'a>(ty: &'a TypeDef, types: &'a [TypeDef]) -> Option<&'a TypeDef>
    ensures { option_map type_view (option_copied result)
        ≡ spec.shape (map type_view types.now) (length types.now) (type_view ty.now) }
{
    let mut found = ty;
    let mut left = types.len();
    while let TypeDef::Named(number) = found {
        if left == 0 {
            return None;
        }
        found = types.get(*number as usize)?;
        left -= 1;
    }
    Some(found)
}

/// Whether a count is at most what a field allows, any count where it has no most.
pub fn at_most(most: Option<u32>, count: usize) -> bool
    ensures { result ≡ spec.at_most most count }
{
    match most {
        None => true,
        Some(most) => count <= most as usize,
    }
}
