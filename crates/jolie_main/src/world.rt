//! What a call of the program meets outside.
ghost use Rattle.std.specs.Prelude.{◌≡◌, map};
ghost use Rattle.outside_traits.specs.Told.{WireTold};
ghost use Rattle.jolie_main.specs.Outside.{Outside};

use outside_doors::Doors;
use outside_links::Link;
use outside_traits::{Files, Sink, Source};

/// What a call of the program meets outside: the files, the input, the output and the notes, the doors at which
/// connections come in, and the links to services elsewhere.
#[derive(Drop)]
pub struct World<F, S, K, N, D, L> {
    pub files: F,
    pub input: S,
    pub output: K,
    pub notes: N,
    pub doors: D,
    pub links: Vec<L>,
}

/// What the outside tells of itself, and of which wires its doors can give.
pub trait Telling {
    ghost told: { Self → Outside };

    ghost made: { WireTold → Type 0 };
}

impl<F: Files, S: Source, K: Sink, N: Sink, D: Doors, L: Link> Telling for World<F, S, K, N, D, L> {
    ghost told = { λ w. record {
      files = F.told w.files;
      input = S.told w.input;
      output = K.told w.output;
      notes = N.told w.notes;
      doors = D.told w.doors;
      links = map (λ l. L.told l) w.links.items;
    } };

    ghost made = { λ line. (wire : D.D.W) × (line ≡ (D.D.W.told wire).wire) };
}
