ghost use Rattle.std.specs.Prelude.{◌≡◌, ◌+◌, ◌<◌, ℕ, List, pos, string_bytes};
ghost use Rattle.jolie_trees.specs.declared.root.Root.{Root};
ghost use Rattle.correlation.specs.Order.{bytes_of, key_order, kind_of, number_of, value_order};

use jolie_trees::Root;
use std::cmp::Ordering;
use std::marker::Model;
use std::sync::ledger::{Blank, Book, Ledger, Share};

/// The values of a complete key. Only `compare` reads them.
#[derive(Drop)]
pub struct Key {
    values: Vec<Root>,
}

impl Model for Key {
    ghost use Rattle.std.specs.Prelude.{List};
    ghost use Rattle.jolie_trees.specs.declared.root.Root.{Root};

    ghost Value = { List Root };

    ghost view = { λ k. k.values.items };
}

impl Key {
    /// The key of these values.
    pub fn new(values: Vec<Root>) -> Key
        ensures { result ≡ values.items }
    {
        Key { values }
    }
}

/// Values that are sought among keys, and how many keys they were compared with. The count takes no bytes.
///
/// Nobody but `compare` reads the values, and each call of it counts in the very value that holds them: who is handed
/// them can compare no key without counting it there.
#[derive(Drop)]
pub struct Sought<'a, L: Ledger> {
    values: &'a [Root],
    book: Book<L>,
    share: Share<L>,
}

impl<'a, L: Ledger> Model for Sought<'a, L> {
    ghost use Rattle.std.specs.Prelude.{◌<◌};
    ghost use Rattle.correlation.specs.Sought.{Sought};

    ghost Value = { Sought };

    ghost view = { λ s. record { values = s.values.now; steps = s.book.total } };

    ghost invariant = { λ s. 0 < s.share.parts };
}

impl<'a, L: Ledger> Sought<'a, L> {
    /// These values, which were not compared yet.
    pub fn new(values: &'a [Root], blank: Blank) -> Sought<'a, L>
        requires name { blank.name ≡ L.name }
        requires parts { blank.parts ≡ L.parts }
        requires some { 0 < blank.parts }
        ensures { result ≡ record { values = values.now; steps = 0 } }
    {
        let (book, share) = blank.open::<L>();
        Sought {
            values,
            book,
            share,
        }
    }

    /// How a key stands to the values. Each call is one step.
    pub fn compare(&mut self, key: &Key) -> Ordering
        ensures order { result ≡ key_order key.now self.old.values }
        ensures step { self.new ≡ record { values = self.old.values; steps = self.old.steps + 1 } }
    {
        self.book.add(&mut self.share, 1);
        order_of_lists(&key.values, self.values)
    }
}

/// A complete key and the session that has it.
#[derive(Drop)]
pub struct KeyRow {
    pub key: Key,
    pub session: u32,
}

/// How two lists of values stand to each other.
fn order_of_lists(left: &[Root], right: &[Root]) -> Ordering
    ensures { result ≡ key_order left.now right.now }
{
    let mut place = 0;
    while place < left.len() && place < right.len() {
        match order_of(&left[place], &right[place]) {
            Ordering::Equal => place += 1,
            Ordering::Less => return Ordering::Less,
            Ordering::Greater => return Ordering::Greater,
        }
    }
    left.len().cmp(&right.len())
}

/// How two values stand to each other.
fn order_of(left: &Root, right: &Root) -> Ordering
    ensures { result ≡ value_order left.now right.now }
{
    let kinds = kind(left).cmp(&kind(right));
    let numbers = number(left).cmp(&number(right));
    kinds.then(numbers).then(text(left).cmp(text(right)))
}

/// The kind of a value.
fn kind(root: &Root) -> u8
    ensures { result ≡ kind_of root.now }
{
    match root {
        Root::Void => 0,
        Root::Bool(_) => 1,
        Root::Int(_) => 2,
        Root::Long(_) => 2,
        Root::Text(_) => 3,
    }
}

/// The number that a value is.
fn number(root: &Root) -> i64
    ensures { result ≡ number_of root.now }
{
    match root {
        Root::Void => 0,
        Root::Bool(true) => 1,
        Root::Bool(false) => 0,
        Root::Int(number) => i64::from(*number),
        Root::Long(number) => *number,
        Root::Text(_) => 0,
    }
}

/// The text that a value is.
fn text(root: &Root) -> &str
    ensures { result.now ≡ bytes_of root.now }
{
    match root {
        Root::Void => "",
        Root::Bool(_) => "",
        Root::Int(_) => "",
        Root::Long(_) => "",
        Root::Text(text) => text.as_str(),
    }
}
