//! The words that a task awaits.

ghost use Rattle.rh_plain.specs.Values.{awaited_words};

use crate::values::Values;
use rh_words::Inputs;

/// The words of awaited promises, read where they are kept.
#[derive(Drop)]
pub(crate) struct Awaited<'a> {
    pub(crate) values: &'a Values,
    pub(crate) awaits: &'a [u32],
}

impl<'a> Inputs for Awaited<'a> {
    ghost lists = { λ a. awaited_words a.values.now a.awaits.now };

    fn count(&self) -> usize {
        self.awaits.len()
    }

    fn words(&self, at: usize) -> &[u64] {
        self.values.words(self.awaits[at])
    }
}
