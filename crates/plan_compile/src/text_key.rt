//! Texts that are held as keys of hash tables.

ghost use Rattle.std.specs.Prelude.{bytes_eq};
ghost use Rattle.std.specs.Cmp.{on_equiv, on_per, partial_equiv_from_equiv};
ghost use Rattle.std.specs.Cmp.Lexicographic.{nat_list_eq_equiv};
ghost use Rattle.plan_text.specs.HashWords.{words};
ghost use Rattle.plan_graph.specs.Keys.{same_fed};

use plan_scope::CowText;
use plan_text::feed_words;
use std::hash::{Hash, Hasher};

/// A text that is held for as long as it is looked up. It is hashed eight bytes at a time, as a `Key` is.
#[derive(Drop)]
pub(crate) struct HeldKey<'a> {
    /// The text.
    pub(crate) text: CowText<'a>,
}

impl<'a> PartialEq for HeldKey<'a> {
    ghost eq = { λ x y. bytes_eq x.text y.text };

    ghost laws = { on_per (λ x. x.text) (partial_equiv_from_equiv nat_list_eq_equiv) };

    fn eq(&self, other: &HeldKey<'a>) -> bool {
        self.text.as_slice() == other.text.as_slice()
    }
}

impl<'a> Eq for HeldKey<'a> {
    ghost laws = { on_equiv (λ x. x.text) nat_list_eq_equiv };
}

impl<'a> Hash for HeldKey<'a> {
    ghost hash_input = { λ x. words x.text };

    ghost respects_eq = { λ x y. same_fed x.text y.text };

    fn hash<H: Hasher>(&self, state: &mut H) {
        feed_words(self.text.as_slice(), state);
    }
}
