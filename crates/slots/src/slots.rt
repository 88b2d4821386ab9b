//! A list of at most so many items, which lie in the value itself. It can be copied, as an `ArrayVec` of the kit can't.
ghost use Rattle.std.specs.Prelude.{⊤, ◌≡◌, ◌^◌, ◌<◌, ◌≤◌, [], ◌∷◌, ◌++◌, length, take, slice_set};
ghost use Rattle.std.specs.Iterator.Runs.{EveryRun, ItemsMapTo};
ghost use Rattle.std.specs.Slice.Iter.{iter_rest, iter_steps};
ghost use Rattle.std.specs.Cmp.{on_equiv, on_per};
ghost use Rattle.std.specs.Cmp.Lexicographic.{pointwise, lists_per, lists_equiv};

use crate::Blank;
use std::alloc::AllocError;
use std::marker::Model;
use std::ops::DerefSlice;
use std::{fmt, slice};

/// At most `MOST` items, in the first `len` slots; the others are blank. A clause sees the items alone.
// The fields are public so that a list can be written out; that it is one is proved there, and of a constant where it is used.
// A variable that is given to a call, put into a value or taken apart, and used again, is copied by a `let` first: today's
// borrow checker covers no more of a type with a model.
#[derive(Copy)]
pub struct Slots<T: Blank, const MOST: usize> {
    pub slots: [T; MOST],
    pub len: usize,
}

impl<T: Blank, const MOST: usize> Model for Slots<T, MOST> {
    ghost use Rattle.std.specs.Prelude.{◌≡◌, ℕ, ◌-◌, ◌≤◌, ◌++◌, length, take, drop, replicate};
    ghost use Rattle.std.proofs.Common.{subst, sym, length-take-le};
    ghost use Rattle.slots.specs.Blanks.{whole};
    ghost use Rattle.slots.specs.Items.{Items, items_code};

    ghost Value = { Items T };

    ghost coded = { items_code T.code };

    ghost view = { λ v. record { items = take v.len v.slots } };

    ghost invariant = { λ v. (v.len ≤ MOST) × (length v.slots ≡ MOST) × (drop v.len v.slots ≡ replicate (MOST - v.len) T.blank) };

    ghost inverse = { λ v. record { slots = v.items ++ replicate (MOST - length v.items) T.blank; len = length v.items } };

    ghost inverse_ok = { λ s h i. record {
      slots = whole MOST s.len s.slots T.blank h.0 h.1 h.2 i;
      len = length-take-le s.len s.slots (subst (λ (n : ℕ). s.len ≤ n) (sym h.1) h.0) i;
    } };
}

impl<T: Blank, const MOST: usize> Slots<T, MOST> {
    /// A list without items.
    pub fn new() -> Self
        ensures { result.items ≡ [] }
    {
        Slots {
            slots: [T::blank(); MOST],
            len: 0,
        }
    }

    /// The first of some items, as many as there is room for.
    pub fn of(items: &[T]) -> Self
        ensures { result.items ≡ take MOST items.now }
    {
        let mut list = Slots::new();
        for &item in items {
            list.push(item);
        }
        list
    }

    /// How many items there are.
    pub fn len(&self) -> usize
        ensures value { result ≡ length self.now.items }
        ensures fits { result ≤ MOST }
    {
        self.as_slice().len()
    }

    /// The items.
    pub fn as_slice(&self) -> &[T]
        ensures value { result.now ≡ self.now.items }
        ensures fits { length result.now ≤ MOST }
    {
        &self.slots[..self.len]
    }

    /// Puts an item behind the others, where there is room.
    pub fn push(&mut self, item: T)
        ensures room { length self.old.items < MOST → self.new.items ≡ self.old.items ++ item ∷ [] }
        ensures full { MOST ≤ length self.old.items → self.new ≡ self.old }
    {
        if self.len < MOST {
            self.slots[self.len] = item;
            self.len += 1;
        }
    }

    /// Puts an item in the place of another, where there is one.
    pub fn set(&mut self, index: usize, item: T)
        ensures { self.new.items ≡ slice_set self.old.items index item }
    {
        if index < self.len {
            self.slots[index] = item;
        }
    }
}

impl<T: Blank, const MOST: usize> Clone for Slots<T, MOST> {
    ghost is_clone = { λ v w. w ≡ v };

    ghost is_infallible = { λ v. ⊤ };

    fn clone(&self) -> Result<Self, AllocError> {
        Ok(*self)
    }
}

impl<T: Blank, const MOST: usize> DerefSlice for Slots<T, MOST> {
    type Elem = T;

    ghost deref_gives = { λ v xs. (xs ≡ v.items) × (length xs ≤ MOST) };

    fn deref(&self) -> &[T] {
        self.as_slice()
    }
}

impl<'a, T: Blank, const MOST: usize> IntoIterator for &'a Slots<T, MOST> {
    type Item = &'a T;

    type IntoIter = slice::Iter<'a, T>;

    ghost into_iter_gives = { λ v it. (iter_rest it ≡ v.now.items) × (length (iter_rest it) < 2 ^ 64)
        × EveryRun (iter_steps {A = T}) (λ p. ItemsMapTo p (λ x. x.now) (iter_rest p.from)) };

    fn into_iter(self) -> slice::Iter<'a, T> {
        self.as_slice().iter()
    }
}

impl<T: Blank, const MOST: usize> Default for Slots<T, MOST> {
    ghost is_default = { λ v. v.items ≡ [] };

    fn default() -> Self {
        Self::new()
    }
}

impl<T: Blank + PartialEq, const MOST: usize> PartialEq for Slots<T, MOST> {
    ghost eq = { λ v w. pointwise T.eq v.items w.items };

    ghost laws = { on_per (λ v. v.items) (lists_per T.laws) };

    fn eq(&self, other: &Self) -> bool {
        self.as_slice() == other.as_slice()
    }
}

impl<T: Blank + Eq, const MOST: usize> Eq for Slots<T, MOST> {
    ghost laws = { on_equiv (λ v. v.items) (lists_equiv T.Eq.laws) };
}

impl<T: Blank + fmt::Debug, const MOST: usize> fmt::Debug for Slots<T, MOST> {
    fn fmt<W: fmt::Write>(&self, f: &mut fmt::Formatter<W>) -> fmt::Result {
        f.debug_list().entries(self.as_slice()).finish()
    }
}
