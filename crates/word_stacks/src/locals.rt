//! The locals of a function, in memory that is used again.

use crate::operand::Size;
use std::alloc::Global;
use std::marker::Model;
use value_algebra::Value;
use vocabulary::NoMemory;

/// The memory of one local, and its value. Contracts see the value.
#[derive(Drop)]
pub struct Slot {
    size: Size,
    words: Vec<u64>,
}

impl Model for Slot {
    ghost use Rattle.value_algebra.specs.declared.value.Value as value;

    ghost Value = { value.Value };

    ghost view = { λ s. record { rows = s.size.rows; columns = s.size.columns; words = s.words.items } };
}

impl Slot {
    ghost use Rattle.std.specs.Prelude.{◌≡◌, IfOk, OnOk};
    ghost use Rattle.value_algebra.specs.Value.{word_of};
    ghost use Rattle.word_stacks.specs.Stack.{sized};

    /// A value of this size with these words.
    fn of(alloc: Global, size: Size, words: &[u64]) -> Result<Slot, NoMemory>
        ensures { IfOk result (λ slot. slot ≡ sized size words.now) }
    {
        match Vec::from_slice(alloc, words) {
            Ok(words) => Ok(Slot { size, words }),
            Err(_) => Err(NoMemory),
        }
    }

    /// Gives the local another value, in the same memory where there is enough.
    fn set(&mut self, size: Size, words: &[u64]) -> Result<(), NoMemory>
        ensures { OnOk result (self.new ≡ sized size words.now) }
    {
        self.size = size;
        self.words.clear();
        self.words.extend_from_slice(words).map_err(|_| NoMemory)
    }

    /// How many rows and columns the value has.
    pub(crate) fn size(&self) -> Size
        ensures { (result.rows ≡ self.now.rows) × (result.columns ≡ self.now.columns) }
    {
        self.size
    }

    /// The words, row by row.
    pub(crate) fn words(&self) -> &[u64]
        ensures { result.now ≡ self.now.words }
    {
        &self.words
    }
}

/// The locals of a function, each with memory of its own, which the next element uses again. Contracts see the list of
/// their values.
#[derive(Drop)]
pub struct Locals {
    slots: Vec<Slot>,
    /// How many of them are locals now.
    live: usize,
}

impl Model for Locals {
    ghost use Rattle.std.specs.Prelude.{List, take, length, ◌≤◌};
    ghost use Rattle.value_algebra.specs.declared.value.Value as value;

    ghost Value = { List value.Value };

    ghost view = { λ l. take l.live l.slots.items };

    ghost invariant = { λ l. l.live ≤ length l.slots.items };
}

impl Locals {
    ghost use Rattle.std.specs.Prelude.{◌≡◌, [], ◌∷◌, ◌++◌, ◌<◌, ◌≤◌, IfOk, OnErr, OnOk, MatchOption, length, slice_get, slice_set, take, Option, None, Some};
    ghost use Rattle.value_algebra.specs.Value.{word_of};
    ghost use Rattle.algebra_meaning.specs.Expression.{value_at};
    ghost use Rattle.algebra_meaning.specs.Element.{with_local};
    ghost use Rattle.word_stacks.specs.Stack.{sized};

    /// No locals.
    pub fn new(alloc: Global) -> Locals
        ensures { result ≡ [] }
    {
        Locals {
            slots: Vec::new(alloc),
            live: 0,
        }
    }

    /// No local is left; their memory is.
    pub fn clear(&mut self)
        ensures { self.new ≡ [] }
    {
        self.live = 0;
    }

    /// One more local: this size and these words, in memory that stands there already if there is some.
    fn push(&mut self, size: Size, words: &[u64]) -> Result<(), NoMemory>
        ensures { OnOk result (self.new ≡ self.old ++ sized size words.now ∷ []) }
    {
        match self.slots.get_mut(self.live) {
            Some(slot) => slot.set(size, words)?,
            None => {
                let slot = Slot::of(*self.slots.allocator(), size, words)?;
                self.slots.push(slot).map_err(|_| NoMemory)?;
            }
        }
        self.live += 1;
        Ok(())
    }

    /// The first `local` of them, then one more: this size and these words.
    pub fn set_from(&mut self, local: u32, size: Size, words: &[u64]) -> Result<(), NoMemory>
        ensures { OnOk result (self.new ≡ with_local self.old local (sized size words.now)) }
    {
        self.live = self.live.min(local as usize);
        self.push(size, words)
    }

    /// These locals in place of those that are there, in the same memory where there is enough.
    pub fn restart(&mut self, args: &[Value]) -> Result<(), NoMemory>
        ensures { OnOk result (self.new ≡ args.now) }
    {
        self.live = 0;
        for value in args {
            let size = Size {
                rows: value.rows,
                columns: value.columns,
            };
            self.push(size, value.words.items())?;
        }
        Ok(())
    }

    /// The local of this number gets another value; where there is none nothing changes.
    #[tactic(auto, using(crate::proofs::InPlace::live_set))]
    pub fn assign(&mut self, local: u32, size: Size, words: &[u64]) -> Result<(), NoMemory>
        ensures { OnOk result (self.new ≡ slice_set self.old local (sized size words.now)) }
    {
        let local = local as usize;
        if local < self.live {
            self.slots[local].set(size, words)?;
        }
        Ok(())
    }

    /// These locals.
    pub fn of(alloc: Global, args: &[Value]) -> Result<Locals, NoMemory>
        ensures { IfOk result (λ locals. locals ≡ args.now) }
    {
        let mut slots = Vec::new(alloc);
        for value in args {
            let size = Size {
                rows: value.rows,
                columns: value.columns,
            };
            let slot = Slot::of(alloc, size, value.words.items())?;
            slots.push(slot).map_err(|_| NoMemory)?;
        }
        let live = slots.len();
        Ok(Locals { slots, live })
    }

    /// The local of a number.
    pub(crate) fn get(&self, local: u32) -> Option<&Slot>
        ensures { MatchOption result (length self.now ≤ local) (λ slot. (local < length self.now) × (slot.now ≡ value_at self.now local)) }
    {
        if (local as usize) < self.live {
            self.slots.get(local as usize)
        } else {
            None
        }
    }

    /// The word of the local of a number; 0 where there is none.
    pub fn word_of(&self, local: u32) -> u64
        ensures { result ≡ word_of (value_at self.now local) }
    {
        match self.get(local) {
            Some(slot) => slot.words.first().copied().unwrap_or(0),
            None => 0,
        }
    }
}
