//! Lists whose items are taken out one by one.

ghost use Rattle.std.specs.Prelude.{◌≡◌, ◌++◌, ◌∷◌, [], IfOk, OnOk, reverse};

use sqlite_items::{Boxed, Items};
use std::alloc::Global;
use vocabulary::NoMemory;

/// Appends an item.
pub fn push<T: Drop>(items: &mut Items<T>, item: T) -> Result<(), NoMemory>
    ensures { OnOk result (items.new ≡ items.old ++ item ∷ []) }
{
    match items.push(item) {
        Ok(()) => Ok(()),
        Err(_) => Err(NoMemory),
    }
}

/// A part of an expression.
pub fn boxed<T: Drop>(alloc: Global, value: T) -> Result<Boxed<T>, NoMemory>
    ensures { IfOk result (λ part. part ≡ value) }
{
    match Boxed::new(alloc, value) {
        Ok(part) => Ok(part),
        Err(_) => Err(NoMemory),
    }
}

/// The items from the last to the first.
pub fn reversed<T: Drop>(alloc: Global, items: Items<T>) -> Result<Items<T>, NoMemory>
    ensures { IfOk result (λ list. list ≡ reverse items) }
{
    let mut left = items;
    let mut list = Items::new(alloc);
    for _ in 0..left.len() {
        if let Some(item) = left.pop() {
            push(&mut list, item)?;
        }
    }
    Ok(list)
}
