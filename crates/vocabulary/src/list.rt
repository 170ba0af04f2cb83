use crate::NoMemory;
use std::alloc::Global;
use std::marker::Model;

/// A list: a `Vec` that contracts see as the list of its elements.
#[derive(Drop)]
pub struct L<T> {
    list: Vec<T>,
}

impl<T> Model for L<T> {
    ghost use Rattle.std.specs.Prelude.{List};

    ghost Value = { List T };

    ghost view = { λ l. l.list.items };
}

impl<T> L<T> {
    ghost use Rattle.std.specs.Prelude.{◌≡◌, [], ◌∷◌, ◌++◌, OnOk, OnErr};

    /// The list without elements.
    pub fn empty(alloc: Global) -> L<T>
        ensures { result ≡ [] }
    {
        L {
            list: Vec::new(alloc),
        }
    }

    /// The list of a vector's elements.
    pub fn of(list: Vec<T>) -> L<T>
        ensures { result ≡ list.items }
    {
        L { list }
    }

    /// The elements in order.
    pub fn items(&self) -> &[T]
        ensures { result.now ≡ self.now }
    {
        &self.list
    }

    /// The vector of the elements.
    pub fn into_vec(self) -> Vec<T>
        ensures { result.items ≡ self }
    {
        self.list
    }
}

impl<T: Drop> L<T> {
    ghost use Rattle.std.specs.Prelude.{◌≡◌, [], ◌∷◌, ◌++◌, OnOk, OnErr};

    /// Appends an element. Out of memory the list stays, and the element is given up.
    pub fn push(&mut self, element: T) -> Result<(), NoMemory>
        ensures pushed { OnOk result (self.new ≡ self.old ++ element ∷ []) }
        ensures unchanged { OnErr result (self.new ≡ self.old) }
    {
        match self.list.push(element) {
            Ok(()) => Ok(()),
            Err(_) => Err(NoMemory),
        }
    }
}

impl<T: Copy> L<T> {
    ghost use Rattle.std.specs.Prelude.{◌≡◌, IfOk};

    /// An equal list.
    pub fn copy(&self, alloc: Global) -> Result<L<T>, NoMemory>
        ensures { IfOk result (λ copy. copy ≡ self.now) }
    {
        match Vec::from_slice(alloc, self.items()) {
            Ok(list) => Ok(L { list }),
            Err(_) => Err(NoMemory),
        }
    }
}
