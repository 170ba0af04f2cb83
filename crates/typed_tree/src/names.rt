//! The names that are visible at a point, and what they stand for.

ghost use Rattle.std.specs.Prelude.{◌≡◌, [], OnOk, length, take};
ghost use Rattle.typed_tree.specs.Names as spec;

use indexmap::IndexMap;
use std::alloc::Global;
use std::marker::Model;
use type_rules::{IndexRange, NodeType};
use vocabulary::NoMemory;

/// The scales of the arguments of a host function.
#[derive(Clone, Copy, Debug, PartialEq, Eq)]
pub enum HostArguments {
    One(u32),
    Two(u32, u32),
}

/// A host function as it is declared: its number in the host table, the scales of its arguments, and that of what it
/// answers.
#[derive(Clone, Copy, Debug, PartialEq, Eq)]
pub struct HostSignature {
    pub number: u32,
    pub arguments: HostArguments,
    pub scale: u32,
}

/// What a name stands for.
#[derive(Clone, Copy, Debug, PartialEq, Eq)]
pub enum Meaning {
    /// An element type, a set or a function, by its number, and a host function.
    Element(u32),
    Set(u32),
    Function(u32),
    Host(HostSignature),
    /// A scalar parameter of a function: a local, and its scale.
    Parameter { local: u32, scale: u32 },
    /// The element that a function takes, by its type.
    Own { element: u32 },
    /// The endpoints that a function takes, by their type and count.
    Ends { element: u32, count: u32 },
    /// A result of a function, and its type.
    Result { result: u32, value_type: NodeType },
    /// A variable of a function.
    Local { local: u32, value_type: NodeType },
    /// The variable of a function's loop, and the values that it takes.
    Turn { local: u32, range: IndexRange },
    /// A variable of the main procedure.
    Variable { variable: u32, value_type: NodeType },
    /// The variable of a loop of the main procedure.
    Counter { local: u32 },
    /// Nothing but that the name is taken.
    Taken,
}

/// The names that are visible at a point. In contracts they are the list of names and meanings, in the order in which
/// they were declared.
#[derive(Drop)]
pub struct Names<'a> {
    meanings: IndexMap<&'a str, Meaning>,
}

impl<'a> Model for Names<'a> {
    ghost use Rattle.std.specs.Prelude.{List, map};
    ghost use Rattle.typed_tree.specs.Names.{Known};

    ghost Value = { Known };

    ghost view = { λ names. map (λ entry. (entry.0.now, entry.1)) names.meanings.entries };
}

impl<'a> Names<'a> {
    /// No names.
    pub fn new(alloc: Global) -> Names<'a>
        ensures { result ≡ [] }
    {
        Names {
            meanings: IndexMap::new(alloc),
        }
    }

    /// What a name stands for, where it is visible.
    pub fn find(&self, name: &str) -> Option<Meaning>
        ensures { result ≡ spec.meaning_of self.now name.now }
    {
        self.meanings.get(name).copied()
    }

    /// From here on the name stands for this.
    pub fn set(&mut self, name: &'a str, meaning: Meaning) -> Result<(), NoMemory>
        ensures { OnOk result (self.new ≡ spec.with_meaning self.old name.now meaning) }
    {
        match self.meanings.insert(name, meaning) {
            Ok(_) => Ok(()),
            Err(_) => Err(NoMemory),
        }
    }

    /// How many names are visible.
    pub fn len(&self) -> usize
        ensures { result ≡ length self.now }
    {
        self.meanings.len()
    }

    /// Keeps the names that were declared first, so many of them.
    pub fn truncate(&mut self, len: usize)
        ensures { self.new ≡ take len self.old }
    {
        self.meanings.truncate(len);
    }
}
