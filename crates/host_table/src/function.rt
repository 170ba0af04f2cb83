use crate::HostMeaning;
use std::alloc::Global;
use std::marker::{Model, PhantomData};
use vocabulary::{NoMemory, Text};

/// A host function: its name, how many words it takes, 1 or 2, and its number among those of `H`.
#[derive(Drop)]
pub struct HostFn<H> {
    name: Text,
    arity: u32,
    number: u32,
    meaning: PhantomData<H>,
}

impl<H> Model for HostFn<H> {
    ghost use Rattle.host_table.specs.Hosts.{HostValue, host_of};

    ghost Value = { HostValue };

    ghost view = { λ f. host_of f.name f.arity f.number };
}

impl<H: HostMeaning> HostFn<H> {
    ghost use Rattle.std.specs.Prelude.{◌≡◌, IfOk, bytes_eq};
    ghost use Rattle.host_table.specs.Hosts.{host_of};

    /// The function of a number, under a name.
    pub fn new(name: Text, arity: u32, number: u32) -> HostFn<H>
        ensures { result ≡ host_of name arity number }
    {
        HostFn {
            name,
            arity,
            number,
            meaning: PhantomData,
        }
    }

    /// How many words the function takes.
    pub(crate) fn arity(&self) -> u32
        ensures { result ≡ self.now.arity }
    {
        self.arity
    }

    /// A copy of the name.
    pub(crate) fn copy_name(&self, alloc: Global) -> Result<Text, NoMemory>
        ensures { IfOk result (λ name. name ≡ self.now.name) }
    {
        self.name.copy(alloc)
    }

    /// Whether the function has the name.
    pub(crate) fn has_name(&self, name: &str) -> bool
        ensures { result ≡ bytes_eq self.now.name name.now }
    {
        self.name.has_bytes(name.as_bytes())
    }
}
