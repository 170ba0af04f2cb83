ghost use Rattle.std.specs.Prelude.{◌≡◌, IfOk};
ghost use Rattle.host_table.specs.Hosts.{name_of};

use crate::{HostFn, HostMeaning};
use std::alloc::Global;
use std::marker::Model;
use vocabulary::{NoMemory, Text};

/// The name of a host function, and how many words it takes.
#[derive(Drop)]
pub struct HostName {
    pub name: Text,
    pub arity: u32,
}

/// The host functions that a program may call: fewer than 2^32, under different names, each at the index that is its number.
#[derive(Drop)]
pub struct HostTable<H> {
    functions: Vec<HostFn<H>>,
}

impl<H> Model for HostTable<H> {
    ghost use Rattle.std.specs.Prelude.{List};
    ghost use Rattle.host_table.specs.Hosts.{HostValue, AreHosts};

    ghost Value = { List HostValue };

    ghost view = { λ t. t.functions.items };

    ghost invariant = { λ t. AreHosts t.functions.items };
}

impl<H: HostMeaning> HostTable<H> {
    ghost use Rattle.std.specs.Prelude.{◌≡◌, ◌<◌, IfOk, IfSome, MatchOption, length, map};
    ghost use Rattle.host_table.specs.Hosts.{AreHosts, IsNamed, NoneNamed, OnlyNamed, name_of};

    /// The table of these functions, which takes no memory.
    pub fn of(functions: Vec<HostFn<H>>) -> HostTable<H>
        requires { AreHosts functions.items }
        ensures { result ≡ functions.items }
    {
        HostTable { functions }
    }

    /// How many functions there are.
    #[inline]
    pub fn len(&self) -> u32
        ensures value { result ≡ length self.now }
        ensures hosts { AreHosts self.now }
    {
        self.functions.len() as u32
    }

    /// The number of the function that has the name. None exactly where none has it. This takes no memory.
    pub fn find(&self, name: &str) -> Option<u32>
        ensures found { MatchOption result (NoneNamed self.now name.now) (λ k. IsNamed self.now name.now k) }
        ensures only { IfSome result (λ k. OnlyNamed self.now name.now k) }
    {
        let index = self.functions.iter().position(|f| f.has_name(name))?;
        Some(index as u32)
    }

    /// The names of the functions, by their numbers, and how many words each takes.
    pub fn names(&self, alloc: Global) -> Result<Vec<HostName>, NoMemory>
        ensures { IfOk result (λ names. names.items ≡ map name_of self.now) }
    {
        let mut names = Vec::with_capacity(alloc, self.functions.len()).map_err(|_| NoMemory)?;
        for function in &self.functions {
            names
                .push(host_name(alloc, function)?)
                .map_err(|_| NoMemory)?;
        }
        Ok(names)
    }

    /// What the function of a number answers of two words; one of one argument is called with 0 as the second.
    /// This takes no memory.
    #[inline]
    pub fn call(&self, number: u32, a: u64, b: u64) -> u64
        ensures { result ≡ H.answer number a b }
    {
        H::run(number, a, b)
    }
}

/// The name of a function, and how many words it takes.
fn host_name<H: HostMeaning>(alloc: Global, function: &HostFn<H>) -> Result<HostName, NoMemory>
    ensures { IfOk result (λ name. name ≡ name_of function.now) }
{
    let name = function.copy_name(alloc)?;
    Ok(HostName {
        name,
        arity: function.arity(),
    })
}
