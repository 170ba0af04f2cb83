//! The table of the functions.
ghost use Rattle.std.specs.Prelude.{◌≡◌, IfOk};
ghost use Rattle.host_table.specs.Hosts.{host_of};
ghost use Rattle.main_hosts.specs.Table.{hosts};

use crate::MainHosts;
use host_table::{HostFn, HostTable};
use std::alloc::Global;
use vocabulary::{NoMemory, Text};

/// The table of the five functions under their names.
pub fn main_hosts(alloc: Global) -> Result<HostTable<MainHosts>, NoMemory>
    ensures { IfOk result (λ table. table ≡ hosts) }
{
    let functions = [
        function(alloc, "clamp0", 1, 0)?,
        function(alloc, "least", 2, 1)?,
        function(alloc, "most", 2, 2)?,
        function(alloc, "mix", 1, 3)?,
        function(alloc, "square", 1, 4)?,
    ];
    let functions = Vec::from_array(alloc, functions).map_err(|_| NoMemory)?;
    Ok(HostTable::of(functions))
}

/// The function of a number, under a name.
fn function(
    alloc: Global,
    name: &str,
    arity: u32,
    number: u32,
) -> Result<HostFn<MainHosts>, NoMemory>
    ensures { IfOk result (λ function. function ≡ host_of name.now arity number) }
{
    match String::from_str(alloc, name) {
        Ok(name) => Ok(HostFn::new(Text::of(name), arity, number)),
        Err(_) => Err(NoMemory),
    }
}
