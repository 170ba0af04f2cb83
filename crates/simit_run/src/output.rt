//! What a command puts out: the tables of sets, one after another, or a line.

use crate::writing::{longest, put_table, put_tables};
use hypergraph::Sets;
use set_tables::Schema;
use simit_io::{Failed, Sink, put_all};
use std::alloc::Global;
use std::marker::Model;
use vocabulary::{L, NoMemory};

/// Sets with their schemas, which of them is put where not all are, and a buffer for the longest of their tables. Contracts see
/// it as the text that it puts.
#[derive(Drop)]
pub struct Tables {
    chosen: Option<u32>,
    schemas: Vec<Schema>,
    sets: Sets,
    buffer: Vec<u8>,
}

impl Model for Tables {
    ghost use Rattle.std.specs.Prelude.{ℕ, List, vec_capacity};
    ghost use Rattle.simit_run.specs.Output.{chosen_texts};
    ghost use Rattle.simit_run.specs.TableContracts.{IsWritable};

    ghost Value = { List ℕ };

    ghost view = { λ tables. chosen_texts tables.chosen tables.schemas.items tables.sets };

    ghost invariant = { λ tables. IsWritable tables.chosen tables.schemas.items tables.sets (vec_capacity tables.buffer) };
}

impl Tables {
    ghost use Rattle.std.specs.Prelude.{◌≡◌, ◌<◌, ◌≤◌, IfOk, IfSome, OnOk, OnErr, length};
    ghost use Rattle.simit_io.specs.Inputs.{Rose};
    ghost use Rattle.simit_io.specs.Sink.{Puts, PutsPrefix};
    ghost use Rattle.simit_run.specs.Output.{chosen_texts};
    ghost use Rattle.simit_run.specs.TableContracts.{HaveTables};

    /// The tables of sets with their schemas, or of the chosen one. All the memory that they ever take is taken here.
    pub fn of(
        alloc: Global,
        chosen: Option<u32>,
        schemas: Vec<Schema>,
        sets: Sets,
    ) -> Result<Tables, NoMemory>
        requires tables { HaveTables schemas.items sets }
        requires chosen { IfSome chosen (λ number. number < length sets) }
        ensures { IfOk result (λ tables. tables ≡ chosen_texts chosen schemas.items sets) }
    {
        let buffer = Vec::with_capacity(alloc, longest(&schemas, &sets)).map_err(|_| NoMemory)?;
        Ok(Tables {
            chosen,
            schemas,
            sets,
            buffer,
        })
    }

    /// Puts the tables one after another, up to the first that the sink doesn't take whole.
    pub fn put<O: Sink>(self, out: &mut O) -> Result<(), Failed>
        ensures whole { OnOk result (Puts (O.written out.old) (O.written out.new) self) }
        ensures prefix { OnErr result (PutsPrefix (O.written out.old) (O.written out.new) self) }
        ensures failed { OnErr result (Rose (O.faults out.old) (O.faults out.new)) }
        ensures counted { O.faults out.old ≤ O.faults out.new }
    {
        let Tables {
            chosen,
            schemas,
            sets,
            mut buffer,
        } = self;
        match chosen {
            None => put_tables(out, &schemas, &sets, &mut buffer),
            Some(number) => put_table(out, &schemas, &sets, number, &mut buffer),
        }
    }
}

/// What a command puts out.
#[derive(Drop)]
pub enum Output {
    /// The tables of sets.
    Tables(Tables),
    /// The line of a made job.
    Line(L<u8>),
}

impl Output {
    ghost use Rattle.std.specs.Prelude.{◌≤◌, OnOk, OnErr};
    ghost use Rattle.simit_io.specs.Inputs.{Rose};
    ghost use Rattle.simit_io.specs.Sink.{Puts, PutsPrefix};
    ghost use Rattle.simit_run.specs.CommandContracts.{text_of};

    /// Puts the text, up to where the sink doesn't take a piece whole.
    pub fn put<O: Sink>(self, out: &mut O) -> Result<(), Failed>
        ensures whole { OnOk result (Puts (O.written out.old) (O.written out.new) (text_of self)) }
        ensures prefix { OnErr result (PutsPrefix (O.written out.old) (O.written out.new) (text_of self)) }
        ensures failed { OnErr result (Rose (O.faults out.old) (O.faults out.new)) }
        ensures counted { O.faults out.old ≤ O.faults out.new }
    {
        match self {
            Output::Tables(tables) => tables.put(out),
            Output::Line(line) => put_all(out, line.items()),
        }
    }
}
