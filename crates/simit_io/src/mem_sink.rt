use crate::plan::{Plan, raise};
use crate::{Failed, Sink};
use std::alloc::Global;
use std::marker::Model;
use vocabulary::{L, NoMemory};

/// A sink over memory. What is written is known.
#[derive(Drop)]
pub struct MemSink {
    bytes: Vec<u8>,
    capacity: usize,
    most: usize,
    plan: Plan,
}

impl Model for MemSink {
    ghost use Rattle.std.specs.Prelude.{◌≤◌, vec_len, vec_capacity};
    ghost use Rattle.simit_io.specs.MemSink.{SinkState};

    ghost Value = { SinkState };

    ghost view = { λ s. record {
      written = s.bytes.items;
      capacity = s.capacity;
      fail = s.plan.fail;
      most = s.most;
      calls = s.plan.calls;
      faults = s.plan.faults;
    } };

    ghost invariant = { λ s.
        (1 ≤ s.most) × (vec_len s.bytes ≤ s.capacity) × (s.capacity ≤ vec_capacity s.bytes) };
}

impl MemSink {
    ghost use Rattle.std.specs.Prelude.{◌≡◌, ◌≤◌, [], IfOk};

    /// A sink of this capacity, which is reserved at once. The puts are numbered from 0, and one whose
    /// number is in `fail` fails. Any other put takes as much of its piece as still fits, but at most
    /// `most` bytes, and fails where no byte of it fits. Both count as faults.
    pub fn new(
        alloc: Global,
        capacity: usize,
        fail: L<u64>,
        most: usize,
    ) -> Result<MemSink, NoMemory>
        requires { 1 ≤ most }
        ensures { IfOk result (λ sink. sink
            ≡ record { written = []; capacity = capacity; fail = fail; most = most; calls = 0; faults = 0 }) }
    {
        let bytes = Vec::with_capacity(alloc, capacity).map_err(|_| NoMemory)?;
        Ok(MemSink {
            bytes,
            capacity,
            most,
            plan: Plan::new(fail),
        })
    }

    /// The bytes that were written.
    pub fn bytes(&self) -> &[u8]
        ensures { result.now ≡ self.now.written }
    {
        &self.bytes
    }
}

impl Sink for MemSink {
    ghost use Rattle.std.specs.Prelude.{◌≡◌, ◌≤◌, ◌++◌, Some, not, take, is_ok, if◌then◌else◌, IfOk, OnErr};
    ghost use Rattle.simit_io.specs.Inputs.{raised};
    ghost use Rattle.simit_io.specs.MemSink.{IsSameSetting, is_failing, taken_of};

    ghost written = { λ s. Some s.written };

    ghost faults = { λ s. s.faults };

    fn put(&mut self, bytes: &[u8]) -> Result<usize, Failed>
        ensures setting { IsSameSetting self.old self.new }
        ensures calls { self.new.calls ≡ raised self.old.calls }
        ensures answer { is_ok result ≡ not (is_failing self.old bytes.now) }
        ensures size { IfOk result (λ size. size ≡ taken_of self.old bytes.now) }
        ensures appended { IfOk result (λ size.
            self.new.written ≡ self.old.written ++ take size bytes.now) }
        ensures unchanged { OnErr result (self.new.written ≡ self.old.written) }
        ensures faults { self.new.faults
            ≡ (if is_failing self.old bytes.now then raised self.old.faults else self.old.faults) }
        ensures most { 1 ≤ self.old.most }
        ensures counted { self.old.faults ≤ self.new.faults }
    {
        self.plan.begin_call()?;
        let size = bytes
            .len()
            .min(self.most)
            .min(self.capacity - self.bytes.len());
        if size == 0 && !bytes.is_empty() {
            raise(&mut self.plan.faults);
            return Err(Failed);
        }
        self.bytes.extend_from_slice(&bytes[..size]).unwrap();
        Ok(size)
    }
}
