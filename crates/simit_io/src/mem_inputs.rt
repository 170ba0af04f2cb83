ghost use Rattle.std.specs.Prelude.{◌≡◌, ◌<◌, length, option_map, IfSome};
ghost use Rattle.simit_io.specs.MemInputs.{bytes_at, file_named};

use crate::plan::Plan;
use crate::{Failed, Inputs};
use std::marker::Model;
use vocabulary::{L, Text};

/// A file that is given whole.
#[derive(Drop)]
pub struct MemFile {
    pub name: Text,
    pub bytes: L<u8>,
}

/// The file that is open: its index, and how many of its bytes are not yet read.
#[derive(Clone, Copy)]
struct OpenFile {
    index: usize,
    left: usize,
}

/// Inputs over memory. Their files and what is left are known.
#[derive(Drop)]
pub struct MemInputs {
    files: L<MemFile>,
    most: usize,
    plan: Plan,
    current: Option<OpenFile>,
}

impl Model for MemInputs {
    ghost use Rattle.std.specs.Prelude.{◌≤◌};
    ghost use Rattle.simit_io.specs.MemInputs.{InputsState, unread_bytes, IsOpenIn};

    ghost Value = { InputsState };

    ghost view = { λ m. record {
      files = m.files;
      fail = m.plan.fail;
      most = m.most;
      left = unread_bytes m.files m.current;
      calls = m.plan.calls;
      faults = m.plan.faults;
    } };

    ghost invariant = { λ m. (1 ≤ m.most) × IsOpenIn m.files m.current };
}

impl MemInputs {
    ghost use Rattle.std.specs.Prelude.{◌≡◌, ◌≤◌, [], length, drop};

    /// Inputs over these files. The calls of `open` and `take` are numbered together from 0, and one
    /// whose number is in `fail` fails and counts as a fault. A take gives at most `most` bytes.
    pub fn new(files: L<MemFile>, fail: L<u64>, most: usize) -> MemInputs
        requires { 1 ≤ most }
        ensures { result
            ≡ record { files = files; fail = fail; most = most; left = []; calls = 0; faults = 0 } }
    {
        MemInputs {
            files,
            most,
            plan: Plan::new(fail),
            current: None,
        }
    }

    /// How many faults were counted.
    pub fn fault_count(&self) -> u64
        ensures { result ≡ self.now.faults }
    {
        self.plan.faults
    }

    /// The bytes of the open file that are not yet read.
    fn unread(&self) -> &[u8]
        ensures { result.now ≡ self.now.left }
    {
        match self.current {
            None => &[],
            Some(file) => {
                let bytes = self.files.items()[file.index].bytes.items();
                &bytes[bytes.len() - file.left..]
            }
        }
    }

    /// Goes on after the next bytes of the open file.
    fn skip(&mut self, size: usize)
        requires { size ≤ length self.old.left }
        ensures { self.new ≡ record self.old { left = drop size self.old.left } }
    {
        if let Some(file) = &mut self.current {
            file.left -= size;
        }
    }
}

/// The index of the first file of this name.
fn first_named(files: &[MemFile], name: &str) -> Option<usize>
    ensures within { IfSome result (λ index. index < length files.now) }
    ensures named { file_named files.now name.now
        ≡ option_map (λ index. bytes_at files.now index) result }
{
    files.iter().position(|file| file.name.as_str() == name)
}

impl Inputs for MemInputs {
    ghost use Rattle.std.specs.Prelude.{◌≡◌, ◌≤◌, ◌++◌, [], ◌&&◌, refl, Some, not, take, drop, length, unwrap_or, is_ok, is_some, if◌then◌else◌, IfOk, OnErr, MatchResult};
    ghost use Rattle.simit_io.specs.Inputs.{raised};
    ghost use Rattle.simit_io.specs.Plan.{is_planned};
    ghost use Rattle.simit_io.specs.MemInputs.{IsSameSetting, file_named, taken_of};

    ghost holds = { λ m. Some (file_named m.files) };

    ghost left = { λ m. Some m.left };

    ghost faults = { λ m. m.faults };

    ghost known_left = { λ _ _. refl };

    fn open(&mut self, name: &str) -> Result<(), Failed>
        ensures setting { IsSameSetting self.old self.new }
        ensures calls { self.new.calls ≡ raised self.old.calls }
        ensures answer { is_ok result ≡ (not (is_planned self.old.fail self.old.calls)
            && is_some (file_named self.old.files name.now)) }
        ensures left { self.new.left
            ≡ (if is_ok result then unwrap_or (file_named self.old.files name.now) [] else []) }
        ensures faults { self.new.faults
            ≡ (if is_planned self.old.fail self.old.calls then raised self.old.faults else self.old.faults) }
        ensures counted { self.old.faults ≤ self.new.faults }
    {
        self.current = None;
        self.plan.begin_call()?;
        let files = self.files.items();
        let Some(index) = first_named(files, name) else {
            return Err(Failed);
        };
        let left = files[index].bytes.items().len();
        self.current = Some(OpenFile { index, left });
        Ok(())
    }

    fn take(&mut self, buf: &mut [u8]) -> Result<usize, Failed>
        ensures setting { IsSameSetting self.old self.new }
        ensures calls { self.new.calls ≡ raised self.old.calls }
        ensures answer { is_ok result ≡ not (is_planned self.old.fail self.old.calls) }
        ensures size { IfOk result (λ size. size ≡ taken_of self.old (length buf.old)) }
        ensures bytes { IfOk result (λ size. buf.new ≡ take size self.old.left ++ drop size buf.old) }
        ensures left { MatchResult result (λ size. self.new.left ≡ drop size self.old.left)
            (λ _. self.new.left ≡ self.old.left) }
        ensures err { OnErr result (buf.new ≡ buf.old) }
        ensures faults { self.new.faults
            ≡ (if is_planned self.old.fail self.old.calls then raised self.old.faults else self.old.faults) }
        ensures most { 1 ≤ self.old.most }
        ensures counted { self.old.faults ≤ self.new.faults }
    {
        self.plan.begin_call()?;
        let left = self.unread();
        let size = buf.len().min(self.most).min(left.len());
        buf[..size].copy_from_slice(&left[..size]);
        self.skip(size);
        Ok(size)
    }
}
