use crate::plan::raise;
use crate::{Failed, Inputs};
use std::fs::File;
use std::io::Read;
use std::marker::Model;
use std::rt;

/// The files of the runtime. Their bytes are unknown. Every error counts as a fault, a missing file's too;
/// the count is what contracts see.
#[derive(Drop)]
pub struct Files<'a, R: rt::Files> {
    runtime: &'a R,
    file: Option<R::File>,
    fault_count: u64,
}

impl<'a, R: rt::Files> Model for Files<'a, R> {
    ghost use Rattle.std.specs.Prelude.{ℕ};

    ghost Value = { ℕ };

    ghost view = { λ f. f.fault_count };
}

impl<'a, R: rt::Files> Files<'a, R> {
    ghost use Rattle.std.specs.Prelude.{◌≡◌};

    /// Inputs over the runtime's files, of which none is open.
    pub fn new(runtime: &'a R) -> Files<'a, R>
        ensures { result ≡ 0 }
    {
        Files {
            runtime,
            file: None,
            fault_count: 0,
        }
    }
}

impl<R: rt::Files> Inputs for Files<'_, R> {
    ghost use Rattle.std.specs.Prelude.{◌≤◌, None};
    ghost use Rattle.std.specs.Io.{ReadsAtMost};
    ghost use Rattle.simit_io.specs.Inputs.{CountsFailure};

    ghost holds = { λ _. None };

    ghost left = { λ _. None };

    ghost faults = { λ count. count };

    ghost known_left = { λ _ known. known };

    fn open(&mut self, name: &str) -> Result<(), Failed>
        ensures faults { CountsFailure result self.old self.new }
        ensures counted { self.old ≤ self.new }
    {
        self.file = None;
        match File::open(self.runtime, name) {
            Ok(file) => {
                self.file = Some(file);
                Ok(())
            }
            Err(_) => {
                raise(&mut self.fault_count);
                Err(Failed)
            }
        }
    }

    fn take(&mut self, buf: &mut [u8]) -> Result<usize, Failed>
        ensures bound { ReadsAtMost result buf.new }
        ensures faults { CountsFailure result self.old self.new }
        ensures counted { self.old ≤ self.new }
    {
        let Some(file) = &mut self.file else {
            return Ok(0);
        };
        match file.read(buf) {
            Ok(size) => Ok(size),
            Err(_) => {
                raise(&mut self.fault_count);
                Err(Failed)
            }
        }
    }
}

#[cfg(test)]
mod tests {
    use super::*;
    use crate::{ReadAll, read_all};
    use std::test::Fail;
    use std::{env, fs, process};

    #[test]
    fn real_files_are_read(rt: HostRuntime) -> Result<(), Fail> {
        let alloc = rt.alloc();
        let folder = env::temp_dir(&rt)?;
        let name = format!(in alloc; "simit_io-{}", process::id(rt.process()))?;
        let path = folder.join(alloc, name.as_str())?;

        // Several chunks, the last one short.
        let written: Vec<u8> = (0..250_001u32).map(|k| (k % 251) as u8).collect(alloc)?;
        fs::write(&rt, path.as_str(), written.as_slice())?;
        let mut inputs = Files::new(&rt);
        let bytes = read_all(alloc, &mut inputs, path.as_str(), 250_001)?;
        assert!(rt; bytes.as_slice() == written.as_slice());
        let longer = read_all(alloc, &mut inputs, path.as_str(), 250_000);
        assert_eq!(rt; longer.err(), Some(ReadAll::TooLong));
        assert_eq!(rt; inputs.fault_count, 0);

        fs::remove_file(&rt, path.as_str())?;
        let missing = read_all(alloc, &mut inputs, path.as_str(), 10);
        assert_eq!(rt; missing.err(), Some(ReadAll::Failed));
        assert_eq!(rt; inputs.fault_count, 1);
        let directory = read_all(alloc, &mut inputs, folder.as_str(), 10);
        assert_eq!(rt; directory.err(), Some(ReadAll::Failed));
        assert_eq!(rt; inputs.fault_count, 2);
        Ok(())
    }
}
