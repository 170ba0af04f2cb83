//! `simit`: the runner over the real files and streams.
#![tactic(auto)]

use main_hosts::main_hosts;
use simit_io::{Files, Stream, put_all};
use simit_run::{Status, run};
use std::alloc::AllocError;
use std::env;
use std::env::Env;
use std::process::ExitCode;
use std::thread::Builder;

/// The bytes of the stack on which a call runs. A product of matrices over indices is taken factor by factor, one call
/// inside the other, and a text has room for some 9,300 factors. They were seen to need 32 MiB.
const STACK_BYTES: usize = 128 << 20;

/// The words after the program's own name. Where one of them is no text there are none, which is no command.
fn words_of(rt: &(impl Env + AllocGlobal)) -> Result<Vec<String>, AllocError> {
    match env::args(rt) {
        Ok(args) => args.skip(1).collect(rt.alloc()),
        Err(error) if error.kind() == std::io::ErrorKind::OutOfMemory => Err(AllocError),
        Err(_) => Ok(Vec::new(rt.alloc())),
    }
}

fn main(rt: HostRuntime) -> ExitCode {
    let call = move || -> Status {
        let mut inputs = Files::new(&rt);
        let mut out = Stream::output(rt.stdout());
        let mut notes = Stream::error(rt.stderr());
        let Ok(words) = words_of(&rt) else {
            let _ = put_all(&mut notes, b"no memory\n");
            return Status::Memory;
        };
        let Ok(hosts) = main_hosts(rt.alloc()) else {
            let _ = put_all(&mut notes, b"no memory\n");
            return Status::Memory;
        };
        run(
            rt.alloc(),
            &words,
            &mut inputs,
            &mut out,
            &mut notes,
            &hosts,
        )
    };
    let status = match Builder::new().stack_size(STACK_BYTES).spawn(&rt, call) {
        Ok(thread) => thread.join(&rt),
        Err(_) => {
            let _ = put_all(&mut Stream::error(rt.stderr()), b"no memory\n");
            Status::Memory
        }
    };
    ExitCode::from(status.number())
}
