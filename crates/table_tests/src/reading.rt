//! Whole files read over memory.
use simit_io::{MemFile, MemInputs, ReadAll, read_all};
use std::alloc::{AllocError, Global};
use std::test::Fail;
use vocabulary::{L, Text};

/// Two files of one name and an empty one.
fn files(alloc: Global) -> Result<L<MemFile>, AllocError> {
    let mut files = Vec::new(alloc);
    for (name, bytes) in [("ten", "0123456789"), ("ten", "other"), ("empty", "")] {
        let name = Text::of(String::from_str(alloc, name)?);
        let bytes = L::of(bytes.as_bytes().to_vec(alloc)?);
        files.push(MemFile { name, bytes })?;
    }
    Ok(L::of(files))
}

/// A file's name, a limit, and what is read: its bytes, or why they aren't.
static READ: [(&str, u32, Result<&str, ReadAll>); 7] = [
    ("ten", 20, Ok("0123456789")),
    ("ten", 10, Ok("0123456789")),
    ("ten", 9, Err(ReadAll::TooLong)),
    ("ten", 0, Err(ReadAll::TooLong)),
    ("empty", 0, Ok("")),
    ("empty", 5, Ok("")),
    ("none", 20, Err(ReadAll::Failed)),
];

#[test]
fn whole_files_are_read(rt: HostRuntime) -> Result<(), Fail> {
    let alloc = rt.alloc();
    for (name, limit, want) in &READ {
        let mut inputs = MemInputs::new(files(alloc)?, L::empty(alloc), 3);
        match (read_all(alloc, &mut inputs, name, *limit), want) {
            (Ok(bytes), Ok(want)) => assert_eq!(rt; bytes.as_slice(), want.as_bytes()),
            (Err(fault), Err(want)) => assert_eq!(rt; fault, *want),
            _ => panic!(rt; "{name} within {limit}"),
        }
        assert_eq!(rt; inputs.fault_count(), 0);
    }
    Ok(())
}
