//! Words and the commands that they state, told in one line each.
use crate::argument::arguments;
use crate::judging::judged;
use crate::layout::laid_out;
use crate::{Words, WordsFault, read};
use std::alloc::Global;
use std::process::Abort;
use std::test::Fail;
use vocabulary::Text;

const REFUSED: &str = "refused";

/// Words of `run`, and the command.
static RUNS: [(&[&str], &str); 18] = [
    (
        &["run", "a.sim"],
        "run a.sim with 4 workers, 100000 turns, 16777216 words",
    ),
    (
        &["run", "a.sim", "p", "s"],
        "run a.sim p s with 4 workers, 100000 turns, 16777216 words",
    ),
    (
        &["run", "--workers", "64", "a.sim"],
        "run a.sim with 64 workers, 100000 turns, 16777216 words",
    ),
    (
        &["run", "a.sim", "--workers=1", "p"],
        "run a.sim p with 1 workers, 100000 turns, 16777216 words",
    ),
    (
        &["run", "a.sim", "--turns", "0"],
        "run a.sim with 4 workers, 0 turns, 16777216 words",
    ),
    (
        &["run", "a.sim", "--turns=1048576"],
        "run a.sim with 4 workers, 1048576 turns, 16777216 words",
    ),
    (
        &["run", "a.sim", "--words=0"],
        "run a.sim with 4 workers, 100000 turns, 0 words",
    ),
    (
        &["run", "a.sim", "--words", "0000000013"],
        "run a.sim with 4 workers, 100000 turns, 13 words",
    ),
    (
        &["run", "a.sim", "--only", "springs"],
        "run a.sim with 4 workers, 100000 turns, 16777216 words, only springs",
    ),
    (
        &["run", "a.sim", "--only=-x=y"],
        "run a.sim with 4 workers, 100000 turns, 16777216 words, only -x=y",
    ),
    (
        &["run", "a.sim", "--only", "-"],
        "run a.sim with 4 workers, 100000 turns, 16777216 words, only -",
    ),
    (
        &["run", "-"],
        "run - with 4 workers, 100000 turns, 16777216 words",
    ),
    (
        &["run", "--", "-a", "--", "--turns"],
        "run -a -- --turns with 4 workers, 100000 turns, 16777216 words",
    ),
    (
        &["run", "a.sim", "--", "--workers=2"],
        "run a.sim --workers=2 with 4 workers, 100000 turns, 16777216 words",
    ),
    (
        &["run", "a.sim", "--only=--x"],
        "run a.sim with 4 workers, 100000 turns, 16777216 words, only --x",
    ),
    (
        &["run", "--turns=0001048576", "a.sim", "-"],
        "run a.sim - with 4 workers, 1048576 turns, 16777216 words",
    ),
    (
        &["run", "--", "--", "-", "-5"],
        "run -- - -5 with 4 workers, 100000 turns, 16777216 words",
    ),
    (
        &[
            "run",
            "p",
            "--only",
            "s",
            "--words=3",
            "q",
            "--turns",
            "1",
            "--workers=2",
        ],
        "run p q with 2 workers, 1 turns, 3 words, only s",
    ),
];

/// Words of the other commands, and the command.
static OTHERS: [(&[&str], &str); 9] = [
    (&["plan", "a.sim", "p"], "plan a.sim p with 16777216 words"),
    (&["plan", "--words=5", "a.sim"], "plan a.sim with 5 words"),
    (&["plain", "a.sim", "p"], "plain a.sim p with 100000 turns"),
    (
        &["plain", "--turns=7", "a.sim", "--only=p"],
        "plain a.sim with 7 turns, only p",
    ),
    (&["make", "7", "3"], "make 7 3 with 4 workers"),
    (
        &["make", "4294967295", "524288", "--workers", "16"],
        "make 4294967295 524288 with 16 workers",
    ),
    (&["make", "0", "--", "1"], "make 0 1 with 4 workers"),
    (
        &["plain", "--only", "-", "--", "--only", "-"],
        "plain --only - with 100000 turns, only -",
    ),
    (
        &["make", "--workers=64", "0000000007", "0000000001"],
        "make 7 1 with 64 workers",
    ),
];

/// Words that are no command, or lack or have too many words: refused.
static REFUSED_COMMANDS: [&[&str]; 15] = [
    &[],
    &[""],
    &["run"],
    &["Run", "a.sim"],
    &["run", "a.sim", ""],
    &["make", "7"],
    &["make", "7", "3", "1"],
    &["make", "4294967296", "1"],
    &["make", "7", "0"],
    &["make", "7", "524289"],
    &["plan"],
    &["", "a.sim"],
    &["make", "00000000007", "3"],
    &["make", "7", "x"],
    &["make"],
];

/// Words of `run` with an option that has no number, or is given twice: refused.
static REFUSED_NUMBERS: [&[&str]; 23] = [
    &["run", "a.sim", "--workers", "0"],
    &["run", "a.sim", "--workers=65"],
    &["run", "a.sim", "--turns", "5", "--turns", "6"],
    &["run", "a.sim", "--turns=5", "--turns=5"],
    &["run", "a.sim", "--turns", "1048577"],
    &["run", "a.sim", "--words=16777217"],
    &["run", "a.sim", "--words=00000000001"],
    &["run", "a.sim", "--words=+1"],
    &["run", "a.sim", "--words= 1"],
    &["run", "a.sim", "--words=1.0"],
    &["run", "a.sim", "--words="],
    &["run", "a.sim", "--words"],
    &["run", "a.sim", "--words", ""],
    &["run", "a.sim", "--words", "-1"],
    &["run", "a.sim", "--turns="],
    &["run", "a.sim", "--turns", "-5"],
    &["run", "a.sim", "--turns=-5"],
    &["run", "a.sim", "--turns", "-"],
    &["run", "a.sim", "--turns", "--", "5"],
    &["run", "a.sim", "--turns", "5", "--turns=6"],
    &["run", "a.sim", "--turns", "--turns", "5"],
    &["run", "a.sim", "--workers=00000000004"],
    &["run", "a.sim", "--turns=00000100000"],
];

/// Words with an option that the command hasn't, that isn't there, or whose value isn't: refused.
static REFUSED_OPTIONS: [&[&str]; 26] = [
    &["--", "run", "a.sim"],
    &["run", "--"],
    &["run", "a.sim", "--only", "--"],
    &["run", "a.sim", "--only", "-x"],
    &["run", "a.sim", "-w"],
    &["run", "a.sim", "--worker=1"],
    &["run", "a.sim", "--Workers=1"],
    &["run", "a.sim", "--=1"],
    &["run", "a.sim", "--help"],
    &["run", "a.sim", "--", ""],
    &["plan", "a.sim", "--workers=4"],
    &["plan", "a.sim", "--only=p"],
    &["plain", "a.sim", "--words=1"],
    &["--turns=5", "run", "a.sim"],
    &["plain", "--"],
    &["run", "a.sim", "--only", "--x"],
    &["run", "a.sim", "--only", "p", "--only", "p"],
    &["run", "a.sim", "--turns5"],
    &["run", "a.sim", "---"],
    &["plan", "a.sim", "--turns=4"],
    &["plain", "a.sim", "--workers=4"],
    &["make", "7", "3", "--turns=4"],
    &["make", "7", "3", "--words=4"],
    &["make", "7", "3", "--only=p"],
    &["make", "7", "3", "--", "1"],
    &["make", "--", "-7", "3"],
];

/// Words, and the one form of them.
static FORMS: [(&[&str], &str); 6] = [
    (&["run", "a.sim"], "run -- a.sim"),
    (
        &["run", "--turns", "5", "a.sim", "--workers=2", "p"],
        "run --turns=5 --workers=2 -- a.sim p",
    ),
    (
        &["run", "--workers=2", "a.sim", "--turns", "5", "p"],
        "run --workers=2 --turns=5 -- a.sim p",
    ),
    (
        &["plain", "--only=-x=y", "--", "--", "-"],
        "plain --only=-x=y -- -- -",
    ),
    (
        &["plan", "a.sim", "--words", "007"],
        "plan --words=007 -- a.sim",
    ),
    (
        &["make", "7", "--workers", "3", "1"],
        "make --workers=3 -- 7 1",
    ),
];

/// A word and the words after it.
fn names(alloc: Global, first: &Text, others: &[Text]) -> Result<String, Fail> {
    let mut line = String::from_str(alloc, first.as_str())?;
    for other in others {
        line.push(' ')?;
        line.push_str(other.as_str())?;
    }
    Ok(line)
}

/// The end of a line where one set is put out.
fn only_set(alloc: Global, only: &Option<Text>) -> Result<String, Fail> {
    match only {
        Some(set) => Ok(format!(in alloc; ", only {}", set.as_str())?),
        None => Ok(String::new(alloc)),
    }
}

/// The command in one line.
fn line(alloc: Global, words: Words) -> Result<String, Fail> {
    match words {
        Words::Run {
            program,
            sets,
            workers,
            turns,
            words,
            only,
        } => {
            let files = names(alloc, &program, sets.items())?;
            let only = only_set(alloc, &only)?;
            Ok(format!(in alloc;
                "run {files} with {workers} workers, {turns} turns, {words} words{only}"
            )?)
        }
        Words::Plan {
            program,
            sets,
            words,
        } => {
            let files = names(alloc, &program, sets.items())?;
            Ok(format!(in alloc; "plan {files} with {words} words")?)
        }
        Words::Plain {
            program,
            sets,
            turns,
            only,
        } => {
            let files = names(alloc, &program, sets.items())?;
            let only = only_set(alloc, &only)?;
            Ok(format!(in alloc; "plain {files} with {turns} turns{only}")?)
        }
        Words::Make { seed, n, workers } => {
            Ok(format!(in alloc; "make {seed} {n} with {workers} workers")?)
        }
    }
}

/// The words as strings.
fn strings(alloc: Global, words: &[&str]) -> Result<Vec<String>, Fail> {
    let mut strings = Vec::new(alloc);
    for word in words {
        strings.push(String::from_str(alloc, word)?)?;
    }
    Ok(strings)
}

/// The command that the words state, in one line.
fn read_line(alloc: Global, words: &[&str]) -> Result<String, Fail> {
    let strings = strings(alloc, words)?;
    match read(alloc, &strings) {
        Ok(words) => line(alloc, words),
        Err(WordsFault::Refused) => Ok(String::from_str(alloc, REFUSED)?),
        Err(WordsFault::Memory) => Ok(String::from_str(alloc, "out of memory")?),
    }
}

/// The words of a form in one line.
fn joined(alloc: Global, words: &[String]) -> Result<String, Fail> {
    let mut line = String::new(alloc);
    for word in words {
        if !line.is_empty() {
            line.push(' ')?;
        }
        line.push_str(word.as_str())?;
    }
    Ok(line)
}

/// The form that `clap` reads of the words.
fn form_line(alloc: Global, word: &str, words: &[&str]) -> Result<String, Fail> {
    let words = strings(alloc, words)?;
    match arguments(alloc, &words) {
        Ok(given) => match judged(word, &given) {
            Ok(verb) => joined(alloc, &laid_out(alloc, verb, &given)?),
            Err(_) => Ok(String::from_str(alloc, REFUSED)?),
        },
        Err(_) => Ok(String::from_str(alloc, REFUSED)?),
    }
}

/// Each line's words state its command.
fn assert_commands(rt: &(impl Abort + AllocGlobal), lines: &[(&[&str], &str)]) -> Result<(), Fail> {
    for (words, want) in lines {
        let found = read_line(rt.alloc(), words)?;
        assert_eq!(rt; found.as_str(), *want);
    }
    Ok(())
}

/// Each line's words are refused.
fn assert_refused(rt: &(impl Abort + AllocGlobal), lines: &[&[&str]]) -> Result<(), Fail> {
    for words in lines {
        let found = read_line(rt.alloc(), words)?;
        assert_eq!(rt; found.as_str(), REFUSED);
    }
    Ok(())
}

#[test]
fn words_state_commands(rt: HostRuntime) -> Result<(), Fail> {
    assert_commands(&rt, &RUNS)?;
    assert_commands(&rt, &OTHERS)
}

#[test]
fn words_that_are_no_command(rt: HostRuntime) -> Result<(), Fail> {
    assert_refused(&rt, &REFUSED_COMMANDS)
}

#[test]
fn numbers_out_of_range(rt: HostRuntime) -> Result<(), Fail> {
    assert_refused(&rt, &REFUSED_NUMBERS)
}

#[test]
fn options_of_other_commands(rt: HostRuntime) -> Result<(), Fail> {
    assert_refused(&rt, &REFUSED_OPTIONS)
}

#[test]
fn words_have_one_form(rt: HostRuntime) -> Result<(), Fail> {
    for (words, want) in &FORMS {
        if let [word, words @ ..] = *words {
            let found = form_line(rt.alloc(), word, words)?;
            assert_eq!(rt; found.as_str(), *want);
        }
    }
    Ok(())
}
