//! Commands over memory: the status, what is written, and what is said of it.

use crate::words::start;
use lsl_ports::{MemoryShelf, MemorySink, StoredFile};
use std::alloc::{AllocError, Global};
use std::io;
use std::io::ErrorKind;
use std::process::ExitCode;
use std::test::Fail;

const LITERAL: &[u8] = b"default{state_entry(){llOwnerSay(\"hi\");}}";

const REPORT: &[u8] = b"took 1 state_entry\nowner 1 \"hi\"\ndone 1 1024\nhome 1 \"here\"\n";

/// What a command is given: its words after the program's name, the text of the file `s.lsl`, and the capacity in bytes
/// of standard output and the notes.
#[derive(Clone, Copy)]
struct Case<'a> {
    words: &'a [&'a str],
    file: &'a [u8],
    room: usize,
    notes: usize,
}

impl<'a> Case<'a> {
    fn of(words: &'a [&'a str], file: &'a [u8]) -> Case<'a> {
        Case {
            words,
            file,
            room: 1000,
            notes: 1000,
        }
    }

    fn ended(self, alloc: Global) -> Result<Told, AllocError> {
        let mut line = Vec::new(alloc);
        line.push(String::from_str(alloc, "lsl")?)?;
        for word in self.words {
            line.push(String::from_str(alloc, *word)?)?;
        }
        let mut files = Vec::new(alloc);
        files.push(StoredFile::new(alloc, "s.lsl", self.file)?)?;
        let mut shelf = MemoryShelf::new(alloc, files, Vec::new(alloc))?;
        let mut sink = MemorySink::new(alloc, self.room, Vec::new(alloc))?;
        let mut notes = MemorySink::new(alloc, self.notes, Vec::new(alloc))?;
        let code = start(alloc, Ok(line), &mut shelf, &mut sink, &mut notes);
        Ok(Told { code, sink, notes })
    }
}

/// The process's status, standard output and standard error.
#[derive(Drop)]
struct Told {
    code: ExitCode,
    sink: MemorySink,
    notes: MemorySink,
}

#[test]
fn each_status_is_said(rt: HostRuntime) -> Result<(), Fail> {
    let literal = Case::of(&["once", "s.lsl"], LITERAL);
    for (case, code, written, said) in [
        (literal, 0, REPORT, ""),
        (
            Case::of(&["replay"], LITERAL),
            1,
            b"".as_slice(),
            "usage: lsl once FILE | check FILE | replay [--lossy] WORLD | freeze WORLD | thaw FROZEN WORLD \
                | view FROZEN WORLD | make NUMBER\n",
        ),
        (
            Case::of(&["once", "-x"], LITERAL),
            1,
            b"".as_slice(),
            "usage: lsl once FILE | check FILE | replay [--lossy] WORLD | freeze WORLD | thaw FROZEN WORLD \
                | view FROZEN WORLD | make NUMBER\n",
        ),
        (
            Case::of(&["replay", "s.lsl"], b"begin\n"),
            2,
            b"bad world \"s.lsl\" line 2 fault 52\n".as_slice(),
            "\"s.lsl\": not in the form of a world file; standard output has the fault (lsl: status 2)\n",
        ),
        (
            Case::of(&["check", "s.lsl"], b""),
            3,
            b"bad script \"s.lsl\" 1:1 fault 11\n".as_slice(),
            "\"s.lsl\": a script isn't accepted; standard output has the fault, tools/explain says it in words (lsl: \
                status 3)\n",
        ),
        (
            Case::of(&["once", "a\nb"], LITERAL),
            4,
            b"".as_slice(),
            "\"a\\nb\": it, or a file that is named in it or beside it, can't be read (lsl: status 4)\n",
        ),
        (
            Case::of(&["thaw", "s.lsl", "s.lsl"], b"begin\nend\n"),
            6,
            b"bad image \"s.lsl\" fault 45\n".as_slice(),
            "\"s.lsl\": not a frozen form of that world; standard output has the fault (lsl: status 6)\n",
        ),
        (
            Case { room: 7, ..literal },
            5,
            b"took 1 ".as_slice(),
            "\"s.lsl\": standard output took no more, and is cut short (lsl: status 5)\n",
        ),
        (
            Case {
                room: 7,
                ..Case::of(&["make", "1"], b"")
            },
            5,
            b"made 1 ".as_slice(),
            "standard output took no more, and is cut short (lsl: status 5)\n",
        ),
    ] {
        let told = case.ended(rt.alloc())?;
        assert_eq!(rt; told.code, ExitCode::from(code));
        assert_eq!(rt; told.sink.as_bytes(), written);
        assert_eq!(rt; told.notes.as_bytes(), said.as_bytes());
    }
    Ok(())
}

#[test]
fn notes_that_fail_change_no_status(rt: HostRuntime) -> Result<(), Fail> {
    let case = Case {
        notes: 7,
        ..Case::of(&["once", "s.lsl"], b"")
    };
    let told = case.ended(rt.alloc())?;
    assert_eq!(rt; told.code, ExitCode::from(3));
    assert_eq!(rt; told.notes.as_bytes(), b"\"s.lsl\"".as_slice());
    Ok(())
}

#[test]
fn words_that_are_not_given(rt: HostRuntime) -> Result<(), Fail> {
    let alloc = rt.alloc();
    for (kind, code, said) in [
        (
            ErrorKind::OutOfMemory,
            7,
            "there isn't memory enough (lsl: status 7)\n",
        ),
        (
            ErrorKind::InvalidData,
            9,
            "the command's words can't be read: one isn't UTF-8 (lsl: status 9)\n",
        ),
    ] {
        let mut shelf = MemoryShelf::new(alloc, Vec::new(alloc), Vec::new(alloc))?;
        let mut sink = MemorySink::new(alloc, 1000, Vec::new(alloc))?;
        let mut notes = MemorySink::new(alloc, 1000, Vec::new(alloc))?;
        let line = Err(io::Error::from(kind));
        let ended = start(alloc, line, &mut shelf, &mut sink, &mut notes);
        assert_eq!(rt; ended, ExitCode::from(code));
        assert_eq!(rt; sink.as_bytes(), b"".as_slice());
        assert_eq!(rt; notes.as_bytes(), said.as_bytes());
    }
    Ok(())
}
