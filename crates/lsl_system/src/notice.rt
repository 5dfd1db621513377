//! What is printed on standard error when a command doesn't end well. Takes no memory.

ghost use Rattle.std.specs.Prelude.{◌≡◌, ◌≤◌, ◌⊎◌, [], Some, OnErr, OnOk, option_map, if◌then◌else◌};
ghost use Rattle.std.specs.List.{flat_map};
ghost use Rattle.lsl_text.specs.Quoted.{escaped, quoted};
ghost use Rattle.lsl_ports.specs.Counts.{Rose};
ghost use Rattle.lsl_ports.specs.Growth.{Grew};
ghost use Rattle.lsl_top.specs.declared.status.Status.TheVariants.{NoMemory};
ghost use Rattle.lsl_system.specs.Notice.{IsTold, meaning_of, no_words, notice_of};

use lsl_ports::{Failed, Sink, write_all};
use lsl_top::Status;

/// What a status means, as a line. A command that ended well has none.
fn meaning<'a>(usage: &'a str, status: Status) -> &'a str
    ensures { result.now ≡ meaning_of usage.now status }
{
    match status {
        Status::Ok => "",
        Status::Usage => usage,
        Status::BadWorld =>
            "not in the form of a world file; standard output has the fault (lsl: status 2)\n",
        Status::BadScript =>
            "a script isn't accepted; standard output has the fault, tools/explain says it in words (lsl: status 3)\n",
        Status::ReadFault => {
            "it, or a file that is named in it or beside it, can't be read (lsl: status 4)\n"
        },
        Status::WriteFault => "standard output took no more, and is cut short (lsl: status 5)\n",
        Status::BadImage =>
            "not a frozen form of that world; standard output has the fault (lsl: status 6)\n",
        Status::NoMemory => "there isn't memory enough (lsl: status 7)\n",
        Status::BadNote => "a notecard isn't one; standard output has the fault (lsl: status 8)\n",
    }
}

fn write_escaped<N: Sink>(byte: u8, notes: &mut N) -> Result<(), Failed>
    ensures ok { OnOk result (Grew (N.sunk notes.old) (N.sunk notes.new) (escaped byte)) }
    ensures err { OnErr result (Rose (N.faults notes.old) (N.faults notes.new)) }
    ensures counted { N.faults notes.old ≤ N.faults notes.new }
{
    match byte {
        b'"' | b'\\' => write_all(notes, &[b'\\', byte]),
        b'\n' => write_all(notes, b"\\n"),
        _ => write_all(notes, &[byte]),
    }
}

fn write_body<N: Sink>(text: &[u8], notes: &mut N) -> Result<(), Failed>
    ensures ok { OnOk result (Grew (N.sunk notes.old) (N.sunk notes.new) (flat_map escaped text.now)) }
    ensures err { OnErr result (Rose (N.faults notes.old) (N.faults notes.new)) }
    ensures counted { N.faults notes.old ≤ N.faults notes.new }
{
    for byte in text {
        write_escaped(*byte, notes)?;
    }
    Ok(())
}

fn write_quoted<N: Sink>(text: &[u8], notes: &mut N) -> Result<(), Failed>
    ensures ok { OnOk result (Grew (N.sunk notes.old) (N.sunk notes.new) (quoted text.now)) }
    ensures err { OnErr result (Rose (N.faults notes.old) (N.faults notes.new)) }
    ensures counted { N.faults notes.old ≤ N.faults notes.new }
{
    write_all(notes, b"\"")?;
    write_body(text, notes)?;
    write_all(notes, b"\"")
}

/// Writes the line of a status, with the file's name in front. The name is written byte by byte: it is short, and
/// building the line first would take memory.
fn write_named<N: Sink>(
    usage: &str,
    status: Status,
    name: &str,
    notes: &mut N,
) -> Result<(), Failed>
    ensures ok { OnOk result
        (Grew (N.sunk notes.old) (N.sunk notes.new) (notice_of usage.now status (Some name.now))) }
    ensures err { OnErr result (Rose (N.faults notes.old) (N.faults notes.new)) }
{
    if status == Status::Usage {
        return write_all(notes, meaning(usage, status).as_bytes());
    }
    write_quoted(name.as_bytes(), notes)?;
    write_all(notes, b": ")?;
    write_all(notes, meaning(usage, status).as_bytes())
}

fn write_notice<N: Sink>(
    usage: &str,
    status: Status,
    file: Option<&str>,
    notes: &mut N,
) -> Result<(), Failed>
    ensures ok { OnOk result (Grew (N.sunk notes.old) (N.sunk notes.new)
        (notice_of usage.now status (option_map (λ name. name.now) file.entry))) }
    ensures err { OnErr result (Rose (N.faults notes.old) (N.faults notes.new)) }
{
    match file {
        Some(name) => write_named(usage, status, name, notes),
        None => write_all(notes, meaning(usage, status).as_bytes()),
    }
}

/// Prints how a command of a program with this usage ended, in one line, if it didn't end well.
pub fn say<N: Sink>(usage: &str, status: Status, file: Option<&str>, notes: &mut N)
    ensures told { Rose (N.faults notes.old) (N.faults notes.new)
        ⊎ IsTold usage.now status (option_map (λ name. name.now) file.entry) (N.sunk notes.old) (N.sunk notes.new) }
{
    if status == Status::Ok {
        return;
    }
    let _ = write_notice(usage, status, file, notes);
}

/// Prints why there are no words of a command: out of memory, or one isn't text.
pub fn say_no_words<N: Sink>(lacks_memory: bool, notes: &mut N)
    ensures { Rose (N.faults notes.old) (N.faults notes.new)
        ⊎ Grew (N.sunk notes.old) (N.sunk notes.new) (if lacks_memory then meaning_of [] NoMemory else no_words) }
{
    let line = if lacks_memory {
        meaning("", Status::NoMemory)
    } else {
        "the command's words can't be read: one isn't UTF-8 (lsl: status 9)\n"
    };
    let _ = write_all(notes, line.as_bytes());
}
