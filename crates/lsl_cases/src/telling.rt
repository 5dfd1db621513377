//! What is printed of a case that ends in another way than it must.

use crate::case::{Case, Ending};
use std::io;

/// Whether a case ended as it must. If it didn't, prints its name with what came and what was wanted: the status, or
/// the first line that differs.
pub fn tell<R: Print + AllocGlobal>(
    rt: &R,
    case: Case<'_>,
    ending: &Ending,
    wanted: &[u8],
) -> io::Result<bool> {
    let same_status = ending.status.as_str() == case.status;
    let same_bytes = ending.written.as_slice() == wanted;
    if !same_status {
        println!(rt;
            "{}: status {}, wanted {}",
            case.name, ending.status, case.status
        )?;
    }
    if !same_bytes {
        tell_line(rt, case.name, ending.written.as_slice(), wanted)?;
    }
    Ok(same_status && same_bytes)
}

/// Prints the first line that differs.
fn tell_line<R: Print + AllocGlobal>(
    rt: &R,
    name: &str,
    came: &[u8],
    wanted: &[u8],
) -> io::Result<()> {
    let came = String::from_utf8_lossy(rt.alloc(), came)?;
    let wanted = String::from_utf8_lossy(rt.alloc(), wanted)?;
    let (number, line, other) = first_other(came.as_str(), wanted.as_str());
    println!(rt; "{name}: line {number}\n  came:   {line}\n  wanted: {other}")
}

/// The first line that differs: its number, what came, and what was wanted.
fn first_other<'a>(came: &'a str, wanted: &'a str) -> (u64, &'a str, &'a str) {
    let mut number = 1u64;
    let mut wanted_lines = wanted.split('\n');
    for line in came.split('\n') {
        let other = wanted_lines.next().unwrap_or("");
        if line != other {
            return (number, line, other);
        }
        number = number.saturating_add(1);
    }
    (number, "nothing more", wanted_lines.next().unwrap_or(""))
}
