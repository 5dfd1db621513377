//! The parts of a case.

/// A case, in parts of its text.
#[derive(Clone, Copy)]
pub struct Case<'a> {
    pub name: &'a str,
    /// The words of its command, with blanks between, and what fails meanwhile.
    pub command: &'a str,
    /// Its files: the name of each, and the lines of its bytes. All but the first follow `@ `.
    pub files: &'a str,
    /// The status that it must end with.
    pub status: &'a str,
    /// The lines of the bytes that it must write.
    pub lines: &'a str,
}

/// How the command of a case ended: its status, and the bytes that it wrote.
#[derive(Drop)]
pub struct Ending {
    pub status: String,
    pub written: Vec<u8>,
}

/// The case that a text is: remarks after `#`, its name after `?`, its command after `>`, each of its files after `@`,
/// and its end after `=`. Nothing if the text isn't of this form.
pub fn case_of(text: &str) -> Option<Case<'_>> {
    let (name, rest) = behind_remarks(text)?.split_once("\n>")?;
    let (asked, want) = rest.split_once("\n= ")?;
    let (command, files) = asked.split_once("\n@ ").unwrap_or((asked, ""));
    let (status, lines) = want.split_once('\n').unwrap_or((want, ""));
    if name.contains('\n') || command.contains('\n') {
        return None;
    }
    Some(Case {
        name,
        command: command.trim_start(),
        files,
        status,
        lines,
    })
}

/// What follows the remarks and the sign of the name.
fn behind_remarks(text: &str) -> Option<&str> {
    if text.starts_with("? ") {
        return text.strip_prefix("? ");
    }
    let (remarks, rest) = text.split_once("\n? ")?;
    if are_remarks(remarks) {
        Some(rest)
    } else {
        None
    }
}

fn are_remarks(lines: &str) -> bool {
    for line in lines.split('\n') {
        if !line.starts_with('#') {
            return false;
        }
    }
    true
}
