//! The lines of a file.

ghost use Rattle.std.specs.Prelude.{◌≡◌, ◌∷◌, ◌<◌, ◌≤◌, length};
ghost use Rattle.std.specs.List.{prefix_len};
ghost use Rattle.lsl_lines.specs.Lines.{lines_of};
ghost use Rattle.lsl_lines.specs.Reads.{is_in_line, without_return};

/// The first line of a text that isn't empty, and what follows it.
pub fn first_line(text: &[u8]) -> (&[u8], &[u8])
    requires { 0 < length text.now }
    ensures lines { lines_of text.now ≡ result.0.now ∷ lines_of result.1.now }
    ensures shorter { length result.1.now < length text.now }
{
    let end = line_length(text);
    if end == text.len() {
        return (text, &text[end..]);
    }
    (without_return(&text[..end]), &text[end + 1..])
}

// The number of bytes before the first line feed.
fn line_length(text: &[u8]) -> usize
    ensures count { result ≡ prefix_len is_in_line text.now }
    ensures within { result ≤ length text.now }
{
    let mut n = 0;
    let mut rest = text;
    'bytes: while let [b, more @ ..] = rest {
        if *b == b'\n' {
            break;
        }
        n += 1;
        rest = more;
    }
    n
}

// The line without the carriage return at its end.
fn without_return(line: &[u8]) -> &[u8]
    ensures { result.now ≡ without_return line.now }
{
    let size = line.len();
    if size > 0 && line[size - 1] == b'\r' {
        return &line[..size - 1];
    }
    line
}
