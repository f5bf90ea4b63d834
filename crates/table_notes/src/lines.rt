//! The lines of a text, as an editor shows them.

ghost use Rattle.std.specs.Prelude.{◌≡◌, ◌≤◌, length};
ghost use Rattle.std.specs.List.{list_any, prefix_len};
ghost use Rattle.table_notes.specs.Notes.{ends_line as ends_line_of, first_line as first_line_of, from_first_line as from_first_line_of, has_more_lines as has_more_lines_of, in_line};

/// Whether a byte is a line feed or a carriage return.
fn ends_line(byte: u8) -> bool
    ensures { result ≡ ends_line_of byte }
{
    byte == b'\n' || byte == b'\r'
}

/// Whether a byte is neither.
fn is_in_line(byte: u8) -> bool
    ensures { result ≡ in_line byte }
{
    !ends_line(byte)
}

/// How many ends of lines a text begins with.
fn ends_before(text: &[u8]) -> usize
    ensures value { result ≡ prefix_len ends_line_of text.now }
    ensures within { result ≤ length text.now }
{
    text.iter().take_while(|byte| ends_line(**byte)).count()
}

/// How many bytes stand before the first end of a line.
fn length_of_line(text: &[u8]) -> usize
    ensures value { result ≡ prefix_len in_line text.now }
    ensures within { result ≤ length text.now }
{
    text.iter().take_while(|byte| is_in_line(**byte)).count()
}

/// A text from its first line on that is not empty.
fn from_first_line(text: &[u8]) -> &[u8]
    ensures { result.now ≡ from_first_line_of text.now }
{
    &text[ends_before(text)..]
}

/// Whether a byte of a text is in a line.
fn has_line(text: &[u8]) -> bool
    ensures { result ≡ list_any in_line text.now }
{
    text.iter().any(|byte| is_in_line(*byte))
}

/// The first line of a text that is not empty, without its end.
pub fn first_line(text: &[u8]) -> &[u8]
    ensures { result.now ≡ first_line_of text.now }
{
    let text = from_first_line(text);
    &text[..length_of_line(text)]
}

/// Whether a text has more lines than one that are not empty.
pub fn has_more_lines(text: &[u8]) -> bool
    ensures { result ≡ has_more_lines_of text.now }
{
    let text = from_first_line(text);
    has_line(&text[length_of_line(text)..])
}
