// What all lines of lists have in common: no blanks at their ends, words between blanks, and lines that are passed over.
ghost use Rattle.std.specs.Prelude.{◌≡◌, ◌≤◌, ◌↔◌, length, IsTrue};
ghost use Rattle.std.specs.List.{prefix_len, suffix_len};
ghost use Rattle.list_lines.specs.Lines.{is_blank, without_blanks_before, without_blanks_behind, trimmed, word_len, IsPassedOver};

fn is_blank(c: u8) -> bool
    ensures { result ≡ is_blank c }
{
    c == b'\t' || c == b' '
}

fn blanks_before(text: &[u8]) -> usize
    ensures value { result ≡ prefix_len is_blank text.now }
    ensures within { result ≤ length text.now }
{
    text.iter().take_while(|c| is_blank(**c)).count()
}

fn blanks_behind(text: &[u8]) -> usize
    ensures value { result ≡ suffix_len is_blank text.now }
    ensures within { result ≤ length text.now }
{
    text.iter().rev().take_while(|c| is_blank(**c)).count()
}

/// The text from the first byte on that is no blank.
pub fn without_blanks_before(text: &[u8]) -> &[u8]
    ensures { result.now ≡ without_blanks_before text.now }
{
    &text[blanks_before(text)..]
}

fn without_blanks_behind(text: &[u8]) -> &[u8]
    ensures { result.now ≡ without_blanks_behind text.now }
{
    &text[..text.len() - blanks_behind(text)]
}

/// The text without the blanks at both ends.
pub fn trimmed(text: &[u8]) -> &[u8]
    ensures { result.now ≡ trimmed text.now }
{
    without_blanks_behind(without_blanks_before(text))
}

/// How many bytes stand before the first blank.
pub fn word_len(line: &[u8]) -> usize
    ensures value { result ≡ word_len line.now }
    ensures within { result ≤ length line.now }
{
    line.iter().take_while(|c| !is_blank(**c)).count()
}

/// Whether the line gives nothing: it is empty, or it begins with a percent sign.
pub fn is_passed_over(line: &[u8]) -> bool
    ensures { IsTrue result ↔ IsPassedOver line.now }
{
    line.is_empty() || line[0] == b'%'
}
