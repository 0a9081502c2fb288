//! Lines and columns.
ghost use Rattle.std.specs.Prelude.{◌≡◌, ◌≤◌, length, count_by};
ghost use Rattle.std.specs.List.{suffix_len};
ghost use Rattle.mj_lexer.specs.Places.{is_line_feed, is_inside_line, line_of, column_of};

fn is_line_feed(b: u8) -> bool
    ensures { result ≡ is_line_feed b }
{
    b == b'\n'
}

fn is_inside_line(b: u8) -> bool
    ensures { result ≡ is_inside_line b }
{
    !is_line_feed(b)
}

/// The length of the last line of the text, which is empty if the text ends with a line feed.
fn last_line_len(text: &[u8]) -> usize
    ensures value { result ≡ suffix_len is_inside_line text.now }
    ensures within { result ≤ length text.now }
{
    text.iter()
        .rev()
        .take_while(|b| is_inside_line(**b))
        .count()
}

/// The line and the column of the byte at `at`, both counted from 1 in bytes: a line ends behind
/// its LF. Past the end, where the text ends.
pub fn line_col(text: &[u8], at: usize) -> (usize, usize)
    ensures line { result.0 ≡ line_of text.now at }
    ensures column { result.1 ≡ column_of text.now at }
{
    let before = &text[..at.min(text.len())];
    let line = before.iter().filter(|b| is_line_feed(**b)).count() + 1;
    let column = last_line_len(before) + 1;
    (line, column)
}
