//! Where the first line of some octets ends.
ghost use Rattle.std.specs.Prelude.{◌≡◌, ◌<◌, [], ◌∷◌, length, IfSome, MatchOption};
ghost use Rattle.batch.specs.Lines.{FirstBreak, NoBreak, lines_of};

// Where the first CR LF stands.
fn line_end(input: &[u8]) -> Option<usize>
    ensures { MatchOption result (NoBreak input.now) (FirstBreak input.now) }
{
    input
        .array_windows()
        .position(|pair| matches!(pair, b"\r\n"))
}

/// The first line, without its CR LF, and what comes after it.
pub(crate) fn split_line(input: &[u8]) -> Option<(&[u8], &[u8])>
    ensures lines { MatchOption result (input.now ≡ []) (λ split. lines_of [] input.now ≡ split.0.now ∷ lines_of [] split.1.now) }
    ensures on { IfSome result (λ split. length split.1.now < length input.now) }
{
    if input.is_empty() {
        return None;
    }
    match line_end(input) {
        Some(end) => Some((&input[..end], &input[end + 2..])),
        None => Some((input, &[])),
    }
}
