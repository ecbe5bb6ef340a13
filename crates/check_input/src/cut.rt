ghost use Rattle.std.specs.Prelude.{◌≡◌, ◌<◌, ◌≤◌, codes, length, take, None};
ghost use Rattle.std.specs.Option.{IfSome};
ghost use Rattle.std.specs.Str.{bytes_eq};
ghost use Rattle.check_input.specs.Cut.{HasNoMarker, IsCut, begins_line, behind_marker, line_end};

/// The parts of the input: the script is what stands before the marker's line, and the answer what
/// stands behind it.
#[derive(Clone, Copy, Debug, PartialEq, Eq)]
pub struct Cut {
    /// The offset of the marker.
    pub script: usize,
    /// The offset of the answer's first byte; the input's length where nothing stands behind the marker.
    pub answer: usize,
}

fn begins_line(input: &[u8], at: usize) -> bool
    requires { at ≤ length input.now }
    ensures { result ≡ begins_line input.now at }
{
    at == 0 || input[at - 1] == b'\n'
}

/// The first eight bytes, or all where there are fewer.
fn first_eight(rest: &[u8]) -> &[u8]
    ensures { result.now ≡ take 8 rest.now }
{
    if rest.len() < 8 {
        return rest;
    }
    &rest[..8]
}

fn is_marker(rest: &[u8]) -> bool
    ensures { result ≡ bytes_eq (take 8 rest.now) (codes ";;answer") }
{
    first_eight(rest) == b";;answer".as_slice()
}

/// How many bytes end the line, where it ends at once.
fn line_end(rest: &[u8]) -> Option<usize>
    ensures is { result ≡ line_end rest.now }
    ensures within { IfSome result (λ count. count ≤ length rest.now) }
{
    match rest {
        [] => Some(0),
        [b'\n', ..] => Some(1),
        [b'\r', b'\n', ..] => Some(2),
        _ => None,
    }
}

/// Where the next line begins behind the marker's line, if that begins here.
fn behind_marker(input: &[u8], at: usize) -> Option<usize>
    requires { at < length input.now }
    ensures is { result ≡ behind_marker input.now at }
    ensures within { IfSome result (λ answer. answer ≤ length input.now) }
{
    if !begins_line(input, at) {
        return None;
    }
    if !is_marker(&input[at..]) {
        return None;
    }
    match line_end(&input[at + 8..]) {
        None => None,
        Some(end) => Some(at + 8 + end),
    }
}

/// Cuts the input at the marker, the first line that is exactly `;;answer`; nothing where no line is.
pub fn cut_at_marker(input: &[u8]) -> Option<Cut>
    ensures cut { IfSome result (λ cut. IsCut input.now cut.script cut.answer) }
    ensures script_within { IfSome result (λ cut. cut.script ≤ length input.now) }
    ensures answer_within { IfSome result (λ cut. cut.answer ≤ length input.now) }
    ensures none { result ≡ None → HasNoMarker input.now }
{
    for at in 0..input.len() {
        if let Some(answer) = behind_marker(input, at) {
            return Some(Cut { script: at, answer });
        }
    }
    None
}
