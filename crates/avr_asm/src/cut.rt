//! A text that is parted at a byte, and its lines.
ghost use Rattle.std.specs.Prelude.{◌≡◌, ◌<◌, ◌∷◌, length, MatchOption};
ghost use Rattle.avr_asm.specs.Cut.{IsCut, Lacks};
ghost use Rattle.avr_asm.specs.Text.{back, begins, front, has, is_blank, lines_in};

/// The text before the first such byte, and the text behind it.
pub fn cut<'a>(text: &'a [u8], byte: u8) -> Option<(&'a [u8], &'a [u8])>
    ensures { MatchOption result (Lacks byte text.now)
        (λ parts. IsCut byte text.now parts.0.now parts.1.now) }
{
    for (at, found) in text.iter().enumerate() {
        if *found == byte {
            return Some((&text[..at], &text[at + 1..]));
        }
    }
    None
}

/// Whether the byte stands in the text.
#[tactic(auto, using(crate::proofs::Cuts::has_cut, crate::proofs::Cuts::has_lacks))]
pub fn has(text: &[u8], byte: u8) -> bool
    ensures { result ≡ has byte text.now }
{
    match cut(text, byte) {
        Some(_) => true,
        None => false,
    }
}

/// What stands before the first such byte: all where there is none.
#[tactic(auto, using(crate::proofs::Cuts::front_is, crate::proofs::Cuts::front_all))]
pub fn front(text: &[u8], byte: u8) -> &[u8]
    ensures { result.now ≡ front byte text.now }
{
    match cut(text, byte) {
        Some((before, _)) => before,
        None => text,
    }
}

/// What stands behind the first such byte: nothing where there is none.
#[tactic(auto, using(crate::proofs::Cuts::back_is, crate::proofs::Cuts::back_none))]
pub fn back(text: &[u8], byte: u8) -> &[u8]
    ensures { result.now ≡ back byte text.now }
{
    match cut(text, byte) {
        Some((_, behind)) => behind,
        None => &[],
    }
}

/// The first line with its line feed, and the text behind it.
#[tactic(auto, using(crate::proofs::Cuts::first_is, crate::proofs::Cuts::first_all))]
pub fn first_line(text: &[u8]) -> (&[u8], &[u8])
    requires { 0 < length text.now }
    ensures lines { lines_in text.now ≡ result.0.now ∷ lines_in result.1.now }
    ensures shorter { length result.1.now < length text.now }
{
    match cut(text, b'\n') {
        Some((line, behind)) => (&text[..line.len() + 1], behind),
        None => (text, &[]),
    }
}

/// Whether the text begins with the byte.
pub fn begins(text: &[u8], byte: u8) -> bool
    ensures { result ≡ begins byte text.now }
{
    match text {
        [] => false,
        [first, ..] => *first == byte,
    }
}

/// Whether the line is empty or a remark.
pub fn is_blank(line: &[u8]) -> bool
    ensures { result ≡ is_blank line.now }
{
    (line.len() == 1 && line[0] == b'\n') || (begins(line, b'#') && has(line, b'\n'))
}
