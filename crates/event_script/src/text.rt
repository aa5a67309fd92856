//! A text that is parted at a byte: into lines at line feeds, into words at spaces.
ghost use Rattle.std.specs.Prelude.{◌≡◌, ◌∷◌, [], MatchOption};
ghost use Rattle.event_script.specs.Cut.{IsCut, Lacks};
ghost use Rattle.event_script.specs.Events.{is_blank};
ghost use Rattle.mote_base.specs.Spaced.{words_of};

/// The text before the first such byte, and the text behind it.
pub fn cut<'a>(text: &'a [u8], byte: u8) -> Option<(&'a [u8], &'a [u8])>
    ensures { MatchOption result (Lacks byte text.now)
        (λ parts. IsCut byte text.now parts.0.now parts.1.now) }
{
    for (i, b) in text.iter().enumerate() {
        if *b == byte {
            return Some((&text[..i], &text[i + 1..]));
        }
    }
    None
}

/// The first word of a text and what stands behind the space after it, or None where it is one word.
#[tactic(auto, using(crate::proofs::Cuts::words_behind_cut, crate::proofs::Cuts::one_word_alone))]
pub fn first_word<'a>(text: &'a [u8]) -> Option<(&'a [u8], &'a [u8])>
    ensures { MatchOption result (words_of text.now ≡ text.now ∷ [])
        (λ parts. words_of text.now ≡ parts.0.now ∷ words_of parts.1.now) }
{
    cut(text, b' ')
}

/// Whether the line says nothing: it is empty or a remark.
pub fn is_blank(line: &[u8]) -> bool
    ensures { result ≡ is_blank line.now }
{
    line.is_empty() || line[0] == b'#'
}
