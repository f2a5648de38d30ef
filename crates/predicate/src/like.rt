// Whether a text is as a pattern says.
ghost use Rattle.std.specs.Prelude.{◌≡◌, ◌∷◌, ◌<◌, [], MatchOption, length};
ghost use Rattle.std.specs.Str.{chars};
ghost use Rattle.predicate.specs.Like.{is_like, some_tail};
ghost use Rattle.predicate.specs.Fits.{IsFit, IsNearer};

// How the characters of a pattern before its next `%` fit the beginning of a text.
enum Fit<'a> {
    // They fit, and a `%` follows: the pattern behind it, and what is left of the text.
    UpToPercent(&'a str, &'a str),
    // They fit, and are the whole pattern and the whole text.
    Whole,
    // They don't fit, or fit and are the whole pattern, but not the whole text.
    Not,
}

/// Whether the whole text is as the pattern says.
///
/// The characters between one `%` and the next are taken where they fit first, since a later place leaves no more of the
/// text to the rest of the pattern. So a call costs at most the pattern's length times the text's.
pub(crate) fn is_like(pattern: &str, text: &str) -> bool
    ensures { result ≡ is_like (chars pattern.now) (chars text.now) }
{
    match fit_front(pattern, text) {
        Fit::UpToPercent(behind, rest) => some_tail_is_like(behind, rest),
        Fit::Whole => true,
        Fit::Not => false,
    }
}

// Whether the text, or what is left of it behind some of its characters, is as the pattern says.
fn some_tail_is_like(pattern: &str, text: &str) -> bool
    ensures { result ≡ some_tail (is_like (chars pattern.now)) (chars text.now) }
{
    let mut pattern = pattern;
    let mut text = text;
    loop {
        match fit_front(pattern, text) {
            Fit::UpToPercent(behind, rest) => {
                pattern = behind;
                text = rest;
            }
            Fit::Whole => return true,
            Fit::Not => match split_first(text) {
                Some((_, rest)) => text = rest,
                None => return false,
            },
        }
    }
}

// Fits the pattern up to its next `%`.
fn fit_front<'a>(pattern: &'a str, text: &'a str) -> Fit<'a>
    ensures fit { IsFit (chars pattern.now) (chars text.now) result }
    ensures nearer { IsNearer (length pattern.now) (length text.now) result }
{
    let mut pattern = pattern;
    let mut text = text;
    while let Some((wanted, behind)) = split_first(pattern) {
        if wanted == '%' {
            return Fit::UpToPercent(behind, text);
        }
        let Some((found, rest)) = split_first(text) else {
            return Fit::Not;
        };
        if wanted != '_' && wanted != found {
            return Fit::Not;
        }
        pattern = behind;
        text = rest;
    }
    match split_first(text) {
        Some(_) => Fit::Not,
        None => Fit::Whole,
    }
}

// The first character, and the text behind it.
fn split_first(text: &str) -> Option<(char, &str)>
    ensures chars { MatchOption result (chars text.now ≡ [])
        (λ x. chars text.now ≡ x.0 ∷ chars x.1.now) }
    ensures shorter { MatchOption result (length text.now ≡ 0)
        (λ x. length x.1.now < length text.now) }
{
    let mut characters = text.chars();
    let first = characters.next()?;
    Some((first, characters.as_str()))
}
