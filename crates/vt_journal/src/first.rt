ghost use Rattle.std.specs.Prelude.{◌≡◌, ◌≢◌, ℕ, List, ◌++◌, Some, IfSome, IfNone, MatchOption};
ghost use Rattle.vt_journal.specs.Callers.{IsVersion};
ghost use Rattle.vt_journal.specs.Journal.{first_words, line_text};
ghost use Rattle.vt_journal.specs.Says.{HasFirst, IsNoFirst};

/// The first line of a journal.
#[derive(Clone, Copy)]
pub(crate) struct First<'a> {
    /// The version that it names, 1 or 2.
    pub version: u8,
    /// The text after it.
    pub behind: &'a [u8],
}

/// The version in the text's first line, if that is the first line of a journal.
pub fn version_of(text: &[u8]) -> Option<u8>
    ensures found { IfSome result (λ version. HasFirst version text.now) }
    ensures none { IfNone result (IsNoFirst text.now) }
    ensures one { (version : ℕ) → HasFirst version text.now → result ≡ Some version }
{
    match read_first(text) {
        Some(first) => Some(first.version),
        None => None,
    }
}

/// The first line of the text, if it is one of a journal.
pub(crate) fn read_first(text: &[u8]) -> Option<First<'_>>
    ensures version { IfSome result (λ first. IsVersion first.version) }
    ensures found { IfSome result
        (λ first. text.now ≡ line_text (first_words first.version) ++ first.behind.now) }
    ensures none { IfNone result (IsNoFirst text.now) }
{
    if let Some(behind) = behind_line(text, b"%journal 1\n") {
        return Some(First { version: 1, behind });
    }
    match behind_line(text, b"%journal 2\n") {
        Some(behind) => Some(First { version: 2, behind }),
        None => None,
    }
}

// The text after this line, if the text begins with it.
fn behind_line<'a>(text: &'a [u8], line: &[u8]) -> Option<&'a [u8]>
    ensures { MatchOption result ((rest : List ℕ) → text.now ≢ line.now ++ rest)
        (λ rest. text.now ≡ line.now ++ rest.now) }
{
    text.strip_prefix(line)
}
