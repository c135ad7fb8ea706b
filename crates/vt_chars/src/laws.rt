//! Laws of UTF-8 and of texts cut into characters.
ghost use Rattle.vt_chars.specs.Characters.{AsciiCuts, ByteMore, CharactersAreAll};
ghost use Rattle.vt_chars.specs.Utf8.{UnfinishedBegins};

/// The texts that are unfinished are the proper prefixes of well-formed sequences, and no others.
pub fn unfinished_begins()
    ensures { UnfinishedBegins }
{}

/// How one more byte at the end of a text changes its characters.
pub fn byte_more()
    ensures { ByteMore }
{}

/// A byte below 80 is a character of its own: a text's characters are those before the byte, the byte, and
/// those after it.
pub fn ascii_cuts()
    ensures { AsciiCuts }
{}

/// Each byte of a text is in exactly one of its characters.
pub fn characters_are_all()
    ensures { CharactersAreAll }
{}
