//! The law of tokens.
ghost use Rattle.token_reader.specs.LineSpelling.{LineTokensAreSpelled, SpelledLineTokensAreRead};
ghost use Rattle.token_reader.specs.FileSpelling.{FileTokensAreSpelled, SpelledFileTokensAreRead};

/// The tokens of a line, and those of a file with their places, are just those that its bytes spell: marks, words and
/// quoted words put end to end, with blanks and comments between them. The function does nothing: its contract is the
/// law.
///
/// - `line_found`, `line_only`: a line's bytes spell its tokens, and no other ones.
/// - `file_found`, `file_only`: a file's bytes spell its tokens, each at its place, and no other ones.
pub fn tokens_are_spelled()
    ensures line_found { LineTokensAreSpelled }
    ensures line_only { SpelledLineTokensAreRead }
    ensures file_found { FileTokensAreSpelled }
    ensures file_only { SpelledFileTokensAreRead }
{}
