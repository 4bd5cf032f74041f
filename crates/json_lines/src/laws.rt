//! The laws of lines told as JSON objects.
ghost use Rattle.json_lines.specs.ReadBack.{ReadsBack, TextsReadBack};

/// The words of a line come back from its object: of a form whose members tell each word that may be another in another line, two
/// lines with the same object are the same line; and so are two whose objects have the same text.
pub fn lines_read_back()
    ensures objects { ReadsBack }
    ensures texts { TextsReadBack }
{}
