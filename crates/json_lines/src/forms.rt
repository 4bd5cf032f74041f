//! Forms of lines.

/// What a word of a line has to be, and as what its value is told.
#[derive(Clone, Copy, Debug)]
pub enum Word {
    /// This word itself; told as a text.
    Is(&'static str),
    /// A number in decimal digits without leading zeros, below 2^64; told as a number.
    Number,
    /// Such a number, or `-`, which is told as `null`.
    NumberOrNothing,
    /// Any word, also an empty one; told as a text.
    Text,
    /// Such a number with this octet behind it, as `4,`; told as a number.
    NumberBefore(u8),
    /// Any word with this octet at its end, as `p1:`; told as a text without it.
    TextBefore(u8),
}

/// What stands behind the words of a form.
#[derive(Clone, Copy, Debug)]
pub enum End {
    /// Nothing.
    Here,
    /// One word or more of any kind.
    Rest,
    /// One word or more, each `PLACE=LENGTH`, where LENGTH is a number as above, or `PLACE!NAME`. PLACE ends at the first of
    /// the two marks.
    Outcomes,
}

/// What a member tells.
#[derive(Clone, Copy, Debug)]
pub enum Told {
    /// The word of this place in the form, from 0; behind the last one an empty text.
    Word(usize),
    /// This text, whatever the line is.
    Fixed(&'static str),
    /// The outcomes behind the form's words, as a list of `{"octets":LENGTH,"place":"PLACE"}` and
    /// `{"fault":"NAME","place":"PLACE"}`; empty where the form doesn't end with outcomes.
    Outcomes,
    /// What stands behind the form's words to the end of the line, with the spaces in it, as one text.
    Rest,
}

/// A member of an object: its key, and what it tells.
#[derive(Clone, Copy, Debug)]
pub struct Member(pub &'static str, pub Told);

/// One kind of line: its words, of which there are at most 18, what stands behind them, and the members of its object in the
/// order in which they are told. No line is of a form with more words.
#[derive(Clone, Copy, Debug)]
pub struct Form {
    pub words: &'static [Word],
    pub end: End,
    pub members: &'static [Member],
}

/// Writes a [`Form`] as the value of a constant: its words in order, each with the text that it is or with its [`Word`]; behind a
/// `;` the [`End`], where it isn't `Here`; and the members, each with `[PLACE]` for the word of this place, from 0, with the text
/// that is told whatever the line is, or with `Outcomes` or `Rest`.
///
/// `form!(["at", Text, NumberBefore(b':'); Rest] => { "kind": "remark", "line": [2], "place": [1], "remark": Rest })`
#[macro_export]
macro_rules! form {
    ([$($word:tt $(($mark:literal))?),*] => {$($key:literal: $told:tt),*}) => {
        $crate::form!([$($word $(($mark))?),*; Here] => {$($key: $told),*})
    };
    ([$($word:tt $(($mark:literal))?),*; $end:ident] => {$($key:literal: $told:tt),*}) => {
        $crate::Form {
            words: &[$($crate::form!(@word $word $(($mark))?)),*],
            end: $crate::End::$end,
            members: &[$($crate::Member($key, $crate::form!(@told $told))),*],
        }
    };
    (@word $text:literal) => { $crate::Word::Is($text) };
    (@word $kind:ident) => { $crate::Word::$kind };
    (@word $kind:ident ($mark:literal)) => { $crate::Word::$kind($mark) };
    (@told [$place:literal]) => { $crate::Told::Word($place) };
    (@told $text:literal) => { $crate::Told::Fixed($text) };
    (@told $kind:ident) => { $crate::Told::$kind };
}
