//! What a call answered.

/// What a call answered where memory may be refused.
#[derive(Clone, Copy)]
pub(crate) enum Answer {
    /// What is expected of it with memory.
    Done,
    /// That memory was refused, with all as it was before.
    Memory,
    /// Anything else.
    Wrong,
}

impl Answer {
    /// What is expected, or that memory was refused.
    pub(crate) fn of(is_expected: bool, is_memory: bool) -> Answer {
        match (is_expected, is_memory) {
            (true, _) => Answer::Done,
            (false, true) => Answer::Memory,
            (false, false) => Answer::Wrong,
        }
    }

    /// Of a text that is to be the expected one.
    pub(crate) fn text(text: &[u8], expected: &[u8]) -> Answer {
        Answer::of(text == expected, false)
    }

    /// Of a text that was the octet 7, and was to grow by what is expected.
    pub(crate) fn grown(is_grown: bool, text: &[u8], expected: &[u8]) -> Answer {
        let Some((7, added)) = text.split_first() else {
            return Answer::Wrong;
        };
        Answer::of(is_grown && added == expected, !is_grown && added.is_empty())
    }

    /// Its word.
    pub(crate) fn word(self) -> &'static str {
        match self {
            Answer::Done => "done",
            Answer::Memory => "memory",
            Answer::Wrong => "wrong",
        }
    }
}
