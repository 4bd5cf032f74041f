//! How many of each side.
ghost use Rattle.std.specs.Prelude.{Some};
ghost use Rattle.capture_compare.specs.Sides.{sides_words};

use std::fmt;

/// How many of those sent and of those received are what `word` says (`alone`, `left aside`), with `between` between the two.
#[derive(Clone, Copy)]
pub(crate) struct Sides {
    pub(crate) word: &'static str,
    pub(crate) between: &'static str,
    pub(crate) sent: u64,
    pub(crate) received: u64,
}

impl fmt::Display for Sides {
    ghost output = { λ sides. Some (sides_words sides.word.now sides.between.now sides.sent sides.received) };

    #[tactic(auto, unfolding(crate::specs::Sides::sides_words))]
    fn fmt<W: fmt::Write>(&self, f: &mut fmt::Formatter<W>) -> fmt::Result {
        let Sides {
            word,
            between,
            sent,
            received,
        } = *self;
        write!(f, "sent {word} {sent}{between}received {word} {received}")
    }
}
