//! Laws over the definitions.
ghost use Rattle.std.specs.Prelude.{◌≡◌};
ghost use Rattle.talkers.specs.Run.{CountsRuns};
ghost use Rattle.talkers.specs.Talk.{rank};

use crate::rows::Talk;

/// Behind a run of any events, or of a part of it, the table keeps of the frames of those events and their answers the talks of
/// most frames, as `ranked_rows::FrequentRows` does.
pub fn runs()
    ensures { CountsRuns }
{}

/// Two talks never share a row: those of one rank are one.
pub fn have_rows_of_their_own(talk: &Talk, other: &Talk)
    ensures { rank talk.now ≡ rank other.now → talk.now ≡ other.now }
{
    talk.places_are_few();
    other.places_are_few();
    talk.has_addresses_alone(other);
    talk.has_places_alone(other);
}
