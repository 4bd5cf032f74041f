//! Laws of the definitions, as contracts of functions that do nothing.
ghost use Rattle.both_ways.specs.Laws.{CountsWhatIsForgotten, CountsWhatIsLeftOut, GivesTheInputsBack, LeavesWhole};
ghost use Rattle.both_ways.specs.Laws.{RunsTheSame, SendsByTheSettings, TakesInTurn, TakesWhatOthersSent, TellsWhatIsLeftOut};

/// What is input of two rows of events, one behind the other, is what is of the first, and then what is of the second by all
/// that is known behind the first.
pub fn takes_in_turn()
    ensures { TakesInTurn }
{}

/// Behind the events of a run, the count of a place is the number of its records that aren't input, up to 2^64 - 1.
pub fn counts_what_is_left_out()
    ensures { CountsWhatIsLeftOut }
{}

/// Of the events of a run each one that isn't input is told, by its place, its number there and its moment, in order, and no other.
pub fn tells_what_is_left_out()
    ensures { TellsWhatIsLeftOut }
{}

/// Behind the events of a run each segment is known to send frames out at those of its members that are up by the settings in
/// force, whatever changed before.
pub fn sends_by_the_settings()
    ensures { SendsByTheSettings }
{}

/// Of every row of events, those records of the underlay are input whose outer source is no own address of the endpoint, all of
/// them and no others.
pub fn takes_what_others_sent()
    ensures { TakesWhatOthersSent }
{}

/// Of events among which no frame stands at two places within the time, all are input but the packets that the endpoint sent.
pub fn leaves_whole()
    ensures { LeavesWhole }
{}

/// Behind the events of a run is told how many frames went for want of room although an echo of them might still have come, up
/// to 2^64 - 1, and the least of the ages at which they went.
pub fn counts_what_is_forgotten()
    ensures { CountsWhatIsForgotten }
{}

/// Of the events of a run whose captures hold both directions, those are input that came in, and so the outputs are those of
/// a run of these alone, each by the number that it has in its capture. Of such a run moments never fall, and no frame is
/// forgotten for want of room while an echo of it might still come. What came in at a port is, without its tag, like no
/// frame that came in elsewhere at most the time before to a segment that sends frames out there; at the underlay it has no
/// own source. What the switch sent at a port it sent for a frame that came in, and once for each: one that came in so,
/// elsewhere, and is the same without tags; which one of several doesn't matter. At the underlay it has an own source.
pub fn gives_the_inputs_back()
    ensures inputs { GivesTheInputsBack }
    ensures run { RunsTheSame }
{}
