//! Laws over the definitions.
ghost use Rattle.run_view.specs.Left.{ReadsWhatLeft, TellsWhatLeft};
ghost use Rattle.run_view.specs.Reading.{ReadsBack};
ghost use Rattle.run_view.specs.Run.{TellsTheLines, TellsWhatCame, WritesViews};

/// Behind a run of any events, or of a part of it, the head was written and what is told of these events; or the front of that at
/// which the output failed.
pub fn views()
    ensures { WritesViews }
{}

/// What is read of an interface of a view are the packets that came there, as they were told; what left there is left out, and the
/// text ends whole. Of a run these are the records that were taken in there, each at the moment of its event.
pub fn reads_back()
    ensures reads { ReadsBack }
    ensures came { TellsWhatCame }
{}

/// What left at an interface in the view of a run, moments, lengths and octets, in order, are the records of its output capture.
/// A reader leaves them out, and reads just them where the view's directions are turned round.
pub fn left()
    ensures reads { ReadsWhatLeft }
    ensures sent { TellsWhatLeft }
{}

/// The comments of what came and the messages, in order, are the decision lines.
pub fn lines()
    ensures { TellsTheLines }
{}
