//! The laws of decisions told as JSON objects.
ghost use Rattle.story_laws.specs.ReadBack.{CutsReadBack, ObjectsReadBack, OutputsReadBack};
ghost use Rattle.story_laws.specs.WholeRuns.{RunsReadBack};

/// What the object of an event tells is all that its decision line tells: where two objects are the same text, the lines are.
pub fn objects_read_back()
    ensures { ObjectsReadBack }
{}

/// The same of captures that end with a cut rest.
pub fn cuts_read_back()
    ensures { CutsReadBack }
{}

/// The same of objects one behind another, of events and of cut captures: where two outputs are the same text, the lines are, one
/// by one.
pub fn outputs_read_back()
    ensures { OutputsReadBack }
{}

/// So of whole runs, and of parts of them: where the objects of two runs are the same text, their decision lines are.
pub fn runs_read_back()
    ensures { RunsReadBack }
{}
