//! Laws over the definitions.
ghost use Rattle.pcapng_input.specs.Adapted.{TellsOtherTexts, TellsTheClassicText};
ghost use Rattle.pcapng_input.specs.BlockText.{FindsBlockTexts, ReadsBlockTexts};
ghost use Rattle.pcapng_input.specs.Classic.{TellsThePackets};

/// A block is next exactly where its text stands in front: the text of a block is read as that block, whatever stands
/// behind it, and nothing else is.
pub fn block_texts()
    ensures reads { ReadsBlockTexts }
    ensures finds { FindsBlockTexts }
{}

/// The records of the classic capture are the packets of the text, in their order, and it ends within a record where the
/// text ends within a block.
pub fn all_packets()
    ensures { TellsThePackets }
{}

/// What an input of a capture tells of a text that it reads as pcapng is the text's classic capture, or its first fault,
/// and of any other the text.
pub fn told_texts()
    ensures pcapng { TellsTheClassicText }
    ensures others { TellsOtherTexts }
{}
