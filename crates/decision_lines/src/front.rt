//! The front and the end of a decision line.
ghost use Rattle.std.specs.Prelude.{◌≡◌, ◌≤◌, ◌<◌, ◌+◌, ◌++◌, ◌∷◌, [], length, codes, decimal};
ghost use Rattle.timeline.specs.Words.{source_word, tap_word};
ghost use Rattle.decision_lines.specs.Lines.{line_front, segment_text};

use crate::counter::Counter;
use crate::line::Line;
use timeline::{Event, Source, Tap};
use wire::ether::Vid;

impl Line {
    /// Clears the line and puts what stands before the result: the event's number, its moment, its source, its number
    /// there and the VID of a segment, or a dash for none, each with a space behind.
    #[inline(always)]
    pub fn begin(&mut self, number: &Counter, event: &Event, segment: Option<Vid>)
        ensures text { self.new ≡ line_front number.now event.now ++ (segment_text segment ++ codes " ") }
        ensures len { length self.new ≤ 74 }
    {
        self.put_origin(number, event.moment, event.source());
        self.put_number(event.number);
        self.put_segment(segment);
    }

    /// Ends the line.
    #[inline(always)]
    pub fn end(&mut self)
        requires room { length self.old < 65536 }
        ensures { self.new ≡ self.old ++ 10 ∷ [] }
    {
        self.put_octet(b'\n');
    }

    /// Clears the line and puts an event's number, its moment and its source.
    #[inline(always)]
    fn put_origin(&mut self, number: &Counter, moment: u64, source: Source)
        ensures text { self.new ≡ decimal number.now ++ codes " " ++ decimal moment ++ codes " " ++ source_word source ++ codes " " }
        ensures len { length self.new ≤ 47 }
    {
        self.clear();
        self.put_counter(number);
        self.put_octet(b' ');
        self.put_moment(moment);
        self.put_octet(b' ');
        self.put_source(source);
        self.put_octet(b' ');
    }

    /// Puts where an event comes from.
    #[inline(always)]
    pub fn put_source(&mut self, source: Source)
        requires room { length self.old + 4 ≤ 65536 }
        ensures text { self.new ≡ self.old ++ source_word source }
        ensures len { length self.new ≤ length self.old + 4 }
    {
        match source {
            Source::Changes => self.put_octet(b'c'),
            Source::Tap(tap) => self.put_tap(tap),
        }
    }

    /// Puts where a capture is taken.
    #[inline(always)]
    pub fn put_tap(&mut self, tap: Tap)
        requires room { length self.old + 4 ≤ 65536 }
        ensures text { self.new ≡ self.old ++ tap_word tap }
        ensures len { length self.new ≤ length self.old + 4 }
    {
        match tap {
            Tap::Underlay => self.put_octet(b'u'),
            Tap::Port(port) => {
                self.put_octet(b'p');
                self.put_small(port);
            }
        }
    }

    /// Puts the VID of a segment, or a dash for none, between spaces.
    #[inline(always)]
    fn put_segment(&mut self, segment: Option<Vid>)
        requires room { length self.old + 7 ≤ 65536 }
        ensures text { self.new ≡ self.old ++ (codes " " ++ (segment_text segment ++ codes " ")) }
        ensures len { length self.new ≤ length self.old + 7 }
    {
        self.put_octet(b' ');
        match segment {
            Some(vid) => self.put_short(vid.get()),
            None => self.put_octet(b'-'),
        }
        self.put_octet(b' ');
    }
}
