//! Pictures of series.
ghost use Rattle.std.specs.Prelude.{◌++◌, Some, codes, decimal};
ghost use Rattle.report_page.specs.Path.{bar_text, height_of, point_text};
ghost use Rattle.report_page.specs.Picture.{axis_text, bars_picture, bars_text, line_text, path_text, picture_head, polyline_text};
ghost use Rattle.report_page.specs.Picture.{scale_text, small_bars_cell, spark_cell, spark_end, spark_head, stacked_picture, upper_text};
ghost use Rattle.report_page.specs.Series.{number_at};

use crate::each::{Each, Parts};
use crate::moment::Moment;
use crate::path::{Bar, Point, height_of};
use crate::series::{Both, Numbers, SPANS, Series, greatest};
use report_counts::ReportCounts;
use std::fmt;

/// The bars of a series, so high as its numbers are of the greatest.
#[derive(Clone, Copy)]
struct Bars<'a> {
    series: Series<'a>,
    most: u64,
}

impl<'a> Parts<u16> for Bars<'a> {
    ghost part = { λ bars span. bar_text span 0 (height_of bars.most (number_at bars.series.0.now bars.series.1 span)) };

    fn put<W: fmt::Write>(&self, span: u16, f: &mut fmt::Formatter<W>) -> fmt::Result {
        let bar = Bar {
            span,
            floor: 0,
            height: height_of(self.most, self.series.number(span)),
        };
        write!(f, "{bar}")
    }
}

/// The bars of a series above those of another.
#[derive(Clone, Copy)]
struct UpperBars<'a> {
    both: Both<'a>,
    most: u64,
}

impl<'a> Parts<u16> for UpperBars<'a> {
    ghost part = { λ bars span. bar_text span
        (height_of bars.most (number_at bars.both.counts.now bars.both.lower span))
        (height_of bars.most (number_at bars.both.counts.now bars.both.upper span)) };

    fn put<W: fmt::Write>(&self, span: u16, f: &mut fmt::Formatter<W>) -> fmt::Result {
        let lower = Series(self.both.counts, self.both.lower);
        let upper = Series(self.both.counts, self.both.upper);
        let bar = Bar {
            span,
            floor: height_of(self.most, lower.number(span)),
            height: height_of(self.most, upper.number(span)),
        };
        write!(f, "{bar}")
    }
}

/// The points of a series.
#[derive(Clone, Copy)]
struct Points<'a> {
    series: Series<'a>,
    most: u64,
}

impl<'a> Parts<u16> for Points<'a> {
    ghost part = { λ line span. point_text span (height_of line.most (number_at line.series.0.now line.series.1 span)) };

    fn put<W: fmt::Write>(&self, span: u16, f: &mut fmt::Formatter<W>) -> fmt::Result {
        let point = Point {
            span,
            height: height_of(self.most, self.series.number(span)),
        };
        write!(f, "{point}")
    }
}

/// The numbers of a series.
#[derive(Clone, Copy)]
struct Listed<'a>(Series<'a>);

impl<'a> Parts<u16> for Listed<'a> {
    ghost part = { λ listed span. decimal (number_at listed.0.0.now listed.0.1 span) ++ codes " " };

    fn put<W: fmt::Write>(&self, span: u16, f: &mut fmt::Formatter<W>) -> fmt::Result {
        let number = self.0.number(span);
        write!(f, "{number} ")
    }
}

/// What a picture begins with.
#[derive(Clone, Copy)]
struct PictureHead {
    class: &'static str,
    title: &'static str,
    shown: &'static str,
}

impl fmt::Display for PictureHead {
    ghost output = { λ head. Some (picture_head head.class.now head.title.now head.shown.now) };

    fn fmt<W: fmt::Write>(&self, f: &mut fmt::Formatter<W>) -> fmt::Result {
        let class = self.class;
        let title = self.title;
        let shown = self.shown;
        write!(
            f,
            "<svg class=\"{class}\" viewBox=\"0 0 640 1000\" preserveAspectRatio=\"none\" role=\"img\"><title>{title}</title>\
            <desc>{shown}</desc>"
        )
    }
}

/// The bars of a series.
#[derive(Clone, Copy)]
struct BarsPath<'a> {
    colour: &'static str,
    bars: Bars<'a>,
}

impl<'a> fmt::Display for BarsPath<'a> {
    ghost output = { λ path. Some (path_text path.colour.now
        (bars_text path.bars.series.0.now path.bars.series.1 path.bars.most)) };

    fn fmt<W: fmt::Write>(&self, f: &mut fmt::Formatter<W>) -> fmt::Result {
        let colour = self.colour;
        let bars = Each(self.bars, SPANS);
        write!(f, "<path class=\"{colour}\" d=\"{bars}\"/>")
    }
}

/// The bars of a series above those of another.
#[derive(Clone, Copy)]
struct UpperPath<'a>(UpperBars<'a>);

impl<'a> fmt::Display for UpperPath<'a> {
    ghost output = { λ path. Some (path_text (codes "b")
        (upper_text path.0.both.counts.now path.0.both.lower path.0.both.upper path.0.most)) };

    fn fmt<W: fmt::Write>(&self, f: &mut fmt::Formatter<W>) -> fmt::Result {
        let bars = Each(self.0, SPANS);
        write!(f, "<path class=\"b\" d=\"{bars}\"/>")
    }
}

/// What stands above a picture: the greatest of its numbers.
#[derive(Clone, Copy)]
struct Scale(u64);

impl fmt::Display for Scale {
    ghost output = { λ scale. Some (scale_text scale.0) };

    fn fmt<W: fmt::Write>(&self, f: &mut fmt::Formatter<W>) -> fmt::Result {
        let most = self.0;
        write!(f, "<p class=\"scale\">{most} at most</p>\n")
    }
}

/// What a picture ends with, and stands below it: the first and the last moment.
#[derive(Clone, Copy)]
struct Axis<'a>(&'a ReportCounts);

impl<'a> fmt::Display for Axis<'a> {
    ghost output = { λ axis. Some (axis_text axis.0.now.stretch) };

    fn fmt<W: fmt::Write>(&self, f: &mut fmt::Formatter<W>) -> fmt::Result {
        let first = Moment(self.0.first());
        let last = Moment(self.0.last());
        write!(
            f,
            "</svg>\n<p class=\"axis\"><span>{first}</span> <span>{last}</span></p>"
        )
    }
}

/// A picture of bars.
#[derive(Clone, Copy)]
pub(crate) struct BarsPicture<'a> {
    pub title: &'static str,
    pub colour: &'static str,
    pub series: Series<'a>,
}

impl<'a> fmt::Display for BarsPicture<'a> {
    ghost output = { λ picture.
        Some (bars_picture picture.title.now picture.colour.now picture.series.0.now picture.series.1) };

    #[tactic(auto, unfolding(crate::specs::Picture::bars_picture))]
    fn fmt<W: fmt::Write>(&self, f: &mut fmt::Formatter<W>) -> fmt::Result {
        let head = PictureHead {
            class: "bars",
            title: self.title,
            shown: "Bars, one for each of the 64 spans.",
        };
        let most = greatest(&self.series, SPANS);
        let scale = Scale(most);
        let path = BarsPath {
            colour: self.colour,
            bars: Bars {
                series: self.series,
                most,
            },
        };
        let axis = Axis(self.series.0);
        write!(f, "{scale}{head}{path}{axis}")
    }
}

/// A picture of two series, one above the other.
#[derive(Clone, Copy)]
pub(crate) struct StackedPicture<'a> {
    pub title: &'static str,
    pub both: Both<'a>,
}

impl<'a> fmt::Display for StackedPicture<'a> {
    ghost output = { λ picture.
        Some (stacked_picture picture.title.now picture.both.counts.now picture.both.lower picture.both.upper) };

    #[tactic(auto, unfolding(crate::specs::Picture::stacked_picture))]
    fn fmt<W: fmt::Write>(&self, f: &mut fmt::Formatter<W>) -> fmt::Result {
        let head = PictureHead {
            class: "bars",
            title: self.title,
            shown: "Bars of two series, one above the other, for each of the 64 spans.",
        };
        let most = greatest(&self.both, SPANS);
        let lower = BarsPath {
            colour: "a",
            bars: Bars {
                series: Series(self.both.counts, self.both.lower),
                most,
            },
        };
        let upper = UpperPath(UpperBars {
            both: self.both,
            most,
        });
        let scale = Scale(most);
        let axis = Axis(self.both.counts);
        write!(f, "{scale}{head}{lower}{upper}{axis}")
    }
}

/// What a small picture begins with: it tells its numbers.
#[derive(Clone, Copy)]
struct SparkHead<'a>(Series<'a>);

impl<'a> fmt::Display for SparkHead<'a> {
    ghost output = { λ head. Some (spark_head head.0.0.now head.0.1) };

    fn fmt<W: fmt::Write>(&self, f: &mut fmt::Formatter<W>) -> fmt::Result {
        let numbers = Each(Listed(self.0), SPANS);
        write!(
            f,
            "<td><svg class=\"spark\" viewBox=\"0 0 640 1000\" preserveAspectRatio=\"none\" role=\"img\">\
            <title>Over time</title><desc>{numbers}</desc>"
        )
    }
}

/// What a small picture ends with: its numbers.
#[derive(Clone, Copy)]
struct SparkEnd<'a>(Series<'a>);

impl<'a> fmt::Display for SparkEnd<'a> {
    ghost output = { λ end. Some (spark_end end.0.0.now end.0.1) };

    fn fmt<W: fmt::Write>(&self, f: &mut fmt::Formatter<W>) -> fmt::Result {
        let numbers = Each(Listed(self.0), SPANS);
        write!(
            f,
            "</svg><details><summary>Numbers</summary><p>{numbers}</p></details></td>"
        )
    }
}

/// The line of a series.
#[derive(Clone, Copy)]
struct Line<'a>(Points<'a>);

impl<'a> fmt::Display for Line<'a> {
    ghost output = { λ line. Some (polyline_text (line_text line.0.series.0.now line.0.series.1 line.0.most)) };

    fn fmt<W: fmt::Write>(&self, f: &mut fmt::Formatter<W>) -> fmt::Result {
        let points = Each(self.0, SPANS);
        write!(f, "<polyline points=\"{points}\"/>")
    }
}

/// The cell of a small picture of a line, and of its numbers.
#[derive(Clone, Copy)]
pub(crate) struct SparkCell<'a>(pub Series<'a>);

impl<'a> fmt::Display for SparkCell<'a> {
    ghost output = { λ cell. Some (spark_cell cell.0.0.now cell.0.1) };

    #[tactic(auto, unfolding(crate::specs::Picture::spark_cell))]
    fn fmt<W: fmt::Write>(&self, f: &mut fmt::Formatter<W>) -> fmt::Result {
        let head = SparkHead(self.0);
        let line = Line(Points {
            series: self.0,
            most: greatest(&self.0, SPANS),
        });
        let end = SparkEnd(self.0);
        write!(f, "{head}{line}{end}")
    }
}

/// The cell of a small picture of bars, and of its numbers.
#[derive(Clone, Copy)]
pub(crate) struct SmallBarsCell<'a>(pub &'static str, pub Series<'a>);

impl<'a> fmt::Display for SmallBarsCell<'a> {
    ghost output = { λ cell. Some (small_bars_cell cell.0.now cell.1.0.now cell.1.1) };

    #[tactic(auto, unfolding(crate::specs::Picture::small_bars_cell))]
    fn fmt<W: fmt::Write>(&self, f: &mut fmt::Formatter<W>) -> fmt::Result {
        let head = SparkHead(self.1);
        let path = BarsPath {
            colour: self.0,
            bars: Bars {
                series: self.1,
                most: greatest(&self.1, SPANS),
            },
        };
        let end = SparkEnd(self.1);
        write!(f, "{head}{path}{end}")
    }
}
