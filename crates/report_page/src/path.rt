//! The shapes of bars and lines.
ghost use Rattle.std.specs.Prelude.{◌≡◌, ◌≤◌, ◌<◌, Some};
ghost use Rattle.report_page.specs.Path.{bar_text, height_of, point_text};

use std::fmt;

/// How high a number stands where the greatest stands at 1,000.
pub(crate) fn height_of(most: u64, count: u64) -> u64
    ensures height { result ≡ height_of most count }
    ensures range { result ≤ 1000 }
{
    if most == 0 {
        return 0;
    }
    let height = u128::from(count) * 1000 / u128::from(most);
    height.min(1000) as u64
}

/// The bar of a span, so high above a floor, as a part of a path.
#[derive(Clone, Copy)]
pub(crate) struct Bar {
    pub span: u16,
    pub floor: u64,
    pub height: u64,
}

impl fmt::Display for Bar {
    ghost output = { λ bar. Some (bar_text bar.span bar.floor bar.height) };

    #[tactic(auto, unfolding(crate::specs::Path::bar_text))]
    fn fmt<W: fmt::Write>(&self, f: &mut fmt::Formatter<W>) -> fmt::Result {
        if self.height == 0 {
            return Ok(());
        }
        let x = u64::from(self.span) * 10;
        let y = 1000u64.saturating_sub(self.floor);
        let height = self.height;
        write!(f, "M{x} {y}v-{height}h9v{height}z")
    }
}

/// The point of a line at a span.
#[derive(Clone, Copy)]
pub(crate) struct Point {
    pub span: u16,
    pub height: u64,
}

impl fmt::Display for Point {
    ghost output = { λ point. Some (point_text point.span point.height) };

    #[tactic(auto, unfolding(crate::specs::Path::point_text))]
    fn fmt<W: fmt::Write>(&self, f: &mut fmt::Formatter<W>) -> fmt::Result {
        let x = u64::from(self.span) * 10 + 5;
        let y = 1000u64.saturating_sub(self.height);
        write!(f, "{x},{y} ")
    }
}
