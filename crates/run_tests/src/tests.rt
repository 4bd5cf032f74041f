mod directions;
mod progress;
mod runs;
