// A schedule.
ghost use Rattle.std.specs.Prelude.{◌≡◌, true};
ghost use Rattle.heap_schedule.specs.Lines.{is_small};

use crate::line::{Line, Making};

/// A schedule that was read.
#[derive(Drop)]
pub struct Schedule {
    /// What the first line makes.
    pub making: Making,
    /// The lines behind it.
    pub lines: Vec<Line>,
    ghost small: { is_small making ≡ true },
}
