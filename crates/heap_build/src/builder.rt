// A text that is built up.
ghost use Rattle.std.specs.Prelude.{◌≤◌, length};
ghost use Rattle.heap_rule.specs.Layout.{MAX};

/// A list of units that grows outside any heap, and has no more than a string may have.
#[derive(Debug, Drop)]
pub struct Builder {
    pub(crate) units: Vec<u16>,
    pub ghost short: { length units.items ≤ MAX },
}
