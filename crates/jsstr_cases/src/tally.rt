// How many cases were run, and how many of them differ from what is requested.
ghost use Rattle.std.specs.Prelude.{◌≡◌, ◌≤◌, ◌<◌, ◌↔◌, IsTrue, false};

#[derive(Clone, Copy)]
pub(crate) struct Tally {
    pub cases: u64,
    pub differ: u64,
}

impl Tally {
    pub(crate) fn new() -> Self
        ensures { result.differ ≡ 0 }
    {
        Tally {
            cases: 0,
            differ: 0,
        }
    }

    /// With one case more.
    pub(crate) fn with(self, as_wanted: bool) -> Self
        ensures differs { as_wanted ≡ false → 0 < result.differ }
        ensures as_wanted { IsTrue as_wanted → result.differ ≡ self.differ }
        ensures kept { self.differ ≤ result.differ }
    {
        Tally {
            cases: self.cases.saturating_add(1),
            differ: self.differ.saturating_add(if as_wanted { 0 } else { 1 }),
        }
    }

    /// Both together.
    pub(crate) fn and(self, other: Tally) -> Self
        ensures first { self.differ ≤ result.differ }
        ensures second { other.differ ≤ result.differ }
        ensures none { self.differ ≡ 0 → other.differ ≡ 0 → result.differ ≡ 0 }
    {
        Tally {
            cases: self.cases.saturating_add(other.cases),
            differ: self.differ.saturating_add(other.differ),
        }
    }

    /// The exit status.
    pub(crate) fn code(self) -> u8
        ensures { (result ≡ 0) ↔ (self.differ ≡ 0) }
    {
        if self.differ == 0 { 0 } else { 1 }
    }
}
