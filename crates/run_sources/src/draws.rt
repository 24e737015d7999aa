// Numbers that are drawn one after the other.
ghost use Rattle.std.specs.Prelude.{◌≡◌, ◌<◌};
ghost use Rattle.run_sources.specs.Draws.{draw, next};

/// What draws numbers: its state.
#[derive(Drop)]
pub(crate) struct Draws {
    pub(crate) state: u32,
}

impl Draws {
    /// Draws a number below `most`.
    pub(crate) fn draw(&mut self, most: u32) -> u32
        requires { 0 < most }
        ensures value { result ≡ draw self.old.state most }
        ensures below { result < most }
        ensures state { self.new.state ≡ next self.old.state }
    {
        let next = (u64::from(self.state) * 1_664_525 + 1_013_904_223) % 4_294_967_296;
        self.state = next as u32;
        self.state / 65536 % most
    }
}
