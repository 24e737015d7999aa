// How a call ended.
use run_program::Kept;

/// How a call of [`crate::run_words`] ended.
#[derive(Drop)]
pub struct Status {
    /// The exit status of the program.
    pub code: u8,
    /// The heap on which the program was run, and its agent with the whole share: nothing with the
    /// statuses 2, 3 and 4, and with 6 where memory ran out before anything ran.
    pub kept: Option<Kept>,
}
