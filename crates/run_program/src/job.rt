// Jobs and their outcomes.
use eval_tree::Script;
use js_eval::{End, Lines};

/// A script, and the place of its file.
#[derive(Drop)]
pub struct Job {
    pub index: u32,
    pub script: Script,
}

/// What came of a job: the place of its file, the lines that it printed, and how it ended.
#[derive(Drop)]
pub struct Outcome {
    pub index: u32,
    pub lines: Lines,
    pub end: End,
}
