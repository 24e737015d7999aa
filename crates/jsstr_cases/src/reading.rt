// The cases of a file.

use crate::block::Block;
use crate::case::{Case, Fault};
use crate::line::case_of;
use std::alloc::Global;

/// A line that isn't of the form, and why.
#[derive(Clone, Copy)]
pub(crate) struct BadLine {
    pub line: usize,
    pub fault: Fault,
}

/// The cases of a case file, in their order.
pub(crate) fn cases_of(alloc: Global, text: &str) -> Result<Vec<Case>, BadLine> {
    let mut reader = Reader {
        cases: Vec::new(alloc),
        open: None,
    };
    let mut line = 0usize;
    for text in text.split_terminator('\n') {
        line = line.saturating_add(1);
        if let Err(fault) = reader.take(alloc, line, text) {
            return Err(BadLine { line, fault });
        }
    }
    if reader.open.is_some() {
        let fault = Fault::Form("a block without `-- status`");
        return Err(BadLine { line, fault });
    }
    Ok(reader.cases)
}

// The cases so far, and the block that is open behind them.
#[derive(Drop)]
struct Reader {
    cases: Vec<Case>,
    open: Option<Block>,
}

impl Reader {
    fn take(&mut self, alloc: Global, line: usize, text: &str) -> Result<(), Fault> {
        if let Some(mut block) = self.open.take() {
            if block.take(alloc, text)? {
                self.cases.push(block.into_case())?;
            } else {
                self.open = Some(block);
            }
        } else if text.starts_with("== ") {
            self.open = Some(Block::new(alloc, line, text)?);
        } else if !text.is_empty() && !text.starts_with('#') {
            self.cases.push(case_of(alloc, line, text)?)?;
        }
        Ok(())
    }
}
