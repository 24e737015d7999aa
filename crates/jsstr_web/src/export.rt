// The call of a page.
ghost use Rattle.std.specs.Prelude.{◌≡◌, length};
ghost use Rattle.heap_rule.specs.Layout.{IsLawfulSize, word_count};
ghost use Rattle.jsstr_web.specs.Told.{size_given};
ghost use Rattle.jsstr_web.specs.Answers.{Answers};

use crate::answer::{WebEnd, WebOptions};
use crate::page::read_and_run;
use std::alloc::Global;

/// Reads a script and runs it. Its lines, or the message of a refusal, are put into `out` as far as there is
/// room, and `names` gets what [`names::write_names`] says. Nothing is said of `names` in the contract.
#[unsafe(no_mangle)]
pub extern "C" fn jsstr_web_run(
    alloc: Global,
    options: &WebOptions,
    text: &[u8],
    out: &mut [u8],
    names: &mut [u8],
    words: &mut [u64],
    end: &mut WebEnd,
)
    requires room { IsLawfulSize (size_given options.now)
        → length words.old ≡ word_count (size_given options.now) }
    ensures { Answers options.now text.now out.old out.new words.old words.new end.new }
{
    *end = read_and_run(alloc, options, text, out, names, words);
}
