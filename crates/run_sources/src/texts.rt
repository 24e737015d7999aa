// The prelude and the scripts.
ghost use Rattle.std.specs.Prelude.{◌≡◌, IfOk, OnOk, map};
ghost use Rattle.std.specs.List.{All};
ghost use Rattle.std.specs.String.{string_bytes};
ghost use Rattle.run_sources.specs.Draws.{state_after, next};
ghost use Rattle.run_sources.specs.Texts.{IsSmall, before, drawn_line, generated, named_for, prelude, script, drawn_word, word_length};

use crate::draws::Draws;
use crate::lines::{ALL_LINE, line, print_line, script_name, word_line};
use std::alloc::{AllocError, Global};

/// How many strings the prelude has, how many scripts there are, and how many drawn lines each has.
const WORDS: u32 = 16;

const SCRIPTS: u32 = 32;

const LINES: u32 = 32;

/// A source, with a name in place of a file's.
#[derive(Debug, Drop)]
pub struct GeneratedText {
    pub name: String,
    pub text: String,
}

// A string.
fn word(alloc: Global, draws: &mut Draws) -> Result<String, AllocError>
    ensures word { IfOk result (λ text. string_bytes text ≡ drawn_word draws.old.state) }
    ensures state { OnOk result
        (draws.new.state ≡ state_after (word_length draws.old.state) (next draws.old.state)) }
{
    let len = 6 + draws.draw(20);
    let mut text = String::new(alloc);
    for _letter in 0..len {
        text.push(char::from(b'a' + draws.draw(26) as u8))?;
    }
    Ok(text)
}

fn prelude(alloc: Global, draws: &mut Draws) -> Result<String, AllocError>
    ensures text { IfOk result (λ text. string_bytes text ≡ prelude draws.old.state) }
    ensures state { OnOk result (draws.new.state ≡ before draws.old.state 16) }
{
    let mut text = String::new(alloc);
    for i in 0..WORDS {
        let letters = word(alloc, draws)?;
        text.push_str(word_line(alloc, i, letters.as_str())?.as_str())?;
    }
    text.push_str(ALL_LINE)?;
    Ok(text)
}

// A line of a script. All four numbers are drawn, also where the line doesn't use them.
fn drawn_line(alloc: Global, draws: &mut Draws) -> Result<String, AllocError>
    ensures text { IfOk result (λ text. string_bytes text ≡ drawn_line draws.old.state) }
    ensures state { draws.new.state ≡ state_after 4 draws.old.state }
{
    let kind = draws.draw(6);
    let a = draws.draw(16);
    let b = draws.draw(16);
    let c = draws.draw(8);
    line(alloc, kind, a, b, c)
}

fn script(alloc: Global, draws: &mut Draws, j: u32) -> Result<String, AllocError>
    ensures text { IfOk result (λ text. string_bytes text ≡ script j draws.old.state) }
    ensures state { OnOk result (draws.new.state ≡ state_after 128 draws.old.state) }
{
    let mut text = String::from_str(alloc, "let acc = '';\nlet n = 0;\n")?;
    for _line in 0..LINES {
        text.push_str(drawn_line(alloc, draws)?.as_str())?;
    }
    text.push_str(print_line(alloc, j)?.as_str())?;
    Ok(text)
}

/// The sources that are generated from a number: the prelude, and then the scripts in order.
pub fn texts_from(alloc: Global, n: u32) -> Result<Vec<GeneratedText>, AllocError>
    ensures made { IfOk result (λ texts. map named_for texts.items ≡ generated n) }
    ensures small { IfOk result (λ texts. All IsSmall (map named_for texts.items)) }
{
    let mut draws = Draws { state: n };
    let mut texts = Vec::new(alloc);
    texts.push(GeneratedText {
        name: String::from_str(alloc, "gen-prelude")?,
        text: prelude(alloc, &mut draws)?,
    })?;
    for j in 0..SCRIPTS {
        texts.push(GeneratedText {
            name: script_name(alloc, j)?,
            text: script(alloc, &mut draws, j)?,
        })?;
    }
    Ok(texts)
}
