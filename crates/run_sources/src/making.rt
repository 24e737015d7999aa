// Sources that were generated.
ghost use Rattle.std.specs.Prelude.{◌≡◌, map, IfOk};
ghost use Rattle.std.specs.List.{All};
ghost use Rattle.run_sources.specs.Texts.{named_for, IsSmall};
ghost use Rattle.run_sources.specs.Program.{program_from};
ghost use Rattle.run_sources.specs.Answers.{source_for, sources_for, AreShort};

use crate::sources::{SourceText, Sources};
use crate::texts::GeneratedText;
use std::alloc::{AllocError, Global};

// A source, under its name.
fn made_source<'a>(alloc: Global, text: &'a GeneratedText) -> Result<SourceText<'a>, AllocError>
    ensures { IfOk result (λ source. source_for source ≡ named_for text.entry.now) }
{
    Ok(SourceText {
        name: text.name.as_str(),
        bytes: text.text.as_bytes().to_vec(alloc)?,
    })
}

fn made_scripts<'a>(
    alloc: Global,
    texts: &'a [GeneratedText],
) -> Result<Vec<SourceText<'a>>, AllocError>
    ensures { IfOk result (λ sources. map source_for sources.items ≡ map named_for texts.entry.now) }
{
    let mut sources = Vec::new(alloc);
    for text in texts {
        let source = made_source(alloc, text)?;
        sources.push(source)?;
    }
    Ok(sources)
}

/// The sources, of which the first, if there is one, is the prelude.
pub fn made_sources<'a>(
    alloc: Global,
    texts: &'a [GeneratedText],
) -> Result<Sources<'a>, AllocError>
    requires { All IsSmall (map named_for texts.now) }
    ensures made { IfOk result
        (λ sources. sources_for sources ≡ program_from (map named_for texts.entry.now)) }
    ensures short { IfOk result (λ sources. AreShort (sources_for sources)) }
{
    if texts.is_empty() {
        return Ok(Sources {
            prelude: None,
            scripts: Vec::new(alloc),
        });
    }
    let prelude = made_source(alloc, &texts[0])?;
    let scripts = made_scripts(alloc, &texts[1..])?;
    Ok(Sources {
        prelude: Some(prelude),
        scripts,
    })
}
