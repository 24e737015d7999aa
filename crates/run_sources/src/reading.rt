// Reads the files.
ghost use Rattle.std.specs.Prelude.{◌≡◌, map, option_map, IfOk, IfErr};
ghost use Rattle.std.specs.List.{All};
ghost use Rattle.run_sources.specs.Program.{in_order};
ghost use Rattle.run_sources.specs.Reading.{KeepsFiles, IsQuiet, IsSourceRead, IsPreludeRead, Read, AreRead};
ghost use Rattle.run_sources.specs.Answers.{names_for, source_for, sources_for, AreShort, RefusesFile, RefusesPrelude, RefusesRead};

use crate::sources::{SourceText, Sources};
use crate::stop::ScriptsFault;
use js_io::{Files, ReadFault};
use std::alloc::Global;

// Reads one file.
fn read_file<'a, F: Files>(
    alloc: Global,
    name: &'a str,
    files: &mut F,
) -> Result<SourceText<'a>, ScriptsFault<'a>>
    ensures keeps { KeepsFiles (F.state files.old) (F.state files.new) }
    ensures quiet { IfOk result (λ _. IsQuiet (F.state files.old) (F.state files.new)) }
    ensures read { IfOk result (λ source. IsSourceRead (F.state files.old).held name.now
        (source_for source)) }
    ensures refused { IfErr result (RefusesRead (F.state files.old) (F.state files.new) name.now) }
{
    match files.read(alloc, name) {
        Ok(bytes) => Ok(SourceText { name, bytes }),
        Err(ReadFault::Failed) => Err(ScriptsFault::NotRead(name)),
        Err(ReadFault::TooLarge) => Err(ScriptsFault::TooLarge(name)),
        Err(ReadFault::Memory) => Err(ScriptsFault::NoMemory),
    }
}

// Reads the prelude's file, if there is one.
fn read_prelude<'a, F: Files>(
    alloc: Global,
    name: Option<&'a str>,
    files: &mut F,
) -> Result<Option<SourceText<'a>>, ScriptsFault<'a>>
    ensures keeps { KeepsFiles (F.state files.old) (F.state files.new) }
    ensures quiet { IfOk result (λ _. IsQuiet (F.state files.old) (F.state files.new)) }
    ensures read { IfOk result
        (λ source. IsPreludeRead (F.state files.old).held (option_map (λ n. n.now) name.entry)
        (option_map source_for source)) }
    ensures refused { IfErr result
        (RefusesPrelude (F.state files.old) (F.state files.new) (option_map (λ n. n.now) name.entry)) }
{
    match name {
        Some(name) => match read_file(alloc, name, files) {
            Ok(source) => Ok(Some(source)),
            Err(stop) => Err(stop),
        },
        None => Ok(None),
    }
}

// Reads the scripts' files in order.
fn read_scripts<'a, F: Files>(
    alloc: Global,
    names: &[&'a str],
    files: &mut F,
) -> Result<Vec<SourceText<'a>>, ScriptsFault<'a>>
    ensures keeps { KeepsFiles (F.state files.old) (F.state files.new) }
    ensures quiet { IfOk result (λ _. IsQuiet (F.state files.old) (F.state files.new)) }
    ensures read { IfOk result
        (λ sources. Read (F.state files.old).held (map (λ n. n.now) names.now)
        (map source_for sources.items)) }
    ensures refused { IfErr result
        (RefusesFile (F.state files.old) (F.state files.new) (map (λ n. n.now) names.now)) }
{
    let mut sources = Vec::new(alloc);
    for name in names {
        let source = read_file(alloc, *name, files)?;
        sources.push(source)?;
    }
    Ok(sources)
}

/// Reads all files, the prelude first.
pub fn read_sources<'a, F: Files>(
    alloc: Global,
    prelude: Option<&'a str>,
    scripts: &[&'a str],
    files: &mut F,
) -> Result<Sources<'a>, ScriptsFault<'a>>
    ensures keeps { KeepsFiles (F.state files.old) (F.state files.new) }
    ensures quiet { IfOk result (λ _. IsQuiet (F.state files.old) (F.state files.new)) }
    ensures read { IfOk result
        (λ sources. AreRead (F.state files.old).held (names_for prelude.entry scripts.now)
        (sources_for sources)) }
    ensures short { IfOk result (λ sources. AreShort (sources_for sources)) }
    ensures refused { IfErr result
        (RefusesFile (F.state files.old) (F.state files.new)
        (in_order (names_for prelude.entry scripts.now))) }
{
    let prelude = read_prelude(alloc, prelude, files)?;
    let scripts = read_scripts(alloc, scripts, files)?;
    Ok(Sources { prelude, scripts })
}
