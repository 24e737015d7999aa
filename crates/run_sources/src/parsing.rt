// Parses the sources.
ghost use Rattle.std.specs.Prelude.{◌≡◌, map, option_map, IfOk, IfErr};
ghost use Rattle.std.specs.List.{All};
ghost use Rattle.eval_tree.specs.Tree.{tree_of};
ghost use Rattle.js_parse.specs.Spells.{Spells};
ghost use Rattle.run_sources.specs.Program.{outer_of};
ghost use Rattle.run_sources.specs.Spelling.{AllSpell, Spell, SpellsPrelude};
ghost use Rattle.run_sources.specs.Answers.{source_for, sources_for, trees_for, AreShort, IsPreludeShort, IsShort, RefusesAmong, RefusesPreludeText, RefusesScript, RefusesText};

use crate::sources::{Scripts, SourceText, Sources};
use crate::stop::ScriptsFault;
use eval_tree::{Names, Script};
use js_parse::{ParseFault, Role, parse};
use std::alloc::Global;

// The script that a source spells in a role, after a prelude that declares the outer names.
fn parse_text<'a>(
    alloc: Global,
    source: &SourceText<'a>,
    role: Role,
    outer: &Names,
) -> Result<Script, ScriptsFault<'a>>
    requires { IsShort (source_for source.now) }
    ensures spells { IfOk result (λ script. Spells role outer.now source.now.bytes.items (tree_of script)) }
    ensures refused { IfErr result (RefusesText role outer.now (source_for source.now)) }
{
    let name = source.name;
    match parse(alloc, &source.bytes, role, outer) {
        Ok(script) => Ok(script),
        Err(ParseFault::Memory) => Err(ScriptsFault::NoMemory),
        Err(fault) => Err(ScriptsFault::Refused(name, fault)),
    }
}

// The prelude that its source spells, if there is one.
fn parse_prelude<'a>(
    alloc: Global,
    source: &Option<SourceText<'a>>,
) -> Result<Option<Script>, ScriptsFault<'a>>
    requires { IsPreludeShort (option_map source_for source.now) }
    ensures spells { IfOk result
        (λ script. SpellsPrelude (option_map source_for source.now) (option_map tree_of script)) }
    ensures refused { IfErr result (RefusesPreludeText (option_map source_for source.now)) }
{
    let outer = Names::new(alloc);
    match source {
        Some(source) => match parse_text(alloc, source, Role::Prelude, &outer) {
            Ok(script) => Ok(Some(script)),
            Err(stop) => Err(stop),
        },
        None => Ok(None),
    }
}

// The scripts that sources spell after a prelude that declares the outer names, in order.
fn parse_scripts<'a>(
    alloc: Global,
    sources: &[SourceText<'a>],
    outer: &Names,
) -> Result<Vec<Script>, ScriptsFault<'a>>
    requires { All IsShort (map source_for sources.now) }
    ensures spell { IfOk result
        (λ scripts. AllSpell outer.now (map source_for sources.now) (map tree_of scripts.items)) }
    ensures refused { IfErr result (RefusesAmong outer.now (map source_for sources.now)) }
{
    let mut scripts = Vec::new(alloc);
    for source in sources {
        let script = parse_text(alloc, source, Role::Main, outer)?;
        scripts.push(script)?;
    }
    Ok(scripts)
}

// The scripts that sources spell after a prelude or none.
fn parse_after<'a>(
    alloc: Global,
    sources: &[SourceText<'a>],
    prelude: &Option<Script>,
) -> Result<Vec<Script>, ScriptsFault<'a>>
    requires { All IsShort (map source_for sources.now) }
    ensures spell { IfOk result
        (λ scripts. AllSpell (outer_of (option_map tree_of prelude.now)) (map source_for sources.now)
        (map tree_of scripts.items)) }
    ensures refused { IfErr result
        (RefusesAmong (outer_of (option_map tree_of prelude.now)) (map source_for sources.now)) }
{
    match prelude {
        Some(prelude) => parse_scripts(alloc, sources, prelude.names()),
        None => {
            let none = Names::new(alloc);
            parse_scripts(alloc, sources, &none)
        }
    }
}

/// The scripts that the sources spell, the prelude first and each script after the names that it declares.
pub fn parse_sources<'a>(alloc: Global, sources: &Sources<'a>) -> Result<Scripts, ScriptsFault<'a>>
    requires { AreShort (sources_for sources.now) }
    ensures spell { IfOk result (λ scripts. Spell (sources_for sources.now) (trees_for scripts)) }
    ensures refused { IfErr result (RefusesScript (sources_for sources.now)) }
{
    let prelude = parse_prelude(alloc, &sources.prelude)?;
    let scripts = parse_after(alloc, &sources.scripts, &prelude)?;
    Ok(Scripts { prelude, scripts })
}
