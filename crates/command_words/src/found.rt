// The command that a parse found.
ghost use Rattle.std.specs.Prelude.{◌≡◌, [], ◌∷◌, Some, MatchOption, codes};
ghost use Rattle.clap.specs.Walk.{rows_of};
ghost use Rattle.clap.specs.Words.{found_of, subcommand_rows_of};
ghost use Rattle.command_words.specs.Forms.{AreNoWords, AreWords, FindsIn, script_names, values_at};

use crate::commands::Command;
use crate::operands::{line_count, store_kind};
use clap::ArgMatches;

// The image, the script and the output file of a command that runs a script on an image.
fn script_operands<'a>(operands: &ArgMatches<'a>) -> Option<(&'a str, &'a str, &'a str)>
    ensures { let values = values_at script_names (rows_of (found_of operands.now)) in
        MatchOption result (AreNoWords values)
        (λ o. AreWords values (o.0.now ∷ o.1.now ∷ o.2.now ∷ [])) }
{
    Some((
        operands.get_str("IMAGE")?,
        operands.get_str("SCRIPT")?,
        operands.get_str("OUT")?,
    ))
}

fn found_build<'a>(operands: &ArgMatches<'a>) -> Option<Command<'a>>
    ensures { FindsIn (Some (codes "build", rows_of (found_of operands.now))) result }
{
    Some(Command::Build {
        out: operands.get_str("OUT")?,
        spec: operands.get_str("SPEC")?,
    })
}

fn found_run<'a>(operands: &ArgMatches<'a>) -> Option<Command<'a>>
    ensures { FindsIn (Some (codes "run", rows_of (found_of operands.now))) result }
{
    let (image, script, out) = script_operands(operands)?;
    Some(Command::Run { image, script, out })
}

fn found_dump<'a>(operands: &ArgMatches<'a>) -> Option<Command<'a>>
    ensures { FindsIn (Some (codes "dump", rows_of (found_of operands.now))) result }
{
    Some(Command::Dump {
        image: operands.get_str("IMAGE")?,
    })
}

fn found_migrate<'a>(operands: &ArgMatches<'a>) -> Option<Command<'a>>
    ensures { FindsIn (Some (codes "migrate", rows_of (found_of operands.now))) result }
{
    Some(Command::Migrate {
        image: operands.get_str("IMAGE")?,
        out: operands.get_str("OUT")?,
    })
}

fn found_gen<'a>(operands: &ArgMatches<'a>) -> Option<Command<'a>>
    ensures { FindsIn (Some (codes "gen", rows_of (found_of operands.now))) result }
{
    let out = operands.get_str("OUT")?;
    let store = operands.get_str("BACKEND")?;
    let lines = operands.get_str("N")?;
    let backend = store_kind(store)?;
    let n = line_count(lines)?;
    Some(Command::Gen { out, backend, n })
}

fn found_log<'a>(operands: &ArgMatches<'a>) -> Option<Command<'a>>
    ensures { FindsIn (Some (codes "log", rows_of (found_of operands.now))) result }
{
    let (image, script, out) = script_operands(operands)?;
    Some(Command::Log { image, script, out })
}

fn found_items<'a>(operands: &ArgMatches<'a>) -> Option<Command<'a>>
    ensures { FindsIn (Some (codes "items", rows_of (found_of operands.now))) result }
{
    let (image, script, out) = script_operands(operands)?;
    Some(Command::Items { image, script, out })
}

fn found_mirror<'a>(operands: &ArgMatches<'a>) -> Option<Command<'a>>
    ensures { FindsIn (Some (codes "mirror", rows_of (found_of operands.now))) result }
{
    let (image, script, out) = script_operands(operands)?;
    Some(Command::Mirror { image, script, out })
}

/// The command that a parse found, if it found one.
pub fn found_command<'a>(matches: &ArgMatches<'a>) -> Option<Command<'a>>
    ensures { FindsIn (subcommand_rows_of matches.now) result }
{
    let (name, operands) = matches.subcommand()?;
    match name {
        "build" => found_build(operands),
        "run" => found_run(operands),
        "dump" => found_dump(operands),
        "migrate" => found_migrate(operands),
        "gen" => found_gen(operands),
        "log" => found_log(operands),
        "items" => found_items(operands),
        "mirror" => found_mirror(operands),
        _ => None,
    }
}
