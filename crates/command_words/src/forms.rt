// The forms of the commands, as `clap` takes them.
ghost use Rattle.std.specs.Prelude.{◌≡◌, map, false, IfOk};
ghost use Rattle.clap.specs.Words.{app_of, shape_of};
ghost use Rattle.clap.specs.declared.builder.command.Command.TheViews.{out-Command as fields_of};
ghost use Rattle.command_words.specs.Forms.{form, forms, image_tool};

use clap::{Arg, Command};
use std::alloc::{AllocError, Global};

// Each form: its name, and the names of its operands in the order in which they are written.
const FORMS: [(&str, &[&str]); 8] = [
    ("build", &["OUT", "SPEC"]),
    ("run", &["IMAGE", "SCRIPT", "OUT"]),
    ("dump", &["IMAGE"]),
    ("migrate", &["IMAGE", "OUT"]),
    ("gen", &["OUT", "BACKEND", "N"]),
    ("log", &["IMAGE", "SCRIPT", "OUT"]),
    ("items", &["IMAGE", "SCRIPT", "OUT"]),
    ("mirror", &["IMAGE", "SCRIPT", "OUT"]),
];

// The rows of the table.
fn form_rows() -> &'static [(&'static str, &'static [&'static str])]
    ensures { map (λ row. (row.0.now, map (λ s. s.now) row.1.now)) result.now ≡ forms }
{
    &FORMS
}

// The form of one command: its name, and the names of its operands.
fn form<'a>(
    alloc: Global,
    name: &'static str,
    operands: &'static [&'static str],
) -> Result<Command<'a>, AllocError>
    ensures shape { IfOk result
        (λ command. shape_of command ≡ form name.entry.now (map (λ s. s.now) operands.now)) }
    ensures local { IfOk result (λ command. (fields_of command).has_globals ≡ false) }
{
    let mut command = Command::new(alloc, name);
    for operand in operands {
        command = command.arg(Arg::new(alloc, operand).required(true))?;
    }
    Ok(command)
}

// The program with its forms. Its words are read without the program's own name. A command of
// `clap` takes much of the stack, so the calls that move one end before its words are read.
#[inline(never)]
pub fn image_tool<'a>(alloc: Global) -> Result<Command<'a>, AllocError>
    ensures { IfOk result (λ command. app_of command ≡ image_tool) }
{
    let mut tool = Command::new(alloc, "image_tool").no_binary_name(true);
    for (name, operands) in form_rows() {
        tool = tool.subcommand(form(alloc, name, operands)?)?;
    }
    Ok(tool)
}
