// The task of a command.
ghost use Rattle.std.specs.Prelude.{◌≡◌};
ghost use Rattle.image_tool.specs.Tasks.{task_of};

use command_words::Command;
use image_jobs::{Job, Output, Report, Source, Start};

/// The task of a command.
#[derive(Clone, Copy)]
pub enum Task<'a> {
    /// Writes the blank image that a word describes into a file.
    Build {
        out: &'a str,
        spec: &'a str,
    },
    /// Carries out lines of settings on an image.
    Settings(Job<'a>),
    /// Carries out the lines of a script on the log of an image.
    Log {
        image: &'a str,
        script: &'a str,
        out: &'a str,
    },
    /// Carries out the lines of a script on the numbered items of an image.
    Items {
        image: &'a str,
        script: &'a str,
        out: &'a str,
    },
    /// Carries out the lines of a script on the mirror of an image.
    Mirror {
        image: &'a str,
        script: &'a str,
        out: &'a str,
    },
}

/// The task of the command.
pub fn task_of<'a>(command: &Command<'a>) -> Task<'a>
    ensures { result ≡ task_of command.now }
{
    let job = match *command {
        Command::Build { out, spec } => return Task::Build { out, spec },
        Command::Run { image, script, out } => Job {
            start: Start::File { name: image },
            source: Source::Script { name: script },
            report: Report::All,
            output: Output::Into { name: out },
        },
        Command::Dump { image } => Job {
            start: Start::File { name: image },
            source: Source::Names,
            report: Report::Last,
            output: Output::Nowhere,
        },
        Command::Migrate { image, out } => Job {
            start: Start::File { name: image },
            source: Source::Migration,
            report: Report::All,
            output: Output::Into { name: out },
        },
        Command::Gen { out, backend, n } => Job {
            start: Start::Blank { store: backend },
            source: Source::Generated { n },
            report: Report::Summary { store: backend, n },
            output: Output::Into { name: out },
        },
        Command::Log { image, script, out } => return Task::Log { image, script, out },
        Command::Items { image, script, out } => return Task::Items { image, script, out },
        Command::Mirror { image, script, out } => return Task::Mirror { image, script, out },
    };
    Task::Settings(job)
}
