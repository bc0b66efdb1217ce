//! What the arguments ask for.
ghost use Rattle.std.specs.Prelude.{◌≡◌};
ghost use Rattle.tcrun.specs.Arguments.{task_of};

/// What tcrun is to do.
#[derive(Clone, Copy, PartialEq, Eq, Debug)]
pub enum Task<'a> {
    /// No argument: play the script on standard input.
    Play,
    /// `--help`: print how tcrun is used.
    Help,
    /// `--version`: print its name and version.
    Version,
    /// Another argument, which is an error.
    Unknown(&'a str),
}

/// The task that the first argument after the program's name asks for; further ones are not looked at.
pub fn task_for(first: Option<&str>) -> Task<'_>
    ensures { result ≡ task_of first.entry }
{
    match first {
        None => Task::Play,
        Some("--help") => Task::Help,
        Some("--version") => Task::Version,
        Some(other) => Task::Unknown(other),
    }
}
