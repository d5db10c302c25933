ghost use Rattle.std.specs.Prelude.{◌≡◌};
ghost use Rattle.host_shell.specs.Words.{wanted_of};

use std::alloc::Global;

/// What the words of the command line, without the program's name, ask for.
#[derive(Clone, Copy, Debug, Drop, PartialEq, Eq)]
pub enum Form {
    /// The one word `scratch`: commands on the empty object, kept nowhere.
    Scratch,
    /// No form: every other list of words.
    Usage,
}

/// The form of the words.
pub fn wanted(_alloc: Global, words: &[String]) -> Form
    ensures { result ≡ wanted_of words.now }
{
    if words.len() == 1 && words[0].as_str() == "scratch" {
        Form::Scratch
    } else {
        Form::Usage
    }
}
