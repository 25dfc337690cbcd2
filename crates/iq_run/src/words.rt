//! The words of the command line.
ghost use Rattle.std.specs.Prelude.{◌≡◌, ◌≢◌, ◌↔◌, IsTrue, map, string_bytes, codes, OnOk, OnErr};
ghost use Rattle.iq_run.specs.Words.{IsStepCommand, IsPath};

/// What the program is asked to do.
#[derive(Clone, Copy, Debug, PartialEq, Eq)]
pub enum Command {
    /// Run a script from standard input, line by line.
    Step,
}

/// The words aren't of the grammar, or memory was wanting.
#[derive(Clone, Copy, Debug, PartialEq, Eq)]
pub enum WordFault {
    Usage,
    NoMemory,
}

/// Reads the words behind the program's name: the path of a store, which isn't empty and doesn't begin with `-`, and a mode.
pub fn read_words(words: &[String]) -> Result<Command, WordFault>
    ensures ok { OnOk result (IsStepCommand (map string_bytes words.now)) }
    ensures usage { result ≡ Err WordFault.Usage → ¬ (IsStepCommand (map string_bytes words.now)) }
    ensures memory { result ≢ Err WordFault.NoMemory }
{
    match words {
        [path, mode] => read_pair(path.as_str(), mode.as_str()),
        _ => Err(WordFault::Usage),
    }
}

fn read_pair(path: &str, mode: &str) -> Result<Command, WordFault>
    ensures ok { OnOk result (IsPath path.now × (mode.now ≡ codes "step")) }
    ensures usage { OnErr result (¬ (IsPath path.now × (mode.now ≡ codes "step"))) }
    ensures fault { result ≢ Err WordFault.NoMemory }
{
    if is_path(path) && mode == "step" {
        Ok(Command::Step)
    } else {
        Err(WordFault::Usage)
    }
}

fn is_path(path: &str) -> bool
    ensures { IsTrue result ↔ IsPath path.now }
{
    match path.as_bytes() {
        [] => false,
        [first, ..] => *first != b'-',
    }
}
