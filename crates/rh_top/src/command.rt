//! The command that the words of a call give.

ghost use Rattle.std.specs.Prelude.{◌≡◌, MatchOption, map};
ghost use Rattle.std.specs.Option.{option_map};
ghost use Rattle.std.specs.String.{string_bytes};
ghost use Rattle.rh_top.specs.Answer.{program_of, faults_of, stored, stored_where};
ghost use Rattle.rh_top.specs.Command.{IsCommand, IsBadWords, is_plain, are_run_words, are_fault_words};
ghost use Rattle.rh_top.specs.FileCommand.{command_data};

/// A command on files.
#[derive(Clone, Copy)]
pub enum FileCommand<'a> {
    /// Runs the program in the file of this name, and writes its report. The faults are in the file that is named.
    Run {
        program: &'a str,
        faults: Option<&'a str>,
    },
}

impl<'a> FileCommand<'a> {
    /// The name of the program's file.
    pub fn program(&self) -> &'a str
        ensures { program_of (command_data self.now) ≡ stored result.now }
    {
        match self {
            FileCommand::Run { program, .. } => program,
        }
    }

    /// The name of the file of its faults.
    pub fn faults(&self) -> Option<&'a str>
        ensures { faults_of (command_data self.now) ≡ stored_where (option_map (λ name. name.now) result) }
    {
        match self {
            FileCommand::Run { faults, .. } => *faults,
        }
    }
}

/// The command that the words give. They are those after the program's name.
pub fn read_command(words: &[String]) -> Option<FileCommand<'_>>
    ensures { MatchOption result
        (IsBadWords (map string_bytes words.now))
        (λ c. IsCommand (map string_bytes words.now) (command_data c)) }
{
    match words {
        [name, program] if are_run_words(name, program) => Some(FileCommand::Run {
            program,
            faults: None,
        }),
        [name, program, option, faults]
            if are_run_words(name, program) && are_fault_words(option, faults) => {
            Some(FileCommand::Run {
                program,
                faults: Some(faults),
            })
        }
        _ => None,
    }
}

/// Whether the words are `run` and the name of a program's file.
fn are_run_words(name: &str, program: &str) -> bool
    ensures { result ≡ are_run_words name.now program.now }
{
    name == "run" && is_plain(program)
}

/// Whether the words are `--faults` and the name of a fault file.
fn are_fault_words(option: &str, faults: &str) -> bool
    ensures { result ≡ are_fault_words option.now faults.now }
{
    option == "--faults" && is_plain(faults)
}

/// Whether the word is not empty and does not begin with `-`.
fn is_plain(word: &str) -> bool
    ensures { result ≡ is_plain word.now }
{
    match word.as_bytes().first() {
        None => false,
        Some(first) => *first != b'-',
    }
}
