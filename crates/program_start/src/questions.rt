ghost use Rattle.std.specs.Prelude.{◌≡◌, map, string_bytes};

use crate::start_messages::print;

/// What a program is asked in place of work, by its only word: `--help` or `--version`.
#[derive(Clone, Copy)]
pub enum Question {
    Help,
    Version,
}

impl Question {
    ghost use Rattle.program_start.specs.Questions.{question_of};

    /// The question that the words after the program's name ask.
    pub fn of(words: &[String]) -> Option<Question>
        ensures { result ≡ question_of (map (λ w. string_bytes w) words.now) }
    {
        let [word] = words else {
            return None;
        };
        let word = word.as_str();
        if word == "--help" {
            Some(Question::Help)
        } else if word == "--version" {
            Some(Question::Version)
        } else {
            None
        }
    }
}

/// Answers a question of a program on standard output: by its help, or by its name and version.
pub fn answer(rt: HostRuntime, question: Question, help: &str, version: &str) {
    match question {
        Question::Help => print(rt, help),
        Question::Version => print(rt, version),
    }
}
