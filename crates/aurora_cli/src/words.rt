//! The words of the command line.
ghost use Rattle.std.specs.Prelude.{◌≡◌, ◌&&◌, ℕ, Option, Some, None, cond, map};
ghost use Rattle.std.specs.Option.{option_map};
ghost use Rattle.std.specs.String.{string_bytes};
ghost use Rattle.std.specs.Str.{all_ascii_digits};
ghost use Rattle.std.specs.Str.Parse.{digits_value};
ghost use Rattle.aurora_cli.specs.CommandWords.{asked_by, is_budget};

/// A command: the name of a text, and the budget in inferences.
#[derive(Drop)]
pub(crate) struct Command<'a> {
    pub(crate) file: &'a str,
    pub(crate) budget: u64,
}

/// The command that three words stand for: the program's name, FILE and BUDGET.
pub(crate) fn command_of(words: &[String]) -> Option<Command<'_>>
    ensures { option_map (λ c. record { file = c.file.now; budget = c.budget }) result ≡ asked_by (map string_bytes words.now) }
{
    match words {
        [_, file, budget] => {
            let budget = budget_of(budget.as_str())?;
            Some(Command {
                file: file.as_str(),
                budget,
            })
        }
        _ => None,
    }
}

/// The budget that a word stands for: 1 to 10 decimal digits with a value from 1 to 4,294,967,295.
fn budget_of(word: &str) -> Option<u64>
    ensures { result ≡ cond (is_budget word.now) (Some (digits_value 10 word.now)) None }
{
    if word.len() > 10 || !is_digits(word) {
        return None;
    }
    match word.parse::<u64>() {
        Ok(budget) if 0 < budget && budget < 4_294_967_296 => Some(budget),
        _ => None,
    }
}

/// Whether a word has decimal digits only.
fn is_digits(word: &str) -> bool
    ensures { result ≡ all_ascii_digits word.now }
{
    for byte in word.as_bytes() {
        if !byte.is_ascii_digit() {
            return false;
        }
    }
    true
}
