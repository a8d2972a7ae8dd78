// The numbers of answers (R6.8).
ghost use Rattle.std.specs.Prelude.{◌≡◌};
ghost use Rattle.definitions.specs.Errors.{answer_number};

use definitions::Error;

// The number of an answer, 0 where it is no refusal.
pub fn answer_number(answer: Result<(), Error>) -> u32
    ensures { result ≡ answer_number answer }
{
    match answer {
        Ok(()) => 0,
        Err(error) => u32::from(error),
    }
}
