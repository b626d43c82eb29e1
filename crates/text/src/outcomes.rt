// What a call answers, in numbers.
// Stays (1, 2, 4): `accepted` and `refused` make the numbers of the C interface; each error enum says its own by the trait `Refusal`, once.
ghost use Rattle.std.specs.Prelude.{◌≡◌};
ghost use Rattle.text.specs.Questions.{accepted as accepted_of, refused as refused_of, done as done_of, counted as counted_of};

use crate::Outcome;

// No question gets a no.
pub fn accepted(count: usize) -> Outcome
    ensures { result ≡ accepted_of count }
{
    Outcome {
        number: 0,
        place: 0,
        count,
    }
}

// A question gets a no: its number, and the place.
pub fn refused(number: u32, place: usize) -> Outcome
    ensures { result ≡ refused_of number place }
{
    Outcome {
        number,
        place,
        count: 0,
    }
}

// The errors of a call, each of which is a question's no.
pub trait Refusal {
    ghost use Rattle.text.specs.declared.Outcome.{Outcome};

    // The number of the question, and the place.
    ghost refusal: { Self → Outcome };

    fn outcome(self) -> Outcome
        ensures { result ≡ refusal self };
}

// What a call answers that has no count.
pub fn done<E: Refusal>(answer: Result<(), E>) -> Outcome
    ensures { result ≡ done_of E.refusal answer }
{
    match answer {
        Ok(()) => accepted(0),
        Err(error) => error.outcome(),
    }
}

// What a call answers that counts.
pub fn counted<E: Refusal>(answer: Result<usize, E>) -> Outcome
    ensures { result ≡ counted_of E.refusal answer }
{
    match answer {
        Ok(count) => accepted(count),
        Err(error) => error.outcome(),
    }
}
