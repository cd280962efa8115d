// The answer of a call that fills a lent buffer, and from the sectors that a call asks or leaves to its image.
#![tactic(auto)]

mod filled;

pub use filled::Filled;
use refusals::Refusal;

impl From<Result<u32, Refusal>> for Filled {
    ghost use Rattle.std.specs.Prelude.{◌≡◌};
    ghost use Rattle.answers.specs.Meaning.{filled};

    ghost from_gives = { λ answer f. f ≡ filled answer };

    // With a refusal every other number of an answer is 0.
    fn from(answer: Result<u32, Refusal>) -> Filled {
        match answer {
            Ok(length) => Filled {
                number: refusals::DONE,
                length,
            },
            Err(refusal) => Filled {
                number: u32::from(refusal),
                length: 0,
            },
        }
    }
}
