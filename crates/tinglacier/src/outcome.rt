//! How a run ended, for C.

ghost use Rattle.std.specs.Prelude.{◌≡◌};
ghost use Rattle.tinglacier.specs.Outcomes.{outcome_of};

use script::Stopped;

/// The length of the report, and the number of the refusal, or 0 where the script ran to its end.
#[derive(Clone, Copy)]
#[repr(C)]
pub struct Outcome {
    pub length: usize,
    pub refusal: u8,
}

impl From<Result<usize, Stopped>> for Outcome {
    ghost from_gives = { λ ended outcome. outcome ≡ outcome_of ended };

    fn from(ended: Result<usize, Stopped>) -> Outcome {
        match ended {
            Ok(length) => Outcome { length, refusal: 0 },
            Err(stopped) => Outcome {
                length: stopped.length,
                refusal: u8::from(stopped.why),
            },
        }
    }
}
