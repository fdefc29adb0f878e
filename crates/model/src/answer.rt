// What a turn answers, above the stores.
ghost use Rattle.std.specs.Prelude.{◌≡◌};
ghost use Rattle.model.specs.declared.answer.TurnError.TheVariants.{Refused, Conflicting};

use vocab::layer::Layer;
use vocab::number::Number;
use vocab::refusal::Refusal;

#[derive(Clone, Copy, PartialEq, Eq, Debug)]
pub struct Fault {
    pub refusal: Refusal,
    pub layer: Layer,
}

// The first record of a log that failed at the server, as logged.
#[derive(Clone, Copy, PartialEq, Eq, Debug)]
pub struct Conflict {
    pub refusal: Refusal,
    pub serial: u32,
    pub object: Number,
}

// What an accepted turn gives.
#[derive(Clone, Copy, PartialEq, Eq, Debug)]
pub enum Reply {
    Done,
    // A new object's number.
    Made(Number),
    // The length of what was read.
    Length(usize),
    // The records of a log, at a join or a quit.
    Records(usize),
}

// Why a turn is not accepted.
#[derive(Clone, Copy, PartialEq, Eq, Debug)]
pub enum TurnError {
    Refused(Fault),
    Conflicting(Conflict),
    // The loader's state does not allow the call, or there is no such loader: no turn.
    NotAllowed,
}

pub type Answer = Result<Reply, TurnError>;

impl From<Fault> for TurnError {
    ghost from_gives = { λ fault error. error ≡ Refused fault };

    fn from(fault: Fault) -> TurnError {
        TurnError::Refused(fault)
    }
}

impl From<Conflict> for TurnError {
    ghost from_gives = { λ conflict error. error ≡ Conflicting conflict };

    fn from(conflict: Conflict) -> TurnError {
        TurnError::Conflicting(conflict)
    }
}
