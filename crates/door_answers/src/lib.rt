// RULES 3.5: what a door answers, a state or the number of its refusal and nothing else.
#![tactic(auto)]

ghost use Rattle.std.specs.Prelude.{◌≡◌};
ghost use Rattle.door_answers.specs.Answer.{answer_with, refusal_number};

use door_checks::number_of;
use eos_state::State;
use refusal::Refusal;

// The state; 7 where the working failed.
pub fn answer_with(s: Option<State>) -> Result<State, Refusal>
    ensures { result ≡ answer_with s }
{
    s.ok_or(Refusal(7))
}

// The number of a refusal, to be handed on; 0 of a state, which is a check passed.
pub fn refusal_number(a: Result<State, Refusal>) -> u8
    ensures { result ≡ refusal_number a }
{
    number_of(a.and(Ok(())))
}
