// RULES 5.5: what a door answers that may be asked for the thermal conductivity of its state too. All its steps have
// been taken: this is the last.
#![tactic(auto)]

ghost use Rattle.std.specs.Prelude.{◌≡◌};
ghost use Rattle.equation.specs.Equation.{of1996};
ghost use Rattle.door_conductivity.specs.Conducted.{conducting, with_conductivity};

use eos_state::State;
use equation::conductivity_at;
use refusal::Refusal;

// A state, and what it carries on request, in W/(m K).
#[derive(Clone, Copy)]
pub struct Carried {
    pub state: State,
    pub conductivity: Option<f64>,
}

// Where it is asked for: 7 where its working fails, and then nothing of the state is carried.
#[tactic(auto, unfolding(crate::specs::Conducted::conducting))]
fn conducting(state: State) -> Result<Carried, Refusal>
    ensures { result ≡ conducting of1996 state }
{
    let x = conductivity_at(state.t, state.rho).ok_or(Refusal(7))?;
    Ok(Carried {
        state,
        conductivity: Some(x),
    })
}

pub fn with_conductivity(asked: bool, a: Result<State, Refusal>) -> Result<Carried, Refusal>
    ensures { result ≡ with_conductivity of1996 asked a }
{
    let state = a?;
    if asked {
        return conducting(state);
    }
    Ok(Carried {
        state,
        conductivity: None,
    })
}
