ghost use Rattle.std.specs.Prelude.{◌≡◌};
ghost use Rattle.refusal.specs.Refusals.{Checked};
ghost use Rattle.study.specs.Events.{event_check, after_event};

use crate::types::State;
use refusal::types::Refusal;

// What can happen to what is proved.
#[derive(Clone, Copy)]
pub(crate) enum Event {
    Certificate,
    Tightening,
    Pin,
    Release,
}

// The state that an event leaves.
pub(crate) fn meets(state: State, event: Event) -> Result<State, Refusal>
    ensures { Checked result (event_check state event) (λ left. left ≡ after_event event) }
{
    match (state, event) {
        (State::Unproved, Event::Tightening) => Err(Refusal::NotProved),
        (State::Proved, Event::Tightening) => Ok(State::Proved),
        (State::Unproved | State::Proved, Event::Certificate) => Ok(State::Proved),
        (State::Unproved | State::Proved, Event::Pin | Event::Release) => Ok(State::Unproved),
    }
}
