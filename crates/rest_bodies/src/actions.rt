ghost use Rattle.std.specs.Prelude.{◌≡◌};
ghost use Rattle.serde_json.specs.View.{view};
ghost use Rattle.rest_bodies.specs.Actions.{action_of, action_in, action_at};

use crate::keys::Key;
use crate::sent::SentBody;
use serde_json::Value;
use size_values::Action;

#[tactic(auto, unfolding(crate::specs::Actions::action_of))]
fn action_of(name: &str) -> Option<Action>
    ensures { result ≡ action_of name.now }
{
    if name == "start" {
        return Some(Action::Start);
    }
    if name == "stop" {
        return Some(Action::Stop);
    }
    if name == "restart" {
        return Some(Action::Restart);
    }
    if name == "freeze" {
        return Some(Action::Freeze);
    }
    if name == "unfreeze" {
        return Some(Action::Unfreeze);
    }
    None
}

/// The action on an instance that a value names.
#[tactic(auto, unfolding(crate::specs::Actions::action_in))]
pub(crate) fn action_in(value: &Value) -> Option<Action>
    ensures { result ≡ action_in (view value.now) }
{
    match value.as_str() {
        Some(name) => action_of(name),
        None => None,
    }
}

/// The action that a body asks for, which is there in a body that was judged.
#[tactic(auto, unfolding(crate::specs::Actions::action_at))]
pub fn action_at(body: &SentBody) -> Option<Action>
    ensures { result ≡ action_at (view body.now) }
{
    match body.field(Key::Action) {
        Some(value) => action_in(value),
        None => None,
    }
}
