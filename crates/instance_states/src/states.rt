ghost use Rattle.std.specs.Prelude.{◌≡◌};
ghost use Rattle.instance_states.specs.States.{after_of, is_allowed};

use size_values::{Action, Deed, Power};

/// An action or a deed that the status of the instance does not allow.
#[derive(Clone, Copy, PartialEq, Eq)]
pub struct WrongState;

/// The status that an action leads to, from a status that allows it.
pub fn after(power: Power, action: Action) -> Result<Power, WrongState>
    ensures { result ≡ after_of power action }
{
    match (action, power) {
        (Action::Start, Power::Stopped) => Ok(Power::Running),
        (Action::Stop, Power::Running | Power::Frozen | Power::Error) => Ok(Power::Stopped),
        (Action::Restart, Power::Running) => Ok(Power::Running),
        (Action::Freeze, Power::Running) => Ok(Power::Frozen),
        (Action::Unfreeze, Power::Frozen) => Ok(Power::Running),
        _ => Err(WrongState),
    }
}

/// Whether a deed may be done to an instance of this status.
pub fn is_allowed(deed: Deed, power: Power) -> bool
    ensures { result ≡ is_allowed deed power }
{
    match deed {
        Deed::Restore | Deed::Rename => power == Power::Stopped,
        Deed::Delete => power == Power::Stopped || power == Power::Error,
        Deed::Snap => power != Power::Error,
        Deed::Act {
            action,
            ephemeral: _,
        } => after(power, action).is_ok(),
        Deed::Create | Deed::Copy | Deed::Update | Deed::Unsnap | Deed::CopyVolume => true,
    }
}
