//! Tables of cases, each the contract of a function that does nothing: what the definitions give in each case.
ghost use Rattle.tests_settings.specs.DeviceOptions.{DeviceOptionsHold};
ghost use Rattle.tests_settings.specs.Layers.{LayersHold};
ghost use Rattle.tests_settings.specs.Limits.{LimitsHold};
ghost use Rattle.tests_settings.specs.Names.{NamesHold};
ghost use Rattle.tests_settings.specs.Options.{OptionsHold};

/// Each option of instances and objects takes its good values and refuses its bad ones, and the first fault is told.
pub fn options_take_their_values()
    ensures { OptionsHold }
{}

/// The same of devices of each type.
pub fn options_of_devices()
    ensures { DeviceOptionsHold }
{}

/// Which names objects may have, and which objects devices name.
pub fn names_and_uses()
    ensures { NamesHold }
{}

/// What the limits of a project are, what counts under them, and what is admitted.
pub fn limits_and_amounts()
    ensures { LimitsHold }
{}

/// Settings and devices, alone, changed and in layers.
pub fn settings_in_layers()
    ensures { LayersHold }
{}
