//! What layers make together. Each law is the contract of a function that does nothing.
ghost use Rattle.std.specs.Prelude.{◌≡◌, ℕ, List, true, false, All, codes};
ghost use Rattle.config_lists.specs.Settings.{Settings, setting, has_setting};
ghost use Rattle.config_lists.specs.Devices.{device, is_root_disk};
ghost use Rattle.expansion.specs.declared.expanded.Expanded.{Expanded};
ghost use Rattle.expansion.specs.Layers.{IsLayer, expanded, expanded_setting, expanded_device};

/// Layers that are laid in their order give each key the value that the last layer with that key has, and each
/// name the device that the last layer with that name has.
pub fn layers_are_searched_backwards()
    ensures settings { (layers : List Expanded) (key : List ℕ) → All IsLayer layers
        → setting (expanded layers).config key ≡ expanded_setting layers key }
    ensures devices { (layers : List Expanded) (name : List ℕ) → All IsLayer layers
        → device (expanded layers).devices name ≡ expanded_device layers name }
    ensures layer { (layers : List Expanded) → All IsLayer layers → IsLayer (expanded layers) }
{}

/// A device of type `none` is no root disk, and has no other type either.
pub fn none_stands_for_no_device()
    ensures root { (device : Settings) → has_setting device (codes "type") (codes "none") ≡ true
        → is_root_disk device ≡ false }
    ensures other { (device : Settings) (name : List ℕ) → has_setting device (codes "type") (codes "none") ≡ true
        → has_setting device (codes "type") name ≡ true → name ≡ codes "none" }
{}
