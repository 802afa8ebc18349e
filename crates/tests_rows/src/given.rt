//! Texts, settings and devices that are made of what a test gives. Where memory is refused, a part is missing in what
//! is made, and it is not what the test gives.
use config_lists::{Config, Devices};
use size_values::Text;
use std::alloc::Global;

/// Keys and values.
pub type Settings = &'static [(&'static str, &'static str)];

pub fn text_of(alloc: Global, text: &str) -> Text {
    match Text::from_text(alloc, text) {
        Ok(text) => text,
        Err(_) => Text::new(alloc),
    }
}

/// Sets a key, unless it or its value is empty.
pub fn set(config: &mut Config, key: &str, value: &str) {
    if !key.is_empty() && !value.is_empty() {
        let _ = config.set(key, value);
    }
}

/// The settings that are set in this order.
pub fn config_of(alloc: Global, rows: &[(&str, &str)]) -> Config {
    let mut config = Config::new(alloc);
    for (key, value) in rows {
        set(&mut config, key, value);
    }
    config
}

/// The devices that are put in this order.
pub fn devices_of(alloc: Global, rows: &[(&str, &[(&str, &str)])]) -> Devices {
    let mut devices = Devices::new(alloc);
    for (name, settings) in rows {
        let _ = devices.put(name, config_of(alloc, settings));
    }
    devices
}
