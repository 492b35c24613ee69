//! What settings hold where they may hold nothing, with a dash for nothing.

use radio_settings_values::WebSettings;
use radio_values::{Field, MountName, Text, Within};

pub fn or_zero<const LOW: u32, const HIGH: u32>(limit: Option<Within<LOW, HIGH>>) -> u32 {
    match limit {
        Some(limit) => limit.get(),
        None => 0,
    }
}

pub fn or_dash(text: &Option<Text>) -> &str {
    match text {
        Some(text) => text.as_str(),
        None => "-",
    }
}

pub fn field_or_dash(field: &Option<Field>) -> &str {
    match field {
        Some(field) => field.as_str(),
        None => "-",
    }
}

pub fn name_or_dash(name: &Option<MountName>) -> &str {
    match name {
        Some(name) => name.as_str(),
        None => "-",
    }
}

pub fn origin_or_dash(web: &WebSettings) -> &[u8] {
    match &web.allow_origin {
        Some(origin) => origin.as_bytes(),
        None => b"-",
    }
}
