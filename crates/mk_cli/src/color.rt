//! When a diff has colours.
ghost use Rattle.std.specs.Prelude.{◌≡◌, false, true};

use crate::request::Color;
use std::env;
use std::env::VarError;

// Whether the environment says that nothing is to have colours (no-color.org): its `NO_COLOR` is there,
// and not empty.
fn is_unwanted(rt: &HostRuntime) -> bool {
    match env::var(rt, "NO_COLOR") {
        Ok(text) => !text.is_empty(),
        Err(VarError::NotPresent) => false,
        Err(_) => true,
    }
}

/// Whether a diff has colours that goes to a terminal, or to something else.
pub fn has_color(rt: &HostRuntime, when: Color, is_terminal: bool) -> bool
    ensures always { when ≡ Color.Always → result ≡ true }
    ensures never { when ≡ Color.Never → result ≡ false }
    ensures elsewhere { when ≡ Color.Auto → is_terminal ≡ false → result ≡ false }
{
    match when {
        Color::Auto => is_terminal && !is_unwanted(rt),
        Color::Always => true,
        Color::Never => false,
    }
}
