//! Whether some bytes are read as a scenario.

ghost use Rattle.std.specs.Prelude.{◌≡◌, option_map};
ghost use Rattle.serde_json.specs.View.{view};
ghost use Rattle.rignolda_commands.specs.Drawn.{has_steps};

use serde_json::Value;

/// Whether there is a value, and it is an object with the members `tree` and `steps`.
pub(crate) fn has_steps(value: Option<&Value>) -> bool
    ensures { result ≡ has_steps (option_map (λ lent. view lent.now) value.entry) }
{
    match value {
        Some(value) if value.get("tree").is_some() => value.get("steps").is_some(),
        _ => false,
    }
}
