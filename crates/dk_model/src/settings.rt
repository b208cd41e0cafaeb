//! The settings of a table.

ghost use Rattle.std.specs.Prelude.{◌≡◌, option_map};
ghost use Rattle.dk_model.specs.Settings.{setting};

use crate::action::Metadata;
use crate::text::Text;

impl Metadata {
    /// The text of a setting, where it is set (Delta Lake's PROTOCOL.md, "Change Metadata"). A setting that is null isn't
    /// set. Takes no memory.
    pub fn setting(&self, key: &str) -> Option<&Text>
        ensures { option_map (λ text. text.now) result ≡ setting key.now self.now }
    {
        'settings: for pair in self.configuration.as_slice() {
            if pair.0.as_str() == key {
                return pair.1.as_ref();
            }
        }
        None
    }
}
