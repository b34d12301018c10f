//! What holds of the definitions.

ghost use Rattle.std.specs.Prelude.{◌≡◌, ◌++◌, ℕ, List, map, codes, IsAscii};
ghost use Rattle.acpi_space.specs.Namespace.{Entry};
ghost use Rattle.serde_json.specs.Data.{array, string};
ghost use Rattle.serde_json.specs.View.{items_of};
ghost use Rattle.serde_json.specs.Written.{compact_text};
ghost use Rattle.pw_show.specs.Json.{characters, entry_json, json_text};

/// The text is that of one array, which has the value of each object, in order, and a line feed.
pub fn text_is_an_array()
    ensures { (entries : List Entry) →
        json_text entries ≡ compact_text (array (items_of (map entry_json entries))) ++ codes "\n" }
{}

/// A string whose bytes are below 128 is told by these very bytes.
pub fn string_bytes_stand()
    ensures { (bytes : List ℕ) → IsAscii bytes → characters bytes ≡ string bytes }
{}
