//! Laws of the definitions that the contracts cite.
ghost use Rattle.std.specs.Prelude.{◌≡◌, ◌↔◌, ℕ, List, None, Some, IsTrue};
ghost use Rattle.std.specs.Str.{is_utf8};
ghost use Rattle.json.specs.Json.{Json, document};
ghost use Rattle.json.specs.Strict.{HasUniqueKeys};
ghost use Rattle.cdi_positions.specs.RepeatedKey.{repeated_key};

/// No key of a JSON text is told to stand in its object already exactly if no object in it, at any depth, has a key twice.
pub fn law_repeated_key()
    ensures { (bytes : List ℕ) (j : Json)
        → IsTrue (is_utf8 bytes)
        → document bytes ≡ Some j
        → (repeated_key bytes ≡ None) ↔ HasUniqueKeys j }
{}
