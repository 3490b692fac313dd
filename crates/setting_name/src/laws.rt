//! Laws on names and on how they match. The functions do nothing: their contracts are the laws.

ghost use Rattle.std.specs.Prelude.{◌≡◌, ◌≢◌, ◌↔◌, ◌<◌, ◌≤◌, ℕ, List, length, All, Some, None};
ghost use Rattle.setting_name.specs.Name.{IsName, HasWholeParts, parts_of};
ghost use Rattle.setting_name.specs.Match.{Matches, matched_rest, joined_text};

/// A name matches a key exactly if the parts of the key are the first parts of the name. The rest
/// is the other parts.
pub fn matches_by_parts()
    ensures rest { (name key rest : List ℕ)
        → (matched_rest name key ≡ Some rest) ↔ Matches name key rest }
    ensures none { (name key rest : List ℕ) → matched_rest name key ≡ None
        → ¬ Matches name key rest }
{}

/// A key joined with a rest matches the key, with that rest.
pub fn match_of_join()
    ensures { (key rest : List ℕ) → matched_rest (joined_text key rest) key ≡ Some rest }
{}

/// A name that matches a key is that key joined with the rest.
pub fn join_of_match()
    ensures { (name key rest : List ℕ) → HasWholeParts name → matched_rest name key ≡ Some rest
        → name ≡ joined_text key rest }
{}

/// Of two keys that one name matches, the one with more parts is the longer one, and two with
/// equally many parts are the same key. So the longest key is the one with the most parts, and
/// there is at most one.
pub fn keys_of_one_name()
    ensures longer { (name key other rest left : List ℕ) → matched_rest name key ≡ Some rest
        → matched_rest name other ≡ Some left → length (parts_of key) < length (parts_of other)
        → length key < length other }
    ensures same { (name key other rest left : List ℕ) → matched_rest name key ≡ Some rest
        → matched_rest name other ≡ Some left → length (parts_of key) ≡ length (parts_of other)
        → key ≡ other }
{}

/// No byte of a name is a space, a `=`, or FF, as erased flash reads.
pub fn bytes_of_a_name()
    ensures { (text : List ℕ) → IsName text
        → All (λ byte. (0x21 ≤ byte) × (byte ≤ 0x7E) × (byte ≢ 0x3D)) text }
{}
