// Laws on the best subtree. The functions do nothing: their contracts are the laws.
ghost use Rattle.std.specs.Prelude.{◌≡◌, ℕ, ◌<◌, List, [], length, get_or, Some, None};
ghost use Rattle.setting_name.specs.Match.{matched_rest};
ghost use Rattle.handlers.specs.Best.{AreDistinct, IsLongest, best};
ghost use Rattle.handlers.specs.Held.{HandlerState};
ghost use Rattle.handlers.specs.Registry.{Registered, subtrees, with_state};

/// Of distinct subtrees, the best one for a name is the longest that matches it. There is at most
/// one such, and `best` gives none only if no subtree matches.
pub fn longest_is_best()
    ensures longest { (subtrees : List (List ℕ)) (name : List ℕ) (place : ℕ) → AreDistinct subtrees
        → best subtrees name ≡ Some place → IsLongest subtrees name place }
    ensures one { (subtrees : List (List ℕ)) (name : List ℕ) (place other : ℕ)
        → IsLongest subtrees name place → IsLongest subtrees name other → place ≡ other }
    ensures none { (subtrees : List (List ℕ)) (name : List ℕ) (k : ℕ) → best subtrees name ≡ None
        → k < length subtrees → matched_rest name (get_or subtrees k []) ≡ None }
{}

/// A change of one handler's state leaves all subtrees as they are.
pub fn subtrees_stay()
    ensures { (handlers : List Registered) (place : ℕ) (state : HandlerState)
        → subtrees (with_state handlers place state) ≡ subtrees handlers }
{}
