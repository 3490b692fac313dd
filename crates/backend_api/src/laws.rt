// Laws on settings and commands, on which what stands above is built.
ghost use Rattle.std.specs.Prelude.{List};
ghost use Rattle.backend_api.specs.Commands.{Command};
ghost use Rattle.backend_api.specs.Laws.{WalksKeys, IsRebuilt, Follow};
ghost use Rattle.backend_api.specs.Map.{Map};

/// `next_name` walks the names of a map in their order. The function does nothing; its contract is
/// the law.
pub fn walk_names()
    ensures { (settings : Map) → WalksKeys settings }
{}

/// Putting all pairs of a map into the empty one rebuilds it. The function does nothing; its
/// contract is the law.
pub fn rebuild_settings()
    ensures { (settings : Map) → IsRebuilt settings }
{}

/// Commands compose, and so do the prefixes of them that power losses leave. The function does
/// nothing; its contract is the law.
pub fn follow_commands()
    ensures { (before : Map) (commands : List Command) → Follow before commands }
{}
