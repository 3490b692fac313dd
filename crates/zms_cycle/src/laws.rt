//! What the steps in a sector spend at most. The function does nothing: its contract is the law.

ghost use Rattle.zms_cycle.specs.Bounds.{StepsAreBounded};

/// Whatever the bytes of a sector: a guard spends at most 1 unit, an emptying 1 to 3, and a close
/// at most one unit more than are free.
pub fn steps_are_bounded()
    ensures bounded { StepsAreBounded }
{}
