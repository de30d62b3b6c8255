//! Laws of the definitions alone. No program calls them.

ghost use Rattle.std.specs.Prelude.{ℕ, List, Option, IsTrue};
ghost use Rattle.node_machine.specs.declared.Phase.{Phase};
ghost use Rattle.throttles.specs.declared.Limits.{Limits};
ghost use Rattle.throttles.specs.Throttled.{Throttled, IsWithin, IsPlace, may_start, none_running, with_one, without_one};

/// What runs never exceeds a limit, where each phase that starts is let in.
pub fn limits_hold()
    ensures none { (limits : Limits) (categories : List ℕ) →
        IsWithin (record { limits = limits; categories = categories; running = none_running categories }) }
    ensures start { (t : Throttled) (phase : Phase) (category : Option ℕ) → IsWithin t →
        IsPlace t.categories category → IsTrue (may_start t phase category) →
        IsWithin (record t { running = with_one t.running phase category }) }
    ensures end { (t : Throttled) (phase : Phase) (category : Option ℕ) → IsWithin t →
        IsPlace t.categories category →
        IsWithin (record t { running = without_one t.running phase category }) }
{}
