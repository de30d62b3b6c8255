//! What holds of the definitions alone. No program calls these functions.

ghost use Rattle.std.specs.Prelude.{◌≡◌, ℕ, Bool, List, Option};
ghost use Rattle.splices_flat.specs.Opening.{Files};
ghost use Rattle.throttles.specs.declared.Limits.{Limits};
ghost use Rattle.dag_main_rehearse.specs.Rehearsed.{IsRehearsalOf, MeetsNoAbort, IsFatedReport};

/// The report of a rehearsal whose run meets no abort is that of the fates, whatever the limits.
pub fn calm_reports()
    ensures { (always_post : Bool) (files : Files) (path : List ℕ) (outcomes : Option (List ℕ)) (limits : Limits)
        (text warnings : List ℕ) (status : ℕ)
        (r : IsRehearsalOf always_post files path outcomes limits text warnings status) →
        MeetsNoAbort always_post files path outcomes limits text warnings status r →
        IsFatedReport always_post files path outcomes text status }
{}

/// So it is a function of the bytes of the files, of the flag and of the table of outcomes, with its
/// exit status: where the run of one rehearsal meets no abort, neither does that of any other, under
/// whatever limits, and both report the same. The warnings are the same with abort too.
pub fn one_report()
    ensures abort_free { (always_post : Bool) (files : Files) (path : List ℕ) (outcomes : Option (List ℕ)) (limits bounds : Limits)
        (text other warnings notes : List ℕ) (status verdict : ℕ)
        (a : IsRehearsalOf always_post files path outcomes limits text warnings status)
        (b : IsRehearsalOf always_post files path outcomes bounds other notes verdict) →
        MeetsNoAbort always_post files path outcomes limits text warnings status a →
        MeetsNoAbort always_post files path outcomes bounds other notes verdict b }
    ensures text { (always_post : Bool) (files : Files) (path : List ℕ) (outcomes : Option (List ℕ)) (limits bounds : Limits)
        (text other warnings notes : List ℕ) (status verdict : ℕ)
        (a : IsRehearsalOf always_post files path outcomes limits text warnings status)
        (b : IsRehearsalOf always_post files path outcomes bounds other notes verdict) →
        MeetsNoAbort always_post files path outcomes limits text warnings status a → text ≡ other }
    ensures status { (always_post : Bool) (files : Files) (path : List ℕ) (outcomes : Option (List ℕ)) (limits bounds : Limits)
        (text other warnings notes : List ℕ) (status verdict : ℕ)
        (a : IsRehearsalOf always_post files path outcomes limits text warnings status)
        (b : IsRehearsalOf always_post files path outcomes bounds other notes verdict) →
        MeetsNoAbort always_post files path outcomes limits text warnings status a → status ≡ verdict }
    ensures warnings { (always_post : Bool) (files : Files) (path : List ℕ) (outcomes : Option (List ℕ)) (limits bounds : Limits)
        (text other warnings notes : List ℕ) (status verdict : ℕ) →
        IsRehearsalOf always_post files path outcomes limits text warnings status →
        IsRehearsalOf always_post files path outcomes bounds other notes verdict → warnings ≡ notes }
{}
