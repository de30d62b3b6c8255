//! Words whose requests are worked out from the contract of `read_words`. No program calls these functions.

ghost use Rattle.std.specs.Prelude.{◌∷◌, [], Some, false, codes};
ghost use Rattle.dag_main_args.specs.Requests.{no_limits, rehearses, runs, shows, the_reasons, views};
ghost use Rattle.dag_main_args.specs.Matched.{version_text};
ghost use Rattle.dag_main_args.specs.Examples.{AskForAlone, AskInVain, plain_options};

/// `dagrun run --maxjobs 4 x.dag`: no more than 4 jobs at once, and nothing else.
pub fn four_jobs()
    ensures { AskForAlone (codes "dagrun" ∷ codes "run" ∷ codes "--maxjobs" ∷ codes "4" ∷ codes "x.dag" ∷ [])
        (runs (codes "x.dag") (record plain_options { limits = record no_limits { jobs = 4 } })) }
{}

/// `dagrun run --autorescue 0 x.dag`: no rescue file is read.
pub fn no_rescue_file()
    ensures { AskForAlone (codes "dagrun" ∷ codes "run" ∷ codes "--autorescue" ∷ codes "0" ∷ codes "x.dag" ∷ [])
        (runs (codes "x.dag") (record plain_options { autorescue = false })) }
{}

/// `dagrun why x.dag B A`: the nodes in the order of the words.
pub fn nodes_in_order()
    ensures { AskForAlone (codes "dagrun" ∷ codes "why" ∷ codes "x.dag" ∷ codes "B" ∷ codes "A" ∷ [])
        (views (codes "x.dag") (the_reasons (codes "B" ∷ codes "A" ∷ []) false false) false false) }
{}

/// `dagrun rehearse --maxpre 2 --maxpost=3 x.dag table`: each limit by its own option.
pub fn limits_apart()
    ensures { AskForAlone (codes "dagrun" ∷ codes "rehearse" ∷ codes "--maxpre" ∷ codes "2" ∷ codes "--maxpost=3" ∷ codes "x.dag" ∷ codes "table" ∷ [])
        (rehearses (codes "x.dag") (Some (codes "table")) (record no_limits { pre = 2; post = 3 }) false) }
{}

/// `dagrun version`: the version alone.
pub fn version_shown()
    ensures { AskForAlone (codes "dagrun" ∷ codes "version" ∷ []) (shows version_text) }
{}

/// `dagrun run --resume --dorescuefrom 2 x.dag`: one can't stand beside the other.
pub fn no_resume_beside_a_rescue_file()
    ensures { AskInVain (codes "dagrun" ∷ codes "run" ∷ codes "--resume" ∷ codes "--dorescuefrom" ∷ codes "2" ∷ codes "x.dag" ∷ []) }
{}
