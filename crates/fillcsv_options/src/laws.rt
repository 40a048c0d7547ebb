//! What words mean, at some that are written out.
ghost use Rattle.std.specs.Prelude.{◌≡◌, ◌∷◌, [], List, None, Some, codes, false, true};
ghost use Rattle.clap.specs.Words.{Text};
ghost use Rattle.fillcsv_options.specs.Sound.{IsSound};
ghost use Rattle.fillcsv_options.specs.declared.asked.Depth.TheVariants.{One};
ghost use Rattle.fillcsv_options.specs.declared.asked.ProfileName.TheVariants.{Second, Third};
ghost use Rattle.fillcsv_options.specs.Words.{AskedData, Asks, New, Runs, Shows, There, Wrong, asked_in};

/// Words that are written out have the meaning that a person gives them.
pub fn words_mean()
    ensures fewest { asked_in (codes "people.csv" ∷ codes "--to" ∷ codes "Label" ∷ [])
        ≡ Asks (record { file = codes "people.csv"; to = There (codes "Label"); from = []; header = true; examples = []; replace = false; lookups = []; depth = One; states = false; only_sure = false; profile = Third; quiet = false; explain = false; ask = false; strict = false; save = None }) }
    ensures most { asked_in (codes "--from=Name,City" ∷ codes "--state" ∷ codes "--no-header" ∷ codes "--to=3" ∷ codes "--only" ∷ codes "sure" ∷ codes "--profile" ∷ codes "2" ∷ codes "--strict" ∷ codes "--" ∷ codes "-.csv" ∷ [])
        ≡ Asks (record { file = codes "-.csv"; to = There (codes "3"); from = codes "Name" ∷ codes "City" ∷ []; header = false; examples = []; replace = false; lookups = []; depth = One; states = true; only_sure = true; profile = Second; quiet = false; explain = false; ask = false; strict = true; save = None }) }
    ensures added { asked_in (codes "people.csv" ∷ codes "--new" ∷ codes "Initials" ∷ codes "--replace" ∷ codes "--ask" ∷ [])
        ≡ Asks (record { file = codes "people.csv"; to = New (codes "Initials"); from = []; header = true; examples = []; replace = true; lookups = []; depth = One; states = false; only_sure = false; profile = Third; quiet = false; explain = false; ask = true; strict = false; save = None }) }
    ensures saved { asked_in (codes "people.csv" ∷ codes "--to" ∷ codes "Label" ∷ codes "--save-rule" ∷ codes "label.rule" ∷ [])
        ≡ Asks (record { file = codes "people.csv"; to = There (codes "Label"); from = []; header = true; examples = []; replace = false; lookups = []; depth = One; states = false; only_sure = false; profile = Third; quiet = false; explain = false; ask = false; strict = false; save = Some (codes "label.rule") }) }
    ensures saved_so_far { asked_in (codes "people.csv" ∷ codes "--to" ∷ codes "Label" ∷ codes "--save" ∷ codes "label.rule" ∷ codes "--quiet" ∷ [])
        ≡ Asks (record { file = codes "people.csv"; to = There (codes "Label"); from = []; header = true; examples = []; replace = false; lookups = []; depth = One; states = false; only_sure = false; profile = Third; quiet = true; explain = false; ask = false; strict = false; save = Some (codes "label.rule") }) }
    ensures asked { asked_in (codes "people.csv" ∷ codes "--to" ∷ codes "Label" ∷ codes "--ask" ∷ [])
        ≡ Asks (record { file = codes "people.csv"; to = There (codes "Label"); from = []; header = true; examples = []; replace = false; lookups = []; depth = One; states = false; only_sure = false; profile = Third; quiet = false; explain = false; ask = true; strict = false; save = None }) }
    ensures run { asked_in (codes "--quiet" ∷ codes "--rule" ∷ codes "label.rule" ∷ []) ≡ Runs (record { rule = codes "label.rule"; quiet = true }) }
    ensures not_both { asked_in (codes "--rule=label.rule" ∷ codes "people.csv" ∷ []) ≡ Wrong }
    ensures help { asked_in (codes "--help" ∷ []) ≡ Shows }
    ensures none { asked_in [] ≡ Wrong }
    ensures both { asked_in (codes "people.csv" ∷ codes "--to" ∷ codes "Label" ∷ codes "--new" ∷ codes "Name" ∷ []) ≡ Wrong }
    ensures neither { asked_in (codes "people.csv" ∷ []) ≡ Wrong }
    ensures twice { asked_in (codes "-" ∷ codes "--to" ∷ codes "Label" ∷ codes "--ask" ∷ []) ≡ Wrong }
    ensures quiet { asked_in (codes "people.csv" ∷ codes "--to" ∷ codes "Label" ∷ codes "--ask" ∷ codes "--quiet" ∷ []) ≡ Wrong }
    ensures unsplit { asked_in (codes "people.csv" ∷ codes "--to" ∷ codes "Label" ∷ codes "--example" ∷ codes "2" ∷ []) ≡ Wrong }
    ensures emptied { asked_in (codes "people.csv" ∷ codes "--to" ∷ codes "Label" ∷ codes "--replace" ∷ []) ≡ Wrong }
    ensures written_over { asked_in (codes "people.csv" ∷ codes "--to" ∷ codes "Label" ∷ codes "--save-rule" ∷ codes "people.csv" ∷ []) ≡ Wrong }
    ensures only { asked_in (codes "people.csv" ∷ codes "--to" ∷ codes "Label" ∷ codes "--only" ∷ codes "doubt" ∷ []) ≡ Wrong }
{}

/// Whatever words ask for is sound.
pub fn asked_is_sound()
    ensures { (words : List Text) (asked : AskedData) → asked_in words ≡ Asks asked → IsSound asked }
{}
