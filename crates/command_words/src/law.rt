ghost use Rattle.std.specs.Prelude.{◌≡◌, ℕ, List, Some};
ghost use Rattle.command_words.specs.declared.request.Numbers.{Numbers};
ghost use Rattle.command_words.specs.Alone.{AsksBenchAlone, AsksCheckAlone, AsksDeorderAlone, AsksImproveAlone, AsksReplayAlone};
ghost use Rattle.command_words.specs.Asked.{Names, bench_asked, check_asked, deorder_asked, improve_asked, replay_asked};

/// Words that ask for one command ask for no other.
pub fn one_command()
    ensures improve { (words : List (List ℕ)) (asked : Names × Numbers) → improve_asked words ≡ Some asked → AsksImproveAlone words }
    ensures check { (words : List (List ℕ)) (asked : Names) → check_asked words ≡ Some asked → AsksCheckAlone words }
    ensures deorder { (words : List (List ℕ)) (asked : Names × ℕ) → deorder_asked words ≡ Some asked → AsksDeorderAlone words }
    ensures replay { (words : List (List ℕ)) (asked : List ℕ) → replay_asked words ≡ Some asked → AsksReplayAlone words }
    ensures bench { (words : List (List ℕ)) (asked : ℕ) → bench_asked words ≡ Some asked → AsksBenchAlone words }
{}
