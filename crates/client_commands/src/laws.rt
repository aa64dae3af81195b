//! Laws of runs, over the definitions alone. A caller that calls one of these functions has its law
//! at hand in its proof; the call costs nothing.

ghost use Rattle.client_commands.specs.Laws.{WordsOfAHintAreNotSent};
ghost use Rattle.client_commands.specs.Runs.{FoldersChangeNothing, OnlyEqualDrawsMeet};

/// What is sent for a call doesn't depend on what a hint says beyond its scheme and its version:
/// with any other hint of these, the call is refused alike, and its bytes are the same.
pub fn words_of_a_hint_are_not_sent()
    ensures { WordsOfAHintAreNotSent }
{}

/// Over any runs, side by side or one after another, with crashes, and with copies, restorations
/// and damage of the folder: two retrievals have the same seed and the same number only when they
/// are of two runs to which the random source gave the same bytes (`apart`), and what becomes of
/// the folder changes no seed and no number (`folders`).
pub fn only_equal_draws_meet()
    ensures apart { OnlyEqualDrawsMeet }
    ensures folders { FoldersChangeNothing }
{}
